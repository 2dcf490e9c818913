// What a source of answers promises.
ghost use Rattle.std.specs.Prelude.{◌≡◌, ℕ, List, OnOk, option_copied};
ghost use Rattle.std.specs.Option.{option_map};
ghost use Rattle.answer_source.specs.Sources.{Knew, Asks, Fetches, PathsOnce, found_seen};
ghost use Rattle.py_model.specs.Capture.{Capture, found_in};
ghost use Rattle.py_model.specs.Running.{Asking};

use capture::{Ask, Given};
use prov_base::{Memory, Pos};
use prov_outside::Found;
use std::alloc::Global;

/// Where a run gets what devices give it.
pub trait Source {
    /// A capture that fits the source: it has all that the source has given so far, and may have more.
    ghost fits: { Self → Capture → Type 0 };

    /// What was asked and which paths were fetched so far, the latest first.
    ghost stands: { Self → List Asking → List (List ℕ) → Type 0 };

    /// The law that some capture fits the source.
    fn some_fits(&self)
        ensures { (capture : Capture) × fits self.now capture };

    /// The law that no path stands twice in a capture that fits.
    fn paths_once(&self)
        ensures { (capture : Capture) → fits self.now capture → PathsOnce capture.files };

    /// What a device gives to a question that is asked at a place, for the next time there; none where nothing is kept of it. Either counts as
    /// asked. After an `Err` it may count as asked, or not: memory may lack for a copy of what was given.
    fn ask(&mut self, alloc: Global, what: Ask, at: Pos) -> Result<Option<Given>, Memory>
        ensures knew { Knew (fits self.old) (fits self.new) }
        ensures asked { Asks what at (fits self.new) (stands self.old) (stands self.new) result };

    /// The paths that were fetched.
    ghost has: { Self → List ℕ → Type 0 };

    /// Fetches what stands at a path, where it was not fetched before. After an `Err` it does not count as fetched.
    fn fetch(&mut self, alloc: Global, path: &str) -> Result<(), Memory>
        ensures knew { Knew (fits self.old) (fits self.new) }
        ensures fetched { Fetches path.now (stands self.old) (stands self.new) result }
        ensures has { OnOk result (has self.new path.now) };

    /// What stands at a path that was fetched; none where nothing is kept of it.
    fn found(&self, path: &str) -> Option<&Found>
        requires { has self.now path.now }
        ensures { (capture : Capture) → fits self.now capture → found_in capture.files path.now ≡ option_map found_seen (option_copied result) };
}
