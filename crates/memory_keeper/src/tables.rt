// The four tables as lists.
ghost use Rattle.std.specs.Prelude.{◌≡◌};
ghost use Rattle.memory_keeper.specs.Held.{are_pages_of, are_whole, listed};

use keeper::{Head, Page};
use prov_base::{Bytes, Digest, Name};

// There are at most so many trials.
const MOST_TRIALS: usize = 4_294_967_295;

/// The four tables as lists. Heads are numbered from 1; of several other entries with one key the last one stands.
#[derive(Drop)]
pub struct Tables {
    /// The heads of the trials 1, 2 and so on.
    pub heads: Vec<Head>,
    /// The pages, each with its trial and its number.
    pub pages: Vec<(u32, u32, Page)>,
    /// The contents by their digests.
    pub contents: Vec<(Digest, Bytes)>,
    /// The current trials by their paths.
    pub current: Vec<(Name, u32)>,
}

impl Tables {
    /// Whether these can be the tables of a keeper: at most 4294967295 heads, and pages only of trials that have one.
    pub fn are_whole(&self) -> bool
        ensures { result ≡ are_whole (listed self.now) }
    {
        let count = self.heads.len();
        count <= MOST_TRIALS && are_of_first(count, &self.pages)
    }
}

// Each page is of one of the first so many trials.
fn are_of_first(count: usize, pages: &[(u32, u32, Page)]) -> bool
    ensures { result ≡ are_pages_of count pages.now }
{
    pages
        .iter()
        .all(|page| 1 <= page.0 && page.0 as usize <= count)
}
