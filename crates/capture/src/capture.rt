// The capture of a run: what the devices gave, kept so that another run can be given the same.
ghost use Rattle.std.specs.Prelude.{◌≡◌, ◌+◌, ◌<◌, ℕ, List, [], ◌++◌, ◌∷◌, false, None, Some, Ok, Err, IsOk, IsTrue, IfOk, OnOk, OnErr, MatchResult};
ghost use Rattle.std.specs.List.Sorted.{IsPermutation};
ghost use Rattle.prov_base.specs.declared.place.Pos.{Pos as Place};
ghost use Rattle.prov_base.specs.declared.refusal.Memory.{Memory as Want};
ghost use Rattle.prov_outside.specs.declared.folder.Found.{Found as FoundThere};
ghost use Rattle.prov_outside.specs.Count.{faults_after};
ghost use Rattle.prov_outside.specs.Folder.{Gets, IsAnswer};
ghost use Rattle.prov_outside.specs.Tells.{Tells};
ghost use Rattle.capture.specs.Answers.{given_at, is_kept, IsLast, IsNext, Fits, answer_at, AreInOrder, AreOnce};
ghost use Rattle.capture.specs.Asking.{ForAsk, AsksTime, AsksWord, AsksLine, as_answer, as_fetch, IsOneLine};
ghost use Rattle.capture.specs.declared.answer.Given.{Given as GivenThere};
ghost use Rattle.capture.specs.Capture.{is_known, is_among, with_path};
ghost use Rattle.capture.specs.Files.{file_at, with_file, IsAscending};

use crate::answer::{Ask, Asked, Given, NoAnswer};
use crate::answers::Answers;
use crate::asking::{ask, copy_of_found, copy_of_given, fetch};
use crate::files::Files;
use crate::paths::Paths;
use prov_base::{Memory, Name, Pos};
use prov_outside::{ClockAndRandom, Console, Folder, Found};
use std::alloc::Global;
use std::marker::Model;

/// What the devices gave in a run: the answers, each under the place of the call and the number of the asking there; what
/// was found at each path; and the paths that were opened for writing. Contracts see the answers in the order in which they
/// were kept, the files by path, and the paths in order of first opening.
#[derive(Drop)]
pub struct Capture {
    answers: Answers,
    files: Files,
    written: Paths,
}

impl Model for Capture {
    ghost use Rattle.capture.specs.Capture.{CaptureView};

    ghost Value = { CaptureView };

    ghost view = { λ c. record { answers = c.answers.kept; files = c.files.kept; written = c.written } };
}

impl Capture {
    /// Nothing is kept. It takes no memory yet.
    pub fn new(alloc: Global) -> Result<Capture, Memory>
        ensures { IfOk result (λ capture. capture ≡ record { answers = []; files = []; written = [] }) }
    {
        Ok(Capture {
            answers: Answers::new(alloc),
            files: Files::new(alloc),
            written: Paths::new(alloc),
        })
    }

    /// Asks a device and keeps what it gave, under the place and the number behind the last one there, which it answers; a fault
    /// of the device is kept as `Failed`. After an `Err` nothing was asked: the capture is as before, so is what the devices
    /// tell, and no device has failed. It fails where memory runs out, or numbers do.
    pub fn ask_live<C: Console, M: ClockAndRandom>(
        &mut self,
        alloc: Global,
        what: Ask,
        at: Pos,
        console: &mut C,
        moments: &mut M,
    ) -> Result<u32, Memory>
        // What is kept is what the device gave. A count rises by one where Failed is kept, and stays in every other call.
        ensures kept { IfOk result (λ k. (given : GivenThere) × IsNext self.old.answers at k
            × (self.new.answers ≡ self.old.answers ++ record { at = at; k = k; what = what; given = given } ∷ [])
            × Fits what given × IsOneLine given
            × ForAsk what (Tells (M.told moments.old) (M.told moments.new) (AsksTime (Ok given)))
            (Tells (M.told moments.old) (M.told moments.new) (AsksWord (Ok given)))
            (Tells (C.told console.old) (C.told console.new) (AsksLine (Ok given)))
            × ForAsk what (M.time_faults moments.new ≡ faults_after (as_answer (Ok given)) (M.time_faults moments.old))
            (M.word_faults moments.new ≡ faults_after (as_answer (Ok given)) (M.word_faults moments.old))
            (C.in_faults console.new ≡ faults_after (as_answer (Ok given)) (C.in_faults console.old))) }
        ensures same { self.new ≡ record self.old { answers = self.new.answers } }
        ensures err { OnErr result (self.new ≡ self.old) }
        ensures err_told { OnErr result (Tells (M.told moments.old) (M.told moments.new) (λ before after. after ≡ before)
            × Tells (C.told console.old) (C.told console.new) (λ before after. after ≡ before)) }
        ensures err_cause { OnErr result ((M.time_faults moments.new ≡ M.time_faults moments.old)
            × (M.word_faults moments.new ≡ M.word_faults moments.old) × (C.in_faults console.new ≡ C.in_faults console.old)) }

        // Whatever it answers, the other counts stay, and so does the device that is not asked.
        ensures other_count { ForAsk what (M.word_faults moments.new ≡ M.word_faults moments.old)
            (M.time_faults moments.new ≡ M.time_faults moments.old) (C.out_faults console.new ≡ C.out_faults console.old) }
        ensures other_device { ForAsk what (console.new ≡ console.old) (console.new ≡ console.old) (moments.new ≡ moments.old) }
    {
        let Some(k) = self.answers.last_at(at).checked_add(1) else {
            return Err(Memory);
        };
        self.answers.reserve()?;
        let given = ask(alloc, what, console, moments)?;
        self.answers.push(Asked { at, k, what, given });
        Ok(k)
    }

    /// What was given to the question that was asked at a place for the k-th time. `NoAnswer` exactly where nothing of that
    /// kind is kept there.
    pub fn ask_kept(&self, what: Ask, at: Pos, k: u32) -> Result<&Given, NoAnswer>
        ensures { MatchResult result (λ given. given_at self.now.answers what at k ≡ Some given.now) (λ _. given_at self.now.answers what at k ≡ None) }
    {
        match self.answers.find(at, k) {
            Some(asked) if asked.what == what => Ok(&asked.given),
            _ => Err(NoAnswer),
        }
    }

    /// A copy of what was given to the question that was asked at a place for the k-th time; none exactly where nothing of that
    /// kind is kept there. It takes memory for a line alone.
    pub fn copy_kept(
        &self,
        alloc: Global,
        what: Ask,
        at: Pos,
        k: u32,
    ) -> Result<Option<Given>, Memory>
        ensures { IfOk result (λ given. given ≡ given_at self.now.answers what at k) }
    {
        match self.ask_kept(what, at, k) {
            Ok(given) => Ok(Some(copy_of_given(alloc, given)?)),
            Err(_) => Ok(None),
        }
    }

    /// The number of the last answer that is kept at a place, or 0 where none is. The next asking there has the next number.
    pub fn last_number(&self, at: Pos) -> u32
        ensures { IsLast self.now.answers at result }
    {
        self.answers.last_at(at)
    }

    /// Fetches what stands at a path and keeps it; a fault of the folder is kept as `Failed`. Where something is kept there
    /// already, or the path was noted as written, nothing is fetched and all stays. After an `Err` the capture is as before.
    pub fn touch_live<F: Folder>(
        &mut self,
        alloc: Global,
        path: &str,
        folder: &mut F,
    ) -> Result<(), Memory>
        ensures known { IsTrue (is_known self.old path.now) → IsOk result × (self.new ≡ self.old) × (folder.new ≡ folder.old) }
        ensures kept { is_known self.old path.now ≡ false → OnOk result ((found : FoundThere) × (self.new.files ≡ with_file path.now found self.old.files)
            × Tells (F.told folder.old) (F.told folder.new) (Gets path.now (as_fetch (Ok found)))
            × (F.get_faults folder.new ≡ faults_after (as_fetch (Ok found)) (F.get_faults folder.old)) × IfOk (as_fetch (Ok found)) IsAnswer) }
        ensures same { self.new ≡ record self.old { files = self.new.files } }
        ensures err { OnErr result (self.new ≡ self.old) }

        // Where memory runs out the folder gave nothing. Only its count of refused `get` can rise.
        ensures err_told { OnErr result (Tells (F.told folder.old) (F.told folder.new) (λ before after. after ≡ before)) }
        ensures err_cause { OnErr result (F.get_faults folder.new ≡ F.get_faults folder.old) }
        ensures source_faults { F.source_faults folder.new ≡ F.source_faults folder.old }
        ensures put_faults { F.put_faults folder.new ≡ F.put_faults folder.old }
    {
        if self.knows(path) {
            return Ok(());
        }
        let name = self.files.reserve(alloc, path)?;
        let found = fetch(alloc, path, folder)?;
        self.files.put(name, found);
        Ok(())
    }

    // Whether what stands at a path is kept, or the path was noted as written.
    fn knows(&self, path: &str) -> bool
        ensures { result ≡ is_known self.now path.now }
    {
        self.files.find(path).is_some() || self.written.contains(path)
    }

    /// What was found at a path. `NoAnswer` exactly where nothing is kept there.
    pub fn touch_kept(&self, path: &str) -> Result<&Found, NoAnswer>
        ensures { MatchResult result (λ found. file_at self.now.files path.now ≡ Some found.now) (λ _. file_at self.now.files path.now ≡ None) }
    {
        match self.files.find(path) {
            Some(found) => Ok(found),
            None => Err(NoAnswer),
        }
    }

    /// Notes that a path was opened for writing. A path that is noted keeps its place in the order, and needs no memory.
    pub fn note_written(&mut self, alloc: Global, path: &str) -> Result<(), Memory>
        ensures noted { OnOk result (self.new.written ≡ with_path path.now self.old.written) }
        ensures known { IsTrue (is_among path.now self.old.written) → IsOk result }
        ensures same { self.new ≡ record self.old { written = self.new.written } }
        ensures err { OnErr result (self.new ≡ self.old) }
    {
        self.written.add(alloc, path)
    }

    /// The paths that were noted as written, in order of first opening.
    pub fn changed(&self) -> &[Name]
        ensures { result.now ≡ self.now.written }
    {
        self.written.as_slice()
    }

    /// The answers, in the order in which they were kept: after `put_in_order` that of their places and numbers.
    pub fn answers(&self) -> &[Asked]
        ensures answers { result.now ≡ self.now.answers }
        ensures once { AreOnce result.now }
    {
        self.answers.as_slice()
    }

    /// Puts the answers in ascending order of place and number. What is kept stays: the answers are the same in another
    /// order. After an `Err` all is as before.
    pub fn put_in_order(&mut self) -> Result<(), Memory>
        ensures ascending { OnOk result (AreInOrder self.new.answers) }
        ensures permuted { OnOk result (IsPermutation self.old.answers self.new.answers) }
        ensures found { OnOk result ((at : Place) (k : ℕ) → answer_at self.new.answers at k ≡ answer_at self.old.answers at k) }
        ensures same { self.new ≡ record self.old { answers = self.new.answers } }
        ensures err { OnErr result (self.new ≡ self.old) }
    {
        self.answers.sort()
    }

    /// What was found at each path, in ascending order of the paths' bytes.
    pub fn files(&self) -> &[(Name, Found)]
        ensures files { result.now ≡ self.now.files }
        ensures ascending { IsAscending result.now }
    {
        self.files.as_slice()
    }

    /// Keeps a copy of an answer under a place and a number where nothing is kept. After an `Err` all is as before.
    pub fn keep(
        &mut self,
        alloc: Global,
        at: Pos,
        k: u32,
        what: Ask,
        given: &Given,
    ) -> Result<(), Memory>
        requires absent { is_kept self.old.answers at k ≡ false }
        requires fits { Fits what given.now }
        ensures kept { OnOk result (self.new.answers ≡ self.old.answers ++ record { at = at; k = k; what = what; given = given.now } ∷ []) }
        ensures same { self.new ≡ record self.old { answers = self.new.answers } }
        ensures err { OnErr result (self.new ≡ self.old) }
    {
        self.answers.reserve()?;
        let given = copy_of_given(alloc, given)?;
        self.answers.push(Asked { at, k, what, given });
        Ok(())
    }

    /// Keeps a copy of what was found at a path where nothing is kept. After an `Err` all is as before.
    pub fn keep_file(&mut self, alloc: Global, path: &str, found: &Found) -> Result<(), Memory>
        requires { file_at self.old.files path.now ≡ None }
        ensures kept { OnOk result (self.new.files ≡ with_file path.now found.now self.old.files) }
        ensures same { self.new ≡ record self.old { files = self.new.files } }
        ensures err { OnErr result (self.new ≡ self.old) }
    {
        let name = self.files.reserve(alloc, path)?;
        let found = copy_of_found(alloc, found)?;
        self.files.put(name, found);
        Ok(())
    }
}
