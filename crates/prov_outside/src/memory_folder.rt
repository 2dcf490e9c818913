// A folder in memory: pairs of a path and its bytes, of which the last one with a path stands.
ghost use Rattle.std.specs.Prelude.{◌≡◌, ◌↔◌, Some, IfOk, IfErr, IsErrOf, OnErr, option_copied};
ghost use Rattle.prov_outside.specs.Count.{Counts};
ghost use Rattle.prov_outside.specs.Folder.{IsAnswer, IsFound, Gets, Puts};
ghost use Rattle.prov_outside.specs.MemoryFolder.{last_of};
ghost use Rattle.prov_outside.specs.Numbering.{NextFails, after_call};

use crate::calls::Calls;
use crate::{Folder, Found, Trouble};
use prov_base::{Bytes, Name};
use std::alloc::Global;
use std::marker::Model;

// The bytes of the largest file that is fetched.
const LARGEST_FILE: usize = 16_777_216;

/// A folder in memory, which tells all that it holds. It numbers its calls from 1 in one order, whatever their kind; a
/// call fails, and raises its own count by one, exactly where its number is in a list that was given.
#[derive(Drop, Debug)]
pub struct MemoryFolder {
    files: Vec<(Name, Bytes)>,
    calls: Calls,
    get_faults: u64,
    source_faults: u64,
    put_faults: u64,
}

impl Model for MemoryFolder {
    ghost use Rattle.std.specs.Prelude.{◌^◌, ◌<◌};
    ghost use Rattle.prov_outside.specs.MemoryFolder.{MemoryFolderView};

    ghost Value = { MemoryFolderView };

    ghost view = { λ f. record {
      files = f.files.items;
      calls = f.calls;
      get_faults = f.get_faults;
      source_faults = f.source_faults;
      put_faults = f.put_faults;
    } };

    // Each count is in the range of its type, which the clauses `cause` say.
    ghost invariant = { λ f. (f.get_faults < 2 ^ 64) × (f.source_faults < 2 ^ 64) × (f.put_faults < 2 ^ 64) };
}

impl MemoryFolder {
    /// A folder with these files, at which the calls with the listed numbers fail. A later pair stands over an earlier
    /// one with the same path.
    pub fn of(files: Vec<(Name, Bytes)>, failing: Vec<u64>) -> MemoryFolder
        ensures files { result.files ≡ files.items }
        ensures calls { result.calls ≡ record { failing = failing.items; made = 0 } }
        ensures get_faults { result.get_faults ≡ 0 }
        ensures source_faults { result.source_faults ≡ 0 }
        ensures put_faults { result.put_faults ≡ 0 }
    {
        MemoryFolder {
            files,
            calls: Calls::of(failing),
            get_faults: 0,
            source_faults: 0,
            put_faults: 0,
        }
    }

    /// What stands at the path, of any length.
    pub fn bytes(&self, path: &str) -> Option<&[u8]>
        ensures { option_copied result ≡ last_of self.now.files path.now }
    {
        last_at(&self.files, path)
    }
}

// What the last pair with the path has.
fn last_at<'a>(files: &'a [(Name, Bytes)], path: &str) -> Option<&'a [u8]>
    ensures { option_copied result ≡ last_of files.now path.now }
{
    let mut found = None;
    for (name, content) in files {
        if name.as_str() == path {
            found = Some(content.as_slice());
        }
    }
    found
}

// A copy of what stands at a path, where it is not too large.
fn fetched(alloc: Global, content: Option<&[u8]>) -> Result<Found, Trouble>
    ensures answer { IfOk result IsAnswer }
    ensures found { IfOk result (IsFound (option_copied content.entry)) }
    ensures memory { IfErr result (λ trouble. trouble ≡ Trouble.Memory) }
{
    let Some(content) = content else {
        return Ok(Found::Absent);
    };
    if content.len() > LARGEST_FILE {
        return Ok(Found::TooLarge);
    }
    Ok(Found::Bytes(Bytes::of(Vec::from_slice(alloc, content)?)))
}

// The pair of a path and its bytes.
fn pair(alloc: Global, path: &str, bytes: &[u8]) -> Result<(Name, Bytes), Trouble>
    ensures ok { IfOk result (λ file. (file.0 ≡ path.now) × (file.1 ≡ bytes.now)) }
    ensures memory { IfErr result (λ trouble. trouble ≡ Trouble.Memory) }
{
    let name = String::from_str(alloc, path)?;
    let content = Vec::from_slice(alloc, bytes)?;
    Ok((Name::of(name), Bytes::of(content)))
}

impl Folder for MemoryFolder {
    ghost told = { λ f. Some (last_of f.files) };

    ghost get_faults = { λ f. f.get_faults };

    ghost source_faults = { λ f. f.source_faults };

    ghost put_faults = { λ f. f.put_faults };

    /// A copy of what stands at the path.
    fn get(&mut self, alloc: Global, path: &str) -> Result<Found, Trouble>
        ensures answer { IfOk result IsAnswer }
        ensures found { Gets path.now result (last_of self.old.files) (last_of self.new.files) }
        ensures cause { Counts self.old.get_faults self.new.get_faults result }
        ensures source_faults { self.new.source_faults ≡ self.old.source_faults }
        ensures put_faults { self.new.put_faults ≡ self.old.put_faults }
        ensures fails { IsErrOf result Trouble.Failed ↔ NextFails self.old.calls }
        ensures numbered { self.new.calls ≡ after_call self.old.calls }
    {
        if self.calls.next_fails() {
            self.get_faults = self.get_faults.saturating_add(1);
            return Err(Trouble::Failed);
        }
        fetched(alloc, last_at(&self.files, path))
    }

    /// As `get`, with a count of its own.
    fn get_source(&mut self, alloc: Global, path: &str) -> Result<Found, Trouble>
        ensures answer { IfOk result IsAnswer }
        ensures found { Gets path.now result (last_of self.old.files) (last_of self.new.files) }
        ensures cause { Counts self.old.source_faults self.new.source_faults result }
        ensures get_faults { self.new.get_faults ≡ self.old.get_faults }
        ensures put_faults { self.new.put_faults ≡ self.old.put_faults }
        ensures fails { IsErrOf result Trouble.Failed ↔ NextFails self.old.calls }
        ensures numbered { self.new.calls ≡ after_call self.old.calls }
    {
        if self.calls.next_fails() {
            self.source_faults = self.source_faults.saturating_add(1);
            return Err(Trouble::Failed);
        }
        fetched(alloc, last_at(&self.files, path))
    }

    /// Sets the file at the path. After an `Err`, of memory too, all files are as before.
    fn put(&mut self, alloc: Global, path: &str, bytes: &[u8]) -> Result<(), Trouble>
        ensures put { Puts path.now bytes.now result (last_of self.old.files) (last_of self.new.files) }
        ensures cause { Counts self.old.put_faults self.new.put_faults result }
        ensures get_faults { self.new.get_faults ≡ self.old.get_faults }
        ensures source_faults { self.new.source_faults ≡ self.old.source_faults }
        ensures fails { IsErrOf result Trouble.Failed ↔ NextFails self.old.calls }
        ensures numbered { self.new.calls ≡ after_call self.old.calls }
        ensures unchanged { OnErr result (self.new.files ≡ self.old.files) }
    {
        if self.calls.next_fails() {
            self.put_faults = self.put_faults.saturating_add(1);
            return Err(Trouble::Failed);
        }
        let file = pair(alloc, path, bytes)?;
        self.files.push(file)?;
        Ok(())
    }
}
