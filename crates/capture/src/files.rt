// The files of a capture, in ascending order of their paths, so that a path is found by halves.
ghost use Rattle.std.specs.Prelude.{◌≡◌, ◌-◌, ◌<◌, ◌≤◌, [], length, vec_capacity, vec_len, OnOk, IfOk, IfErr, None, option_copied};
ghost use Rattle.std.specs.Cmp.Lexicographic.{slice_cmp};
ghost use Rattle.std.specs.List.{insert};
ghost use Rattle.std.specs.Ordering.{nat_cmp};
ghost use Rattle.capture.specs.Files.{file_at, with_file, IsAscending};
ghost use Rattle.capture.specs.FilesView.{IsPlaceOf, IsGapFor};

use prov_base::{Memory, Name};
use prov_outside::Found;
use std::alloc::Global;
use std::cmp::Ordering;
use std::marker::Model;

/// What was found at each path, in ascending order of the paths' bytes. Contracts see the list, and for how many more files
/// there is room.
#[derive(Drop)]
pub(crate) struct Files {
    kept: Vec<(Name, Found)>,
}

impl Model for Files {
    ghost use Rattle.std.specs.Prelude.{◌-◌, vec_capacity, vec_len};
    ghost use Rattle.capture.specs.Files.{IsAscending};
    ghost use Rattle.capture.specs.FilesView.{FilesView};

    ghost Value = { FilesView };

    ghost view = { λ f. record { kept = f.kept.items; room = vec_capacity f.kept - vec_len f.kept } };

    ghost invariant = { λ f. IsAscending f.kept.items };
}

impl Files {
    /// No files.
    pub(crate) fn new(alloc: Global) -> Files
        ensures { result.kept ≡ [] }
    {
        Files {
            kept: Vec::new(alloc),
        }
    }

    /// The files, in ascending order of their paths.
    pub(crate) fn as_slice(&self) -> &[(Name, Found)]
        ensures files { result.now ≡ self.now.kept }
        ensures ascending { IsAscending result.now }
    {
        self.kept.as_slice()
    }

    /// What was found at a path.
    pub(crate) fn find(&self, path: &str) -> Option<&Found>
        ensures { option_copied result ≡ file_at self.now.kept path.now }
    {
        match place_of(&self.kept, path) {
            Ok(place) => Some(&self.kept[place].1),
            Err(_) => None,
        }
    }

    /// Makes room for one more file, and its name.
    pub(crate) fn reserve(&mut self, alloc: Global, path: &str) -> Result<Name, Memory>
        ensures name { IfOk result (λ name. name ≡ path.now) }
        ensures kept { self.new.kept ≡ self.old.kept }
        ensures room { OnOk result (0 < self.new.room) }
    {
        let name = String::from_str(alloc, path)?;
        self.kept.reserve(1)?;
        Ok(Name::of(name))
    }

    /// Keeps what was found at a new path, for which there is room.
    pub(crate) fn put(&mut self, path: Name, found: Found)
        requires absent { file_at self.old.kept path ≡ None }
        requires room { 0 < self.old.room }
        ensures { self.new.kept ≡ with_file path found self.old.kept }
    {
        match place_of(&self.kept, path.as_str()) {
            Ok(_) => {}
            Err(gap) => insert_at(&mut self.kept, gap, (path, found)),
        }
    }
}

// Puts a file at a place, for which there is room.
fn insert_at(kept: &mut Vec<(Name, Found)>, gap: usize, file: (Name, Found))
    requires within { gap ≤ length kept.old.items }
    requires room { 0 < vec_capacity kept.old - vec_len kept.old }
    ensures { kept.new.items ≡ insert kept.old.items gap file }
{
    let _ = kept.insert(gap, file);
}

// Where the path stands, or where it would.
fn place_of(kept: &[(Name, Found)], path: &str) -> Result<usize, usize>
    requires { IsAscending kept.now }
    ensures found { IfOk result (IsPlaceOf kept.now path.now) }
    ensures absent { IfErr result (IsGapFor kept.now path.now) }
{
    kept.binary_search_by(|file| order_of(file, path))
}

// How the path of a file stands to another, byte by byte.
fn order_of(file: &(Name, Found), path: &str) -> Ordering
    ensures { result ≡ slice_cmp nat_cmp file.now.0 path.now }
{
    file.0.as_str().cmp(path)
}
