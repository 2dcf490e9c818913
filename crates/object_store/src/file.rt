// The content of one file of a run. It may be absent and have room already, for an append that comes.
ghost use Rattle.std.specs.Prelude.{◌≡◌, ◌≤◌, ◌+◌, max, [], ◌++◌, Some, None, OnOk, IfOk, length, unwrap_or};
ghost use Rattle.std.specs.Option.{option_copied};

use prov_base::Memory;
use std::alloc::Global;
use std::cmp::max;
use std::marker::Model;

/// A file. Contracts see its bytes, where it is there, and for how many more there is room.
#[derive(Drop)]
pub struct File {
    is_there: bool,
    bytes: Vec<u8>,
}

impl Model for File {
    ghost use Rattle.std.specs.Prelude.{◌-◌, vec_len, vec_capacity, Some, None, if◌then◌else◌};
    ghost use Rattle.object_store.specs.File.{FileView};

    ghost Value = { FileView };

    ghost view = { λ f. record { content = (if f.is_there then Some f.bytes.items else None); spare = vec_capacity f.bytes - vec_len f.bytes } };
}

impl File {
    /// An absent file with no room.
    pub fn absent(alloc: Global) -> File
        ensures content { result.content ≡ None }
        ensures spare { result.spare ≡ 0 }
    {
        File {
            is_there: false,
            bytes: Vec::new(alloc),
        }
    }

    /// A file with these bytes, and room for so many more.
    pub fn holding(alloc: Global, bytes: &[u8], room: usize) -> Result<File, Memory>
        ensures content { IfOk result (λ file. file.content ≡ Some bytes.now) }
        ensures room { IfOk result (λ file. room ≤ file.spare) }
    {
        let mut bytes = Vec::from_slice(alloc, bytes)?;
        bytes.reserve(room)?;
        Ok(File {
            is_there: true,
            bytes,
        })
    }

    /// The bytes, where it is there.
    pub fn content(&self) -> Option<&[u8]>
        ensures { option_copied result ≡ self.now.content }
    {
        if self.is_there {
            Some(self.bytes.as_slice())
        } else {
            None
        }
    }

    /// Makes it an empty file.
    pub fn empty(&mut self)
        ensures content { self.new.content ≡ Some [] }
        ensures spare { self.old.spare ≤ self.new.spare }
    {
        self.bytes.clear();
        self.is_there = true;
    }

    /// Puts bytes behind its own. One that is absent begins empty.
    pub fn append(&mut self, bytes: &[u8])
        requires { length bytes.now ≤ self.old.spare }
        ensures content { self.new.content ≡ Some (unwrap_or self.old.content [] ++ bytes.now) }
        ensures spare { self.old.spare ≤ self.new.spare + length bytes.now }
    {
        if !self.is_there {
            self.empty();
        }
        let _ = self.bytes.extend_from_slice(bytes);
    }

    /// For how many more bytes there is room.
    pub fn room(&self) -> usize
        ensures { result ≡ self.now.spare }
    {
        self.bytes.capacity() - self.bytes.len()
    }

    /// Makes room for so many more bytes, or for as many as there are, so that small appends take memory seldom.
    pub fn reserve(&mut self, count: usize) -> Result<(), Memory>
        ensures room { OnOk result (count ≤ self.new.spare) }
        ensures content { self.new.content ≡ self.old.content }
        ensures grows { self.old.spare ≤ self.new.spare }
        ensures few { self.new.spare ≤ max self.old.spare (max count (length (unwrap_or self.old.content []))) }
    {
        if count <= self.room() {
            return Ok(());
        }
        let more = if self.is_there {
            max(count, self.bytes.len())
        } else {
            count
        };
        self.bytes.reserve_exact(more)?;
        Ok(())
    }
}
