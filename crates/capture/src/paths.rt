// The paths that were opened for writing, with a look-up.
ghost use Rattle.std.specs.Prelude.{◌≡◌, ◌+◌, ◌≤◌, ◌++◌, ◌∷◌, [], false, map, vec_len, vec_capacity, IsOk, IsTrue, OnOk, OnErr};
ghost use Rattle.std.specs.String.{string_bytes};
ghost use Rattle.capture.specs.Capture.{is_among, with_path};

use indexmap::IndexSet;
use prov_base::{Memory, Name};
use std::alloc::Global;
use std::marker::Model;

/// Paths in the order in which they came, each once. Contracts see their list.
#[derive(Drop)]
pub(crate) struct Paths {
    names: Vec<Name>,
    texts: IndexSet<String>,
}

impl Model for Paths {
    ghost use Rattle.std.specs.Prelude.{◌≡◌, List, ℕ, map};
    ghost use Rattle.std.specs.String.{string_bytes};

    ghost Value = { List (List ℕ) };

    ghost view = { λ p. p.names.items };

    ghost invariant = { λ p. map string_bytes p.texts.keys ≡ p.names.items };
}

impl Paths {
    /// No paths.
    pub(crate) fn new(alloc: Global) -> Paths
        ensures { result ≡ [] }
    {
        Paths {
            names: Vec::new(alloc),
            texts: IndexSet::new(alloc),
        }
    }

    /// The paths, in the order in which they came.
    pub(crate) fn as_slice(&self) -> &[Name]
        ensures { result.now ≡ self.now }
    {
        self.names.as_slice()
    }

    /// Whether the path is one of these.
    pub(crate) fn contains(&self, path: &str) -> bool
        ensures { result ≡ is_among path.now self.now }
    {
        self.texts.contains(path)
    }

    /// Puts a path behind the others, if it is not there yet.
    pub(crate) fn add(&mut self, alloc: Global, path: &str) -> Result<(), Memory>
        ensures added { OnOk result (self.new ≡ with_path path.now self.old) }
        ensures known { IsTrue (is_among path.now self.old) → IsOk result }
        ensures err { OnErr result (self.new ≡ self.old) }
    {
        if self.contains(path) {
            return Ok(());
        }
        let name = Name::of(String::from_str(alloc, path)?);
        self.names.reserve(1)?;
        put_text(&mut self.texts, alloc, path)?;
        put_name(&mut self.names, name);
        Ok(())
    }
}

// Puts a text behind the others, where it is not there yet.
fn put_text(texts: &mut IndexSet<String>, alloc: Global, path: &str) -> Result<(), Memory>
    requires { is_among path.now (map string_bytes texts.old.keys) ≡ false }
    ensures put { OnOk result (map string_bytes texts.new.keys ≡ map string_bytes texts.old.keys ++ path.now ∷ []) }
    ensures err { OnErr result (texts.new.keys ≡ texts.old.keys) }
{
    let text = String::from_str(alloc, path)?;
    texts.insert(text)?;
    Ok(())
}

// Puts a name behind the others, for which there is room.
fn put_name(names: &mut Vec<Name>, name: Name)
    requires { vec_len names.old + 1 ≤ vec_capacity names.old }
    ensures { names.new.items ≡ names.old.items ++ name ∷ [] }
{
    let _ = names.push(name);
}
