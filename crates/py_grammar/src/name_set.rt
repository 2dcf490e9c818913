// Names that are looked up by their bytes, so that a list of names is checked in the time of its length.
ghost use Rattle.std.specs.Prelude.{◌≡◌, [], OnOk, IfOk};
ghost use Rattle.py_grammar.specs.NameSets.{AddsName, Agrees};
ghost use Rattle.py_grammar.specs.WellPlaced.{is_in};

use indexmap::IndexSet;
use prov_base::Name;
use std::alloc::{AllocError, Global};
use std::marker::Model;

/// A set of names. Contracts see it as a list.
#[derive(Drop)]
pub(crate) struct NameSet {
    texts: IndexSet<String>,
}

impl Model for NameSet {
    ghost use Rattle.std.specs.Prelude.{List, ℕ, map};
    ghost use Rattle.std.specs.String.{string_bytes};

    ghost Value = { List (List ℕ) };

    ghost view = { λ s. map string_bytes s.texts.keys };
}

impl NameSet {
    /// No names.
    pub(crate) fn new(alloc: Global) -> NameSet
        ensures { result ≡ [] }
    {
        NameSet {
            texts: IndexSet::new(alloc),
        }
    }

    /// The name is one of these.
    pub(crate) fn contains(&self, name: &Name) -> bool
        ensures { result ≡ is_in name.now self.now }
    {
        self.texts.contains(name.as_str())
    }

    /// The name is added.
    pub(crate) fn add(&mut self, alloc: Global, name: &Name) -> Result<(), AllocError>
        ensures { OnOk result (AddsName self.old self.new name.now) }
    {
        let text = String::from_str(alloc, name.as_str())?;
        self.texts.insert(text)?;
        Ok(())
    }
}

/// The parameters of a function, in the suite of which no `global` line may name them. Contracts see the list of their names.
#[derive(Drop)]
pub struct Given<'a> {
    names: &'a [Name],
    lookup: NameSet,
}

impl<'a> Model for Given<'a> {
    ghost use Rattle.std.specs.Prelude.{List, ℕ};
    ghost use Rattle.py_grammar.specs.NameSets.{Agrees};

    ghost Value = { List (List ℕ) };

    ghost view = { λ g. g.names.now };

    ghost invariant = { λ g. Agrees g.lookup g.names.now };
}

impl<'a> Given<'a> {
    /// The parameters with these names. It fails only for lack of memory.
    pub fn of(alloc: Global, names: &'a [Name]) -> Result<Given<'a>, AllocError>
        ensures { IfOk result (λ given. given ≡ names.now) }
    {
        let lookup = set_of(alloc, names)?;
        Ok(Given { names, lookup })
    }

    /// No parameters.
    pub fn none(alloc: Global) -> Given<'a>
        ensures { result ≡ [] }
    {
        Given {
            names: &[],
            lookup: NameSet::new(alloc),
        }
    }

    /// The name is one of these.
    pub(crate) fn contains(&self, name: &Name) -> bool
        ensures { result ≡ is_in name.now self.now }
    {
        self.lookup.contains(name)
    }
}

/// The set of these names.
fn set_of(alloc: Global, names: &[Name]) -> Result<NameSet, AllocError>
    ensures { IfOk result (λ set. Agrees set names.now) }
{
    let mut set = NameSet::new(alloc);
    for name in names {
        set.add(alloc, name)?;
    }
    Ok(set)
}
