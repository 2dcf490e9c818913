// Lists of row numbers, one for each number below a bound.
ghost use Rattle.std.specs.Prelude.{◌≡◌, ◌<◌, ◌==◌, ◌∷◌, ◌++◌, ℕ, [], length, IfOk, OnOk};
ghost use Rattle.row_moments.specs.IndexKnows.{list_at};
ghost use Rattle.row_moments.specs.RowOccurrences.{is_number, with_row};

use prov_base::Memory;
use std::alloc::Global;
use std::marker::Model;

/// Row numbers, in order.
#[derive(Drop)]
pub(crate) struct Numbers {
    numbers: Vec<u32>,
}

impl Model for Numbers {
    ghost use Rattle.std.specs.Prelude.{List, ℕ};

    ghost Value = { List ℕ };

    ghost view = { λ n. n.numbers.items };
}

impl Numbers {
    /// None.
    pub(crate) fn nothing(alloc: Global) -> Numbers
        ensures { result ≡ [] }
    {
        Numbers {
            numbers: Vec::new(alloc),
        }
    }

    // One more.
    fn add(&mut self, number: u32) -> Result<(), Memory>
        ensures { OnOk result (self.new ≡ self.old ++ number ∷ []) }
    {
        self.numbers.push(number)?;
        Ok(())
    }

    /// The row numbers.
    pub(crate) fn as_slice(&self) -> &[u32]
        ensures { result.now ≡ self.now }
    {
        self.numbers.as_slice()
    }
}

/// So many lists without a number.
pub(crate) fn no_lists(alloc: Global, count: u32) -> Result<Vec<Numbers>, Memory>
    ensures many { IfOk result (λ lists. length lists.items ≡ count) }
    ensures each { IfOk result (λ lists. (i : ℕ) → list_at lists.items i ≡ []) }
{
    let mut lists = Vec::new(alloc);
    'fill: for _ in 0..count {
        lists.push(Numbers::nothing(alloc))?;
    }
    Ok(lists)
}

/// Puts a number behind those of one list, if it is there.
pub(crate) fn add_to(lists: &mut Vec<Numbers>, i: u32, number: u32) -> Result<(), Memory>
    ensures many { OnOk result (length lists.new.items ≡ length lists.old.items) }
    ensures each { OnOk result ((j : ℕ) → j < length lists.old.items → list_at lists.new.items j ≡ with_row (i == j) number (list_at lists.old.items j)) }
{
    match lists.get_mut(i as usize) {
        Some(list) => list.add(number),
        None => Ok(()),
    }
}

/// Puts a number behind those of one list, if there is one.
pub(crate) fn add_to_some(
    lists: &mut Vec<Numbers>,
    i: Option<u32>,
    number: u32,
) -> Result<(), Memory>
    ensures many { OnOk result (length lists.new.items ≡ length lists.old.items) }
    ensures each { OnOk result ((j : ℕ) → j < length lists.old.items → list_at lists.new.items j ≡ with_row (is_number j i) number (list_at lists.old.items j)) }
{
    match i {
        Some(i) => add_to(lists, i, number),
        None => Ok(()),
    }
}

/// The numbers of one list. There are none where it is not there.
pub(crate) fn numbers_at(lists: &[Numbers], i: u32) -> &[u32]
    ensures { result.now ≡ list_at lists.now i }
{
    match lists.get(i as usize) {
        Some(list) => list.as_slice(),
        None => &[],
    }
}
