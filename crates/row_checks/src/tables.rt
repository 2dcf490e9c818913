// The texts and tuples of rows, each once, and how deep each tuple is as a key.
ghost use Rattle.std.specs.Prelude.{◌≡◌, ◌≤◌, length, IfOk, OnOk};
ghost use Rattle.py_value.specs.Values.{AreNamed};
ghost use Rattle.row_checks.specs.Heights.{AreHeights, AreHeightsIf};
ghost use Rattle.row_checks.specs.Adding.{IsAdded};

use crate::heights::{Height, height_over};
use prov_base::Memory;
use py_value::{Value, Values};
use std::alloc::Global;

/// Puts a text behind the texts, of which there are so many. False is the answer where an equal one is there.
pub(crate) fn add_text(
    alloc: Global,
    values: &mut Values,
    count: u64,
    s: &str,
) -> Result<bool, Memory>
    requires { count ≡ length values.old.texts }
    ensures added { IfOk result (IsAdded values.old.texts s.now values.new.texts) }
    ensures tuples { values.new.tuples ≡ values.old.tuples }
    ensures few { OnOk result (length values.new.texts ≤ 4294967296) }
{
    let number = values.text(alloc, s)?;
    Ok(u64::from(number) >= count)
}

/// Puts a tuple behind the tuples, of which there are so many, and its height behind the heights. False is the answer where an equal one
/// is there.
pub(crate) fn add_tuple(
    alloc: Global,
    values: &mut Values,
    heights: &mut Vec<Height>,
    count: u64,
    items: &[Value],
) -> Result<bool, Memory>
    requires count { count ≡ length values.old.tuples }
    requires named { AreNamed values.old items.now }
    requires heights { AreHeights values.old.tuples heights.old.items }
    ensures added { IfOk result (IsAdded values.old.tuples items.now values.new.tuples) }
    ensures heights { IfOk result (AreHeightsIf values.new.tuples heights.new.items) }
    ensures texts { values.new.texts ≡ values.old.texts }
    ensures few { OnOk result (length values.new.tuples ≤ 4294967296) }
{
    let number = values.tuple(alloc, items)?;
    if u64::from(number) < count {
        return Ok(false);
    }
    let height = height_over(heights.as_slice(), items);
    heights.push(height)?;
    Ok(true)
}
