// Rows that are answered, one after the other.
use crate::atom_rows::answer;
use crate::operator::Operator;
use prov_outside::{Console, Trouble};
use std::alloc::Global;

/// Answers every row of the input.
fn answer_rows<C: Console, O: Operator>(
    alloc: Global,
    console: &mut C,
    operator: &mut O,
) -> Result<(), Trouble> {
    for _ in 0..u64::MAX {
        let Some(row) = console.read_line(alloc)? else {
            return Ok(());
        };
        let mut out = Vec::new(alloc);
        if answer(alloc, operator, row.as_slice(), &mut out).is_err() {
            return Err(Trouble::Memory);
        }
        console.write(alloc, &out)?;
    }
    Ok(())
}

/// Answers every row of the input, and lets go what performed them.
pub(crate) fn answer_all<C: Console, O: Operator + Drop>(
    alloc: Global,
    console: &mut C,
    mut operator: O,
) -> Result<(), Trouble> {
    answer_rows(alloc, console, &mut operator)
}
