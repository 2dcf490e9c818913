// Whether what a row names is there, and whether its keys are keys.
ghost use Rattle.std.specs.Prelude.{◌≡◌, ◌+◌, IfOk};
ghost use Rattle.row_checks.specs.Heights.{is_low as is_low_in_table};
ghost use Rattle.row_checks.specs.RowTests.{names_answer as answer_is_named, names_row as row_is_named, has_keys as row_has_keys, with_own as with_its_own};

use crate::Counts;
use crate::heights::Height;
use crate::keys::accesses_have_keys;
use crate::numbers::{names_accesses, names_made, names_value, names_values};
use prov_base::Memory;
use py_model::Answer;
use trace_rows::Row;

fn names_answer(counts: Counts, answer: Answer) -> bool
    ensures { result ≡ answer_is_named counts answer }
{
    match answer {
        Answer::Value(v) => names_value(counts, v),
        Answer::Raised(object) => u64::from(object) < counts.objects,
        Answer::End => true,
    }
}

/// Whether each number in a row is below its count.
pub(crate) fn names_row(counts: Counts, row: &Row) -> bool
    ensures { result ≡ row_is_named counts row.now }
{
    match row {
        Row::Text(_) | Row::End(_) => true,
        Row::Tuple(parts) => names_values(counts, parts.as_slice()),
        Row::Begin(statement) => u64::from(*statement) < counts.statements,
        Row::Do(_, _, values, answer, made, accesses, _) => {
            names_values(counts, values.as_slice())
                && names_answer(counts, *answer)
                && names_made(counts, *made)
                && names_accesses(counts, accesses.as_slice())
        }
        Row::Enter(_, _, values, accesses) => {
            names_values(counts, values.as_slice()) && names_accesses(counts, accesses.as_slice())
        }
        Row::Leave(v) => names_value(counts, *v),
    }
}

/// Whether each key in a row is a key.
pub(crate) fn has_keys(heights: &[Height], row: &Row) -> bool
    ensures { result ≡ row_has_keys (is_low_in_table heights.now) row.now }
{
    match row {
        Row::Do(_, _, _, _, _, accesses, _) | Row::Enter(_, _, _, accesses) => {
            accesses_have_keys(heights, accesses.as_slice())
        }
        Row::Text(_) | Row::Tuple(_) | Row::Begin(_) | Row::Leave(_) | Row::End(_) => true,
    }
}

fn one_more(count: u64) -> Result<u64, Memory>
    ensures { IfOk result (λ more. more ≡ count + 1) }
{
    match count.checked_add(1) {
        Some(more) => Ok(more),
        None => Err(Memory),
    }
}

/// The counts with the object that a row makes, or the activation that it enters.
pub(crate) fn with_own(counts: Counts, row: &Row) -> Result<Counts, Memory>
    ensures { IfOk result (λ own. own ≡ with_its_own row.now counts) }
{
    match row {
        Row::Do(_, _, _, _, Some(_), _, _) => Ok(Counts {
            objects: one_more(counts.objects)?,
            ..counts
        }),
        Row::Enter(..) => Ok(Counts {
            scopes: one_more(counts.scopes)?,
            ..counts
        }),
        Row::Do(_, _, _, _, None, _, _)
        | Row::Text(_)
        | Row::Tuple(_)
        | Row::Begin(_)
        | Row::Leave(_)
        | Row::End(_) => Ok(counts),
    }
}
