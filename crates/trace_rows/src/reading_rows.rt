// Rows, read.
ghost use Rattle.std.specs.Prelude.{◌≡◌};
ghost use Rattle.row_words.specs.Reading.{Gives};
ghost use Rattle.trace_rows.specs.declared.tags.RowTag.TheVariants.{Text as TextRow, Tuple as TupleRow, Begin as BeginRow, Do as DoRow, Enter as EnterRow, Leave as LeaveRow, End as EndRow};
ghost use Rattle.trace_rows.specs.RowReading.{row_behind as behind_row, row_at};

use crate::reading::{read_deed, read_how, read_outcome, read_touches};
use crate::row::Row;
use crate::tags::{RowTag, row_tag};
use py_model::Args;
use py_value::Accesses;
use row_words::{
    ReadFault, read_accesses, read_place, read_short, read_text, read_value, read_values,
};
use std::alloc::Global;

#[tactic(auto, unfolding(crate::specs::RowReading::row_behind))]
fn text_row(alloc: Global, rest: &[u8]) -> Result<(Row, &[u8]), ReadFault>
    ensures { Gives (λ x. (x.0, x.1.now)) result (behind_row TextRow rest.now) }
{
    let (text, rest) = read_text(alloc, rest)?;
    Ok((Row::Text(text), rest))
}

#[tactic(auto, unfolding(crate::specs::RowReading::row_behind))]
fn tuple_row(alloc: Global, rest: &[u8]) -> Result<(Row, &[u8]), ReadFault>
    ensures { Gives (λ x. (x.0, x.1.now)) result (behind_row TupleRow rest.now) }
{
    let (parts, rest) = read_values(alloc, rest)?;
    Ok((Row::Tuple(Args::of(parts)), rest))
}

#[tactic(auto, unfolding(crate::specs::RowReading::row_behind))]
fn begin_row(rest: &[u8]) -> Result<(Row, &[u8]), ReadFault>
    ensures { Gives (λ x. (x.0, x.1.now)) result (behind_row BeginRow rest.now) }
{
    let (statement, rest) = read_short(rest)?;
    Ok((Row::Begin(statement), rest))
}

#[tactic(auto, unfolding(crate::specs::RowReading::row_behind))]
fn do_row(alloc: Global, rest: &[u8]) -> Result<(Row, &[u8]), ReadFault>
    ensures { Gives (λ x. (x.0, x.1.now)) result (behind_row DoRow rest.now) }
{
    let ((at, op), rest) = read_deed(rest)?;
    let (values, rest) = read_values(alloc, rest)?;
    let ((answer, made), rest) = read_outcome(rest)?;
    let ((accesses, weight), rest) = read_touches(alloc, rest)?;
    let values = Args::of(values);
    let accesses = Accesses::of(accesses);
    Ok((
        Row::Do(at, op, values, answer, made, accesses, weight),
        rest,
    ))
}

#[tactic(auto, unfolding(crate::specs::RowReading::row_behind))]
fn enter_row(alloc: Global, rest: &[u8]) -> Result<(Row, &[u8]), ReadFault>
    ensures { Gives (λ x. (x.0, x.1.now)) result (behind_row EnterRow rest.now) }
{
    let (call, rest) = read_place(rest)?;
    let (def, rest) = read_place(rest)?;
    let (values, rest) = read_values(alloc, rest)?;
    let (accesses, rest) = read_accesses(alloc, rest)?;
    let values = Args::of(values);
    let accesses = Accesses::of(accesses);
    Ok((Row::Enter(call, def, values, accesses), rest))
}

#[tactic(auto, unfolding(crate::specs::RowReading::row_behind))]
fn leave_row(rest: &[u8]) -> Result<(Row, &[u8]), ReadFault>
    ensures { Gives (λ x. (x.0, x.1.now)) result (behind_row LeaveRow rest.now) }
{
    let (value, rest) = read_value(rest)?;
    Ok((Row::Leave(value), rest))
}

#[tactic(auto, unfolding(crate::specs::RowReading::row_behind))]
fn end_row(rest: &[u8]) -> Result<(Row, &[u8]), ReadFault>
    ensures { Gives (λ x. (x.0, x.1.now)) result (behind_row EndRow rest.now) }
{
    let (how, rest) = read_how(rest)?;
    Ok((Row::End(how), rest))
}

// The row of this form, of which the first byte was read.
fn row_behind(alloc: Global, tag: RowTag, rest: &[u8]) -> Result<(Row, &[u8]), ReadFault>
    ensures { Gives (λ x. (x.0, x.1.now)) result (behind_row tag rest.now) }
{
    match tag {
        RowTag::Text => text_row(alloc, rest),
        RowTag::Tuple => tuple_row(alloc, rest),
        RowTag::Begin => begin_row(rest),
        RowTag::Do => do_row(alloc, rest),
        RowTag::Enter => enter_row(alloc, rest),
        RowTag::Leave => leave_row(rest),
        RowTag::End => end_row(rest),
    }
}

/// The row at the front.
#[tactic(auto, unfolding(crate::specs::RowReading::row_at))]
pub(crate) fn read_row(alloc: Global, bytes: &[u8]) -> Result<(Row, &[u8]), ReadFault>
    ensures { Gives (λ x. (x.0, x.1.now)) result (row_at bytes.now) }
{
    let [b, rest @ ..] = bytes else {
        return Err(ReadFault::Bad);
    };
    match row_tag(*b) {
        None => Err(ReadFault::Bad),
        Some(tag) => row_behind(alloc, tag, rest),
    }
}
