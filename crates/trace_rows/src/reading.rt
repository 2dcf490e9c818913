// The parts of a row, read.
ghost use Rattle.std.specs.Prelude.{◌≡◌};
ghost use Rattle.row_words.specs.Reading.{Gives};
ghost use Rattle.trace_rows.specs.PartReading.{answer_behind as behind_answer, answer_at, how_at, op_at, deed_at, outcome_at, touches_at};

use crate::outcome_tags::{AnswerTag, answer_tag, how_tag, is_operation};
use prov_base::Pos;
use py_model::{Answer, How};
use py_value::{Access, Kind};
use row_words::{
    ReadFault, read_accesses, read_byte, read_made, read_place, read_short, read_value,
};
use std::alloc::Global;

// The answer of this form, of which the first byte was read.
#[tactic(auto, unfolding(crate::specs::PartReading::answer_behind))]
fn answer_behind(tag: AnswerTag, rest: &[u8]) -> Result<(Answer, &[u8]), ReadFault>
    ensures { Gives (λ x. (x.0, x.1.now)) result (behind_answer tag rest.now) }
{
    match tag {
        AnswerTag::Value => {
            let (value, rest) = read_value(rest)?;
            Ok((Answer::Value(value), rest))
        }
        AnswerTag::Raised => {
            let (object, rest) = read_short(rest)?;
            Ok((Answer::Raised(object), rest))
        }
        AnswerTag::End => Ok((Answer::End, rest)),
    }
}

#[tactic(auto, unfolding(crate::specs::PartReading::answer_at))]
fn read_answer(bytes: &[u8]) -> Result<(Answer, &[u8]), ReadFault>
    ensures { Gives (λ x. (x.0, x.1.now)) result (answer_at bytes.now) }
{
    let [b, rest @ ..] = bytes else {
        return Err(ReadFault::Bad);
    };
    match answer_tag(*b) {
        None => Err(ReadFault::Bad),
        Some(tag) => answer_behind(tag, rest),
    }
}

/// How a statement ended.
#[tactic(auto, unfolding(crate::specs::PartReading::how_at))]
pub fn read_how(bytes: &[u8]) -> Result<(How, &[u8]), ReadFault>
    ensures { Gives (λ x. (x.0, x.1.now)) result (how_at bytes.now) }
{
    let [b, rest @ ..] = bytes else {
        return Err(ReadFault::Bad);
    };
    match how_tag(*b) {
        None => Err(ReadFault::Bad),
        Some(how) => Ok((how, rest)),
    }
}

// The number of an operation.
#[tactic(auto, unfolding(crate::specs::PartReading::op_at))]
fn read_op(bytes: &[u8]) -> Result<(u8, &[u8]), ReadFault>
    ensures { Gives (λ x. (x.0, x.1.now)) result (op_at bytes.now) }
{
    let (op, rest) = read_byte(bytes)?;
    if !is_operation(op) {
        return Err(ReadFault::Bad);
    }
    Ok((op, rest))
}

/// Where an operation is done, and its number.
pub fn read_deed(bytes: &[u8]) -> Result<((Pos, u8), &[u8]), ReadFault>
    ensures { Gives (λ x. (x.0, x.1.now)) result (deed_at bytes.now) }
{
    let (at, rest) = read_place(bytes)?;
    let (op, rest) = read_op(rest)?;
    Ok(((at, op), rest))
}

/// What an operation answers and makes.
pub fn read_outcome(bytes: &[u8]) -> Result<((Answer, Option<Kind>), &[u8]), ReadFault>
    ensures { Gives (λ x. (x.0, x.1.now)) result (outcome_at bytes.now) }
{
    let (answer, rest) = read_answer(bytes)?;
    let (made, rest) = read_made(rest)?;
    Ok(((answer, made), rest))
}

/// The accesses of an operation, and its weight.
pub fn read_touches(alloc: Global, bytes: &[u8]) -> Result<((Vec<Access>, u32), &[u8]), ReadFault>
    ensures { Gives (λ x. ((x.0.0.items, x.0.1), x.1.now)) result (touches_at bytes.now) }
{
    let (accesses, rest) = read_accesses(alloc, bytes)?;
    let (weight, rest) = read_short(rest)?;
    Ok(((accesses, weight), rest))
}
