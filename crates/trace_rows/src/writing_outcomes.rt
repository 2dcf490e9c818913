// Answers, endings and what an operation comes to, written at the end of a buffer.
ghost use Rattle.std.specs.Prelude.{◌≡◌, ◌++◌, ◌∷◌, [], OnOk};
ghost use Rattle.trace_rows.specs.PartBytes.{answer_bytes, how_byte as how_byte_of, deed_bytes, outcome_bytes, touches_bytes};

use prov_base::{Memory, Pos};
use py_model::{Answer, How};
use py_value::{Access, Kind};
use row_words::{
    write_accesses, write_byte, write_made, write_number, write_numbered, write_placed,
    write_tagged,
};

fn write_answer(out: &mut Vec<u8>, answer: Answer) -> Result<(), Memory>
    ensures { OnOk result (out.new.items ≡ out.old.items ++ answer_bytes answer) }
{
    match answer {
        Answer::Value(value) => write_tagged(out, 0, value),
        Answer::Raised(object) => write_numbered(out, 1, u64::from(object)),
        Answer::End => write_byte(out, 2),
    }
}

/// The byte of how a statement ended.
pub fn how_byte(how: How) -> u8
    ensures { result ≡ how_byte_of how }
{
    match how {
        How::Normal => 0,
        How::Break => 1,
        How::Continue => 2,
        How::Return => 3,
        How::Raise => 4,
    }
}

/// Writes a byte, and behind it where an operation is done and its number.
#[tactic(auto, using(std::proofs::Common::append_assoc))]
pub fn write_deed(out: &mut Vec<u8>, tag: u8, at: Pos, op: u8) -> Result<(), Memory>
    ensures { OnOk result (out.new.items ≡ out.old.items ++ (tag ∷ deed_bytes at op)) }
{
    write_placed(out, tag, at)?;
    write_byte(out, op)
}

/// Writes what an operation answers and makes.
#[tactic(auto, using(std::proofs::Common::append_assoc))]
pub fn write_outcome(out: &mut Vec<u8>, answer: Answer, made: Option<Kind>) -> Result<(), Memory>
    ensures { OnOk result (out.new.items ≡ out.old.items ++ outcome_bytes answer made) }
{
    write_answer(out, answer)?;
    write_made(out, made)
}

/// Writes the accesses of an operation, and its weight.
#[tactic(auto, using(std::proofs::Common::append_assoc))]
pub fn write_touches(out: &mut Vec<u8>, accesses: &[Access], weight: u32) -> Result<(), Memory>
    ensures { OnOk result (out.new.items ≡ out.old.items ++ touches_bytes accesses.now weight) }
{
    write_accesses(out, accesses)?;
    write_number(out, u64::from(weight))
}
