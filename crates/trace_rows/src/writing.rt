// Rows, written at the end of a buffer.
ghost use Rattle.std.specs.Prelude.{◌≡◌, ◌++◌, ◌∷◌, [], OnOk};
ghost use Rattle.row_words.specs.Bytes.{place_bytes, values_bytes};
ghost use Rattle.row_words.specs.AccessBytes.{accesses_bytes};
ghost use Rattle.trace_rows.specs.RowBytes.{row_bytes};

use crate::row::Row;
use crate::writing_outcomes::{how_byte, write_deed, write_outcome, write_touches};
use prov_base::{Memory, Pos};
use py_value::{Access, Value};
use row_words::{
    write_accesses, write_byte, write_numbered, write_place, write_placed, write_tagged,
    write_text, write_values,
};

#[tactic(auto, using(std::proofs::Common::append_assoc))]
fn write_places(out: &mut Vec<u8>, call: Pos, def: Pos) -> Result<(), Memory>
    ensures { OnOk result (out.new.items ≡ out.old.items ++ (5 ∷ place_bytes call ++ place_bytes def)) }
{
    write_placed(out, 5, call)?;
    write_place(out, def)
}

#[tactic(auto, using(std::proofs::Common::append_assoc))]
fn write_parameters(out: &mut Vec<u8>, values: &[Value], accesses: &[Access]) -> Result<(), Memory>
    ensures { OnOk result (out.new.items ≡ out.old.items ++ (values_bytes values.now ++ accesses_bytes accesses.now)) }
{
    write_values(out, values)?;
    write_accesses(out, accesses)
}

#[tactic(auto, using(std::proofs::Common::append_assoc))]
fn write_parts(out: &mut Vec<u8>, parts: &[Value]) -> Result<(), Memory>
    ensures { OnOk result (out.new.items ≡ out.old.items ++ (2 ∷ values_bytes parts.now)) }
{
    write_byte(out, 2)?;
    write_values(out, parts)
}

/// Writes a row.
#[tactic(auto, using(std::proofs::Common::append_assoc))]
pub(crate) fn write_row(out: &mut Vec<u8>, row: &Row) -> Result<(), Memory>
    ensures { OnOk result (out.new.items ≡ out.old.items ++ row_bytes row.now) }
{
    match row {
        Row::Text(text) => {
            write_byte(out, 1)?;
            write_text(out, text.as_str())
        }
        Row::Tuple(parts) => write_parts(out, parts.as_slice()),
        Row::Begin(statement) => write_numbered(out, 3, u64::from(*statement)),
        Row::Do(at, op, values, answer, made, accesses, weight) => {
            write_deed(out, 4, *at, *op)?;
            write_values(out, values.as_slice())?;
            write_outcome(out, *answer, *made)?;
            write_touches(out, accesses.as_slice(), *weight)
        }
        Row::Enter(call, def, values, accesses) => {
            write_places(out, *call, *def)?;
            write_parameters(out, values.as_slice(), accesses.as_slice())
        }
        Row::Leave(value) => write_tagged(out, 6, *value),
        Row::End(how) => {
            write_byte(out, 7)?;
            write_byte(out, how_byte(*how))
        }
    }
}
