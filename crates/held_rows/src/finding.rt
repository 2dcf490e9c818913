// The k-th evaluation at a place, among rows.
ghost use Rattle.std.specs.Prelude.{◌≡◌};
ghost use Rattle.py_model.specs.Occurrences.{evaluates as op_evaluates};
ghost use Rattle.slicer.specs.Finding.{given_at};
ghost use Rattle.held_rows.specs.Finding.{Finds};

use prov_base::Pos;
use py_model::Answer;
use py_value::Value;
use trace_rows::Row;

// Whether an operation with this number is an evaluation.
fn evaluates(op: u8) -> bool
    ensures { result ≡ op_evaluates op }
{
    (op < 28 && op != 3) || (op == 30 || ((50 <= op && op < 72) || (80 <= op && op < 112)))
}

// The value that a row gives, if it is an evaluation at a place.
fn given(row: &Row, at: Pos) -> Option<Value>
    ensures { result ≡ given_at at row.now }
{
    match row {
        Row::Do(place, op, _, Answer::Value(value), _, _, _) => {
            if *place == at && evaluates(*op) {
                Some(*value)
            } else {
                None
            }
        }
        Row::Do(_, _, _, Answer::Raised(_) | Answer::End, _, _, _)
        | Row::Text(_)
        | Row::Tuple(_)
        | Row::Begin(_)
        | Row::Enter(..)
        | Row::Leave(_)
        | Row::End(_) => None,
    }
}

/// The k-th evaluation at a place, counted from 1: how many rows there are up to it and with it, and its value. Each row is looked at once.
pub(crate) fn find_evaluation(rows: &[Row], at: Pos, k: u32) -> Option<(usize, Value)>
    ensures { Finds at k rows.now result }
{
    let mut seen: usize = 0;
    for (i, row) in rows.iter().enumerate() {
        let Some(value) = given(row, at) else {
            continue;
        };
        seen += 1;
        if seen == k as usize {
            return Some((i + 1, value));
        }
    }
    None
}
