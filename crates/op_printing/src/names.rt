// The names of functions and classes.
ghost use Rattle.op_pieces.specs.Pieces.{ArePieces};
ghost use Rattle.op_printing.specs.Puts.{Puts};
ghost use Rattle.py_model.specs.Printing.{noted_name as plan_noted, class_name as plan_class};
ghost use Rattle.py_value.specs.Contents.{contents};

use op_pieces::{Piece, push, push_word};
use op_work::{Stop, Work};
use prov_base::Pos;
use py_value::Value;
use spelling::class_word;

// The noted name of the function or class at a place.
pub(crate) fn push_noted(work: &Work, out: &mut Vec<Piece>, place: Pos) -> Result<(), Stop>
    requires { ArePieces work.now.values out.old.items }
    ensures { Puts (λ table. plan_noted place) out.old.items out.new.items work.now work.now result }
{
    match work.name(place) {
        Some(name) => {
            push(out, Piece::Plain(name))?;
            Ok(())
        },
        None => {
            push_word(out, "?")?;
            Ok(())
        },
    }
}

// The name of a class.
pub(crate) fn push_class(work: &Work, out: &mut Vec<Piece>, of: Value) -> Result<(), Stop>
    requires { ArePieces work.now.values out.old.items }
    ensures { Puts (λ table. plan_class (contents table of)) out.old.items out.new.items work.now work.now result }
{
    match of {
        Value::Class(place) => push_noted(work, out, place),
        Value::Exc(number) => {
            push_word(out, class_word(number))?;
            Ok(())
        },
        _ => {
            push_word(out, "?")?;
            Ok(())
        },
    }
}
