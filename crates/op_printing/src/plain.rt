// Values that are no tuples and no objects.
ghost use Rattle.std.specs.Prelude.{◌≡◌, ◌<◌, ◌++◌, length, codes, List, ℕ};
ghost use Rattle.op_printing.specs.Forms.{print_plain};
ghost use Rattle.op_pieces.specs.Pieces.{ArePieces, IsPiece, piece_bytes, one_piece};
ghost use Rattle.op_printing.specs.Puts.{Puts};
ghost use Rattle.py_model.specs.Plan.{Plan};
ghost use Rattle.py_model.specs.Printing.{noted_name as plan_noted, class_name as plan_class, angled as angled_text, literal as literal_text, quoted_or_not};
ghost use Rattle.py_value.specs.Contents.{contents};
ghost use Rattle.py_value.specs.Seen.{bytes_of};
ghost use Rattle.py_value.specs.Values.{ValuesView, IsNamed};

use crate::names::{push_class, push_noted};
use op_pieces::{Piece, push, push_word};
use op_work::{Stop, Work};
use prov_base::Pos;
use py_value::Value;
use spelling::truth_text;

// The noted name of a place in angles.
fn push_angled(
    work: &Work,
    out: &mut Vec<Piece>,
    what: &'static str,
    place: Pos,
) -> Result<(), Stop>
    requires { ArePieces work.now.values out.old.items }
    ensures { Puts (λ table (go : List ℕ → Plan). plan_noted place (λ name. go (angled_text what.now name))) out.old.items out.new.items work.now work.now result }
{
    push_word(out, "<")?;
    push_word(out, what)?;
    push_noted(work, out, place)?;
    push_word(out, ">")?;
    Ok(())
}

// A text, as its literal or as it is.
fn text_piece(quoted: bool, id: u32) -> Piece
    ensures bytes { (table : ValuesView) → piece_bytes table result ≡ quoted_or_not quoted (bytes_of table id) }
    ensures named { (values : ValuesView) → id < length values.texts → IsPiece values result }
{
    if quoted {
        Piece::Quoted(id)
    } else {
        Piece::Plain(id)
    }
}

// A value that is one piece.
fn plain_piece(quoted: bool, v: Value) -> Piece
    ensures bytes { (table : ValuesView) → piece_bytes table result ≡ one_piece table quoted v }
    ensures named { (values : ValuesView) → IsNamed values v → IsPiece values result }
{
    match v {
        Value::None => Piece::Word("None"),
        Value::Bool(b) => Piece::Word(truth_text(b)),
        Value::Int(i) => Piece::Number(i),
        Value::Text(id) => text_piece(quoted, id),
        Value::Range(start, end, step) => Piece::Span(start, end, step),
        Value::Exc(number) => Piece::Class(number),
        Value::Builtin(number) => Piece::Builtin(number),
        _ => Piece::Word("?"),
    }
}

// A value that is no tuple and no object.
pub(crate) fn push_plain(
    work: &Work,
    out: &mut Vec<Piece>,
    quoted: bool,
    v: Value,
) -> Result<(), Stop>
    requires pieces { ArePieces work.now.values out.old.items }
    requires named { IsNamed work.now.values v }
    ensures { Puts (λ table. print_plain quoted (contents table v)) out.old.items out.new.items work.now work.now result }
{
    match v {
        Value::Fn(place) => push_angled(work, out, "function ", place),
        Value::Class(place) => push_angled(work, out, "class ", place),
        _ => {
            push(out, plain_piece(quoted, v))?;
            Ok(())
        },
    }
}

// A file, by its path.
pub(crate) fn push_file(work: &Work, out: &mut Vec<Piece>, path: u32) -> Result<(), Stop>
    requires pieces { ArePieces work.now.values out.old.items }
    requires named { path < length work.now.values.texts }
    ensures { Puts (λ table (go : List ℕ → Plan). go (angled_text (codes "file ") (literal_text (bytes_of table path)))) out.old.items out.new.items work.now work.now result }
{
    let _ = work;
    push_word(out, "<file ")?;
    push(out, Piece::Quoted(path))?;
    push_word(out, ">")?;
    Ok(())
}

// The name of a class between words.
pub(crate) fn push_class_between(
    work: &Work,
    out: &mut Vec<Piece>,
    before: &'static str,
    of: Value,
    behind: &'static str,
) -> Result<(), Stop>
    requires { ArePieces work.now.values out.old.items }
    ensures { Puts (λ table (go : List ℕ → Plan). plan_class (contents table of) (λ name. go (before.now ++ (name ++ behind.now)))) out.old.items out.new.items work.now work.now result }
{
    push_word(out, before)?;
    push_class(work, out, of)?;
    push_word(out, behind)?;
    Ok(())
}
