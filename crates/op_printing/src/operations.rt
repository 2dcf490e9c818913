// The operations that print.
ghost use Rattle.std.specs.Prelude.{◌≡◌, ◌++◌, map, codes, List, ℕ, None};
ghost use Rattle.op_printing.specs.Inside.{blank_words};
ghost use Rattle.op_pieces.specs.Pieces.{ArePieces};
ghost use Rattle.op_printing.specs.Puts.{Puts};
ghost use Rattle.op_work.specs.Work.{Ends};
ghost use Rattle.py_model.specs.Operands.{of_one};
ghost use Rattle.py_model.specs.Plan.{Plan};
ghost use Rattle.py_model.specs.Printing.{printed as plan_printed, printed_all, repr_of, str_of, print_values as plan_values, print_line, answers_text, between};
ghost use Rattle.py_value.specs.Contents.{contents};
ghost use Rattle.py_value.specs.Values.{IsNamed, AreNamed};

use crate::walk::print_value;
use op_numbers::one;
use op_pieces::{Piece, push_word, put_pieces};
use op_work::{Stop, Work};
use py_model::Answer;
use py_value::Value;
use std::alloc::Global;

// How deep containers may lie in one another.
const DEEPEST: u32 = 100;

// The printed form of a value as pieces.
fn printed(
    work: &mut Work,
    alloc: Global,
    out: &mut Vec<Piece>,
    quoted: bool,
    v: Value,
) -> Result<(), Stop>
    requires pieces { ArePieces work.old.values out.old.items }
    requires named { IsNamed work.old.values v }
    ensures { Puts (λ table. plan_printed quoted (contents table v)) out.old.items out.new.items work.old work.new result }
{
    print_value(work, alloc, out, DEEPEST, quoted, &[], v)
}

// The text of a printed form.
fn answer(work: &mut Work, alloc: Global, quoted: bool, v: Value) -> Result<Answer, Stop>
    requires named { IsNamed work.old.values v }
    requires fresh { work.old.made ≡ None }
    ensures { Ends (λ table. plan_printed quoted (contents table v) answers_text) work.old work.new result }
{
    let mut pieces = Vec::new(alloc);
    printed(work, alloc, &mut pieces, quoted, v)?;
    let mut text = String::new(alloc);
    put_pieces(work, alloc, &mut text, pieces.as_slice())?;
    let made = work.text(alloc, text.as_str())?;
    Ok(Answer::Value(made))
}

/// `repr(v)` (66): the printed form of a value, in which a text is a literal.
pub fn repr(work: &mut Work, alloc: Global, operands: &[Value]) -> Result<Answer, Stop>
    requires named { AreNamed work.old.values operands.now }
    requires fresh { work.old.made ≡ None }
    ensures { Ends (λ table. of_one repr_of (map (contents table) operands.now)) work.old work.new result }
{
    let v = one(work, alloc, operands)?;
    answer(work, alloc, true, v)
}

/// `str(v)` (68): the printed form of a value, in which a text is itself.
pub fn str(work: &mut Work, alloc: Global, operands: &[Value]) -> Result<Answer, Stop>
    requires named { AreNamed work.old.values operands.now }
    requires fresh { work.old.made ≡ None }
    ensures { Ends (λ table. of_one str_of (map (contents table) operands.now)) work.old work.new result }
{
    let v = one(work, alloc, operands)?;
    answer(work, alloc, false, v)
}

// What stands before a text of a line, the first or another.
fn blank(first: bool) -> &'static str
    ensures { result.now ≡ blank_words first }
{
    if first { "" } else { " " }
}

// The texts of values, with blanks between.
fn print_all(
    work: &mut Work,
    alloc: Global,
    out: &mut Vec<Piece>,
    values: &[Value],
) -> Result<(), Stop>
    requires pieces { ArePieces work.old.values out.old.items }
    requires named { AreNamed work.old.values values.now }
    ensures { Puts (λ table (go : List ℕ → Plan). printed_all (map (contents table) values.now) (λ texts. go (between (codes " ") texts))) out.old.items out.new.items work.old work.new result }
{
    for i in 0..values.len() {
        push_word(out, blank(i == 0))?;
        printed(work, alloc, out, false, values[i])?;
    }
    Ok(())
}

/// `print(..)` (64): a line of the texts of values, with blanks between.
pub fn print(work: &mut Work, alloc: Global, operands: &[Value]) -> Result<Answer, Stop>
    requires named { AreNamed work.old.values operands.now }
    requires fresh { work.old.made ≡ None }
    ensures { Ends (λ table. plan_values (map (contents table) operands.now)) work.old work.new result }
{
    let mut pieces = Vec::new(alloc);
    print_all(work, alloc, &mut pieces, operands)?;
    push_word(&mut pieces, "\n")?;
    let mut text = String::new(alloc);
    put_pieces(work, alloc, &mut text, pieces.as_slice())?;
    work.print(text.as_bytes())?;
    Ok(Answer::Value(Value::None))
}
