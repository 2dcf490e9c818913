// Texts that are joined.
ghost use Rattle.std.specs.Prelude.{◌≡◌, ◌<◌, ◌++◌, map, length, List, ℕ, None, OnOk};
ghost use Rattle.op_pieces.specs.Joins.{before_text};
ghost use Rattle.op_pieces.specs.Pieces.{ArePieces, pieces_bytes};
ghost use Rattle.op_work.specs.Work.{Comes, Ends};
ghost use Rattle.py_model.specs.Plan.{Plan};
ghost use Rattle.py_model.specs.TextMethods.{texts_in, join_plan};
ghost use Rattle.py_model.specs.Texts.{joined_by};
ghost use Rattle.py_value.specs.Contents.{contents};
ghost use Rattle.py_value.specs.Seen.{bytes_of};
ghost use Rattle.py_value.specs.Values.{ValuesView, AreNamed};

use crate::pieces::{Piece, push};
use crate::texts::put_pieces;
use op_lists::walk_value;
use op_numbers::two;
use op_texts::text;
use op_work::{Stop, Work};
use py_model::Answer;
use py_value::Value;
use std::alloc::{AllocError, Global};

// A text behind others, or as the first.
fn push_text(out: &mut Vec<Piece>, first: bool, separator: u32, id: u32) -> Result<(), AllocError>
    ensures bytes { OnOk result ((table : ValuesView) → pieces_bytes table out.new.items
        ≡ (pieces_bytes table out.old.items ++ before_text first (bytes_of table separator)) ++ bytes_of table id) }
    ensures named { OnOk result ((values : ValuesView) → ArePieces values out.old.items → separator < length values.texts → id < length values.texts
        → ArePieces values out.new.items) }
{
    if first {
        push(out, Piece::Plain(id))?;
        return Ok(());
    }
    push(out, Piece::Plain(separator))?;
    push(out, Piece::Plain(id))?;
    Ok(())
}

// Items that are texts, with a text between them.
fn text_items(
    work: &mut Work,
    alloc: Global,
    separator: u32,
    items: &[Value],
) -> Result<Vec<Piece>, Stop>
    requires separator { separator < length work.old.values.texts }
    requires named { AreNamed work.old.values items.now }
    ensures { Comes (λ values pieces. ArePieces values pieces.items) (λ table pieces. pieces_bytes table pieces.items)
        (λ table (go : List ℕ → Plan). texts_in (map (contents table) items.now) (λ all. go (joined_by (bytes_of table separator) all))) work.old work.new result }
{
    let mut pieces = Vec::new(alloc);
    for i in 0..items.len() {
        let id = text(work, alloc, items[i])?;
        push_text(&mut pieces, i == 0, separator, id)?;
    }
    Ok(pieces)
}

/// `join` (95): the texts of a sequence, with the text between them.
pub fn join(work: &mut Work, alloc: Global, operands: &[Value]) -> Result<Answer, Stop>
    requires named { AreNamed work.old.values operands.now }
    requires fresh { work.old.made ≡ None }
    ensures { Ends (λ table. join_plan (map (contents table) operands.now)) work.old work.new result }
{
    let (v, w) = two(work, alloc, operands)?;
    let separator = text(work, alloc, v)?;
    let items = walk_value(work, alloc, w)?;
    let pieces = text_items(work, alloc, separator, items.as_slice())?;
    let mut joined = String::new(alloc);
    put_pieces(work, alloc, &mut joined, pieces.as_slice())?;
    let made = work.text(alloc, joined.as_str())?;
    Ok(Answer::Value(made))
}
