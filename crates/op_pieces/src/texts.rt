// The text that pieces are. It is counted as it grows, so no more is built than the steps pay for.
ghost use Rattle.std.specs.Prelude.{◌≡◌, ◌<◌, ◌++◌, length, codes, string_bytes, IfOk};
ghost use Rattle.op_pieces.specs.Counted.{Counted, word_bytes, leaf_bytes, keys_row};
ghost use Rattle.op_pieces.specs.Parts.{separator};
ghost use Rattle.op_lists.specs.Parts.{items_at};
ghost use Rattle.op_pieces.specs.Pieces.{IsPiece, ArePieces, piece_bytes, pieces_bytes};
ghost use Rattle.spelling.specs.Spelling.{end_words};
ghost use Rattle.op_work.specs.Work.{Extends};
ghost use Rattle.py_model.specs.Printing.{key_text as key_words, tuple_text, key_texts};
ghost use Rattle.py_value.specs.Contents.{contents};
ghost use Rattle.py_value.specs.Values.{ValuesView, IsNamed};

use crate::pieces::Piece;
use op_lists::part_at;
use op_texts::size;
use op_work::{Stop, Work};
use py_value::{Value, Values, tuples_are_their_parts};
use spelling::{
    angled, builtin_text, class_word, int_text, literal, range_text, truth_text, tuple_end,
};
use std::alloc::{AllocError, Global};

// How deep tuples may lie in one another in a key, which is one level less than containers may.
const DEEPEST_KEY: u32 = 100;

/// Words behind a text, counted first.
pub fn put_words(work: &mut Work, text: &mut String, words: &str) -> Result<(), Stop>
    ensures { Counted (λ table. words.now) (string_bytes text.old) (string_bytes text.new) work.old work.new result }
{
    work.count(size(words))?;
    text.push_str(words)?;
    Ok(())
}

// The words of a piece that is no key.
fn piece_words(values: &Values, alloc: Global, piece: Piece) -> Result<String, AllocError>
    requires { IsPiece values.now piece }
    ensures { IfOk result (λ made. (table : ValuesView) → Extends values.now table → word_bytes table piece ≡ string_bytes made) }
{
    match piece {
        Piece::Word(word) => String::from_str(alloc, word),
        Piece::Number(i) => int_text(alloc, i),
        Piece::Span(start, end, step) => range_text(alloc, start, end, step),
        Piece::Plain(id) => String::from_str(alloc, values.text_of(id)),
        Piece::Quoted(id) => literal(alloc, values.text_of(id)),
        Piece::Class(number) => angled(alloc, "class ", class_word(number)),
        Piece::Builtin(number) => builtin_text(alloc, number),
        Piece::Key(_) => String::from_str(alloc, "?"),
    }
}

// A piece that is no key.
fn put_word(work: &mut Work, alloc: Global, text: &mut String, piece: Piece) -> Result<(), Stop>
    requires { IsPiece work.old.values piece }
    ensures { Counted (λ table. word_bytes table piece) (string_bytes text.old) (string_bytes text.new) work.old work.new result }
{
    let words = piece_words(work.values(), alloc, piece)?;
    put_words(work, text, words.as_str())
}

// A key that is no tuple, as a piece.
fn leaf(v: Value) -> Piece
    ensures bytes { (table : ValuesView) → word_bytes table result ≡ leaf_bytes table v }
    ensures named { (values : ValuesView) → IsNamed values v → IsPiece values result }
{
    match v {
        Value::None => Piece::Word("None"),
        Value::Bool(b) => Piece::Word(truth_text(b)),
        Value::Int(i) => Piece::Number(i),
        Value::Text(id) => Piece::Quoted(id),
        _ => Piece::Word("?"),
    }
}

// A key. Tuples lie at most so many levels deep in one another; of a deeper one this would be out of memory.
#[cycle(key)]
fn put_key(
    work: &mut Work,
    alloc: Global,
    text: &mut String,
    levels: u32,
    v: Value,
) -> Result<(), Stop>
    requires { IsNamed work.old.values v }
    ensures { Counted (λ table. key_words (contents table v)) (string_bytes text.old) (string_bytes text.new) work.old work.new result }
{
    if levels == 0 {
        return Err(Stop::Memory);
    }
    tuples_are_their_parts();
    match v {
        Value::Tuple(id) => put_key_tuple(work, alloc, text, levels - 1, id),
        _ => put_word(work, alloc, text, leaf(v)),
    }
}

// A key that is a tuple.
#[cycle(key)]
fn put_key_tuple(
    work: &mut Work,
    alloc: Global,
    text: &mut String,
    levels: u32,
    id: u32,
) -> Result<(), Stop>
    requires { id < length work.old.values.tuples }
    ensures { Counted (λ table. codes "(" ++ (keys_row table id ++ end_words (length (items_at table id)))) (string_bytes text.old) (string_bytes text.new) work.old work.new result }
{
    let end = tuple_end(work.tuple_of(id).len());
    put_words(work, text, "(")?;
    put_key_parts(work, alloc, text, levels, id)?;
    put_words(work, text, end)
}

// What stands before an item.
fn comma(first: bool) -> &'static str
    ensures { result.now ≡ separator first }
{
    if first { "" } else { ", " }
}

// The parts of a key that is a tuple, with commas between.
#[cycle(key)]
fn put_key_parts(
    work: &mut Work,
    alloc: Global,
    text: &mut String,
    levels: u32,
    id: u32,
) -> Result<(), Stop>
    requires { id < length work.old.values.tuples }
    ensures { Counted (λ table. keys_row table id) (string_bytes text.old) (string_bytes text.new) work.old work.new result }
{
    for i in 0..work.tuple_of(id).len() {
        put_words(work, text, comma(i == 0))?;
        let v = part_at(work, id, i);
        put_key(work, alloc, text, levels, v)?;
    }
    Ok(())
}

// A piece.
fn put_piece(work: &mut Work, alloc: Global, text: &mut String, piece: Piece) -> Result<(), Stop>
    requires { IsPiece work.old.values piece }
    ensures { Counted (λ table. piece_bytes table piece) (string_bytes text.old) (string_bytes text.new) work.old work.new result }
{
    match piece {
        Piece::Key(v) => put_key(work, alloc, text, DEEPEST_KEY, v),
        _ => put_word(work, alloc, text, piece),
    }
}

/// Pieces.
pub fn put_pieces(
    work: &mut Work,
    alloc: Global,
    text: &mut String,
    pieces: &[Piece],
) -> Result<(), Stop>
    requires { ArePieces work.old.values pieces.now }
    ensures { Counted (λ table. pieces_bytes table pieces.now) (string_bytes text.old) (string_bytes text.new) work.old work.new result }
{
    for i in 0..pieces.len() {
        put_piece(work, alloc, text, pieces[i])?;
    }
    Ok(())
}
