// Pieces of a text that is printed. They hold no bytes of their own, so a text can be counted before it is built.
ghost use Rattle.std.specs.Prelude.{◌≡◌, ◌∷◌, ◌++◌, [], OnOk};
ghost use Rattle.op_pieces.specs.Pieces.{Adds};

use py_value::Value;
use std::alloc::AllocError;

/// A piece of a text that is printed.
#[derive(Clone, Copy)]
pub enum Piece {
    /// Words of the language.
    Word(&'static str),
    /// An integer.
    Number(i64),
    /// A range.
    Span(i64, i64, i64),
    /// The text with a number.
    Plain(u32),
    /// The text with a number, as a literal.
    Quoted(u32),
    /// A class of the language.
    Class(u64),
    /// A function or module of the language.
    Builtin(u64),
    /// A key of a dictionary.
    Key(Value),
}

/// A piece behind the others.
pub fn push(out: &mut Vec<Piece>, piece: Piece) -> Result<(), AllocError>
    ensures { OnOk result (out.new.items ≡ out.old.items ++ piece ∷ []) }
{
    out.push(piece)?;
    Ok(())
}

/// Words behind the others.
pub fn push_word(out: &mut Vec<Piece>, word: &'static str) -> Result<(), AllocError>
    ensures { OnOk result (Adds out.old.items out.new.items word.now) }
{
    push(out, Piece::Word(word))?;
    Ok(())
}
