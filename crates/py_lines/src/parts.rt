// Logical lines and their tokens.
ghost use Rattle.std.specs.Prelude.{◌≡◌, ◌++◌, [], ◌∷◌, OnOk};

use prov_base::{Name, Pos, Span};
use std::alloc::AllocError;
use std::marker::Model;

/// What a token is. Keywords and signs are numbered from 0, in the order of the tables in `specs/Piece.antt`.
#[derive(Drop, Debug)]
pub enum TokenKind {
    /// A name that is no keyword.
    Word(Name),
    /// A keyword's number.
    Keyword(u8),
    /// An integer, from 0 to 9223372036854775807.
    Number(i64),
    /// A text literal's value.
    Text(Name),
    /// A sign's number.
    Sign(u8),
}

/// A token with its place and its bytes.
#[derive(Drop, Debug)]
pub struct Token {
    pub at: Pos,
    pub span: Span,
    pub kind: TokenKind,
}

/// The tokens of a line.
#[derive(Drop, Debug)]
pub struct Tokens {
    tokens: Vec<Token>,
}

impl Model for Tokens {
    ghost use Rattle.std.specs.Prelude.{List};
    ghost use Rattle.py_lines.specs.declared.parts.Token.{Token};

    ghost Value = { List Token };

    ghost view = { λ t. t.tokens.items };
}

impl Tokens {
    /// The tokens of a vector, which is not copied.
    pub fn of(v: Vec<Token>) -> Tokens
        ensures { result ≡ v.items }
    {
        Tokens { tokens: v }
    }

    /// The tokens, in order.
    pub fn as_slice(&self) -> &[Token]
        ensures { result.now ≡ self.now }
    {
        self.tokens.as_slice()
    }

    /// One more at the end.
    pub(crate) fn push(&mut self, token: Token) -> Result<(), AllocError>
        ensures { OnOk result (self.new ≡ self.old ++ token ∷ []) }
    {
        self.tokens.push(token)?;
        Ok(())
    }
}

/// A logical line.
#[derive(Drop, Debug)]
pub struct Line {
    /// The number of spaces before its first token.
    pub indent: u32,
    pub tokens: Tokens,
    /// The physical lines that it covers, without the last one's line end.
    pub span: Span,
}

/// The logical lines of a text.
#[derive(Drop, Debug)]
pub struct Lines {
    lines: Vec<Line>,
}

impl Model for Lines {
    ghost use Rattle.std.specs.Prelude.{List};
    ghost use Rattle.py_lines.specs.declared.parts.Line.{Line};

    ghost Value = { List Line };

    ghost view = { λ l. l.lines.items };
}

impl Lines {
    /// The lines of a vector, which is not copied.
    pub fn of(v: Vec<Line>) -> Lines
        ensures { result ≡ v.items }
    {
        Lines { lines: v }
    }

    /// The lines, in order.
    pub fn as_slice(&self) -> &[Line]
        ensures { result.now ≡ self.now }
    {
        self.lines.as_slice()
    }

    /// One more at the end.
    pub(crate) fn push(&mut self, line: Line) -> Result<(), AllocError>
        ensures { OnOk result (self.new ≡ self.old ++ line ∷ []) }
    {
        self.lines.push(line)?;
        Ok(())
    }
}
