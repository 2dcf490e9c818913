// Pieces gathered to tokens, and tokens to logical lines.
ghost use Rattle.std.specs.Prelude.{◌≡◌, ◌≤◌, ◌+◌, ◌<◌, ◌^◌, ◌⊎◌, Some, None, length, IfOk, OnOk, MatchResult, MatchOption, IsSomeAnd, IfErr};
ghost use Rattle.py_lines.specs.declared.fault.LineFault.TheVariants.{Memory, BadToken};
ghost use Rattle.py_lines.specs.Grouping as spec;
ghost use Rattle.py_lines.specs.Bracketing.{first_open};
ghost use Rattle.py_lines.specs.Reading.{ending_of, whole, IsEndingFault};
ghost use Rattle.py_lines.specs.Spelling.{IsKindText, IsShapeText};
ghost use Rattle.py_lines.specs.Stepping.{IsKindInRange, IsShapeInRange};

use crate::brackets::Brackets;
use crate::fault::LineFault;
use crate::literal::{literal_value, text_of};
use crate::mode::{Kind, Shape};
use crate::parts::{Line, Lines, Token, TokenKind, Tokens};
use crate::places::place_after;
use crate::tables::{find_keyword, number_of_keyword, number_of_sign};
use prov_base::{Pos, Span};
use std::alloc::Global;
use std::mem;

/// The lines so far, and what stands in the one that is not at its end.
#[derive(Drop)]
pub struct Grouping {
    /// The offset and the place of the next piece.
    pub at: u32,
    pub here: Pos,
    /// The offset at which the line begins.
    pub from: u32,
    /// The number of blanks before the first token, where the line has one.
    pub indent: u32,
    /// The first tab before anything but blanks.
    pub tab: Option<Pos>,
    /// The line has nothing but blanks so far.
    pub only_blanks: bool,
    pub tokens: Tokens,
    pub brackets: Brackets,
    pub lines: Lines,
}

/// What the token is that the piece spells.
fn token_kind(alloc: Global, shape: Shape, piece: &[u8]) -> Result<TokenKind, LineFault>
    requires range { IsShapeInRange shape }
    requires text { IsShapeText shape piece.now }
    ensures found { IfOk result (λ found. found ≡ spec.token_kind shape piece.now) }
    ensures memory { IfErr result (λ fault. fault ≡ Memory) }
{
    match shape {
        Shape::Word => match find_keyword(piece) {
            Some(keyword) => Ok(TokenKind::Keyword(number_of_keyword(keyword))),
            None => Ok(TokenKind::Word(text_of(Vec::from_slice(alloc, piece)?))),
        },
        Shape::Number(value) => Ok(TokenKind::Number(value as i64)),
        Shape::Sign(sign) => Ok(TokenKind::Sign(number_of_sign(sign))),
        Shape::Text(quote) => Ok(TokenKind::Text(literal_value(alloc, quote, piece)?)),
    }
}

impl Grouping {
    pub fn new(alloc: Global) -> Grouping
        ensures { result ≡ spec.nothing_read }
    {
        Grouping {
            at: 0,
            here: Pos { line: 1, col: 1 },
            from: 0,
            indent: 0,
            tab: None,
            only_blanks: true,
            tokens: Tokens::of(Vec::new(alloc)),
            brackets: Brackets::new(alloc),
            lines: Lines::of(Vec::new(alloc)),
        }
    }

    /// The first tab of a line that has only blanks so far.
    pub fn tab_before(&self) -> Option<Pos>
        ensures { result ≡ spec.tab_before self.now }
    {
        if self.only_blanks { self.tab } else { None }
    }

    fn take_blank(&mut self, piece: &[u8])
        ensures { self.new ≡ spec.with_blank self.old piece.now }
    {
        if self.only_blanks && self.tab.is_none() && piece == b"\t".as_slice() {
            self.tab = Some(self.here);
        }
    }

    /// Ends the line before the piece at `at`; the next one begins at the offset `next`.
    fn end_line(&mut self, alloc: Global, next: u32) -> Result<(), LineFault>
        ensures { MatchResult result (λ _. self.new ≡ spec.with_line_ended self.old next) (λ fault. fault ≡ Memory) }
    {
        let tokens = mem::replace(&mut self.tokens, Tokens::of(Vec::new(alloc)));
        if !tokens.as_slice().is_empty() {
            let span = Span {
                from: self.from,
                to: self.at,
            };
            let indent = self.indent;
            self.lines.push(Line {
                indent,
                tokens,
                span,
            })?;
        }
        self.from = next;
        self.indent = 0;
        self.tab = None;
        self.only_blanks = true;
        Ok(())
    }

    fn take_line_end(&mut self, alloc: Global, piece: &[u8]) -> Result<(), LineFault>
        requires { self.old.at + length piece.now < 2 ^ 32 }
        ensures { MatchResult result (λ _. self.new ≡ spec.with_line_end self.old piece.now) (λ fault. fault ≡ Memory) }
    {
        if !self.brackets.is_empty() {
            return Ok(());
        }
        self.end_line(alloc, self.at + piece.len() as u32)
    }

    /// A token stands at the next piece's place: a tab in its indentation is bad, and so is a stray bracket.
    fn check_token(&mut self, shape: Shape, piece: &[u8]) -> Result<(), LineFault>
        ensures { MatchResult result
            (λ _. (spec.token_fault self.old shape piece.now ≡ None) × (self.new ≡ spec.with_brackets self.old shape piece.now))
            (λ fault. (fault ≡ Memory) ⊎ IsSomeAnd (spec.token_fault self.old shape piece.now) (λ at. fault ≡ BadToken at)) }
    {
        if let Some(tab) = self.tab_before() {
            return Err(LineFault::BadToken(tab));
        }
        if let Shape::Sign(_) = shape {
            let fits = self.brackets.take(piece, self.here)?;
            if !fits {
                return Err(LineFault::BadToken(self.here));
            }
        }
        Ok(())
    }

    fn take_token(&mut self, alloc: Global, shape: Shape, piece: &[u8]) -> Result<(), LineFault>
        requires shape { IsShapeInRange shape }
        requires text { IsShapeText shape piece.now }
        requires room { self.old.at + length piece.now < 2 ^ 32 }
        ensures { MatchResult result
            (λ _. (spec.token_fault self.old shape piece.now ≡ None) × (self.new ≡ spec.with_token self.old shape piece.now))
            (λ fault. (fault ≡ Memory) ⊎ IsSomeAnd (spec.token_fault self.old shape piece.now) (λ at. fault ≡ BadToken at)) }
    {
        self.check_token(shape, piece)?;
        let kind = token_kind(alloc, shape, piece)?;
        let span = Span {
            from: self.at,
            to: self.at + piece.len() as u32,
        };
        let at = self.here;
        self.tokens.push(Token { at, span, kind })?;
        if self.only_blanks {
            self.indent = span.from.saturating_sub(self.from);
        }
        self.only_blanks = false;
        Ok(())
    }

    /// Takes the next piece of the text.
    pub fn take(&mut self, alloc: Global, kind: Kind, piece: &[u8]) -> Result<(), LineFault>
        requires kind { IsKindInRange kind }
        requires text { IsKindText kind piece.now }
        requires room { spec.HasRoom self.old (length piece.now) }
        ensures { MatchResult result
            (λ _. (spec.fault_at self.old kind piece.now ≡ None) × (self.new ≡ spec.with_piece self.old kind piece.now))
            (λ fault. (fault ≡ Memory) ⊎ IsSomeAnd (spec.fault_at self.old kind piece.now) (λ at. fault ≡ BadToken at)) }
    {
        match kind {
            Kind::Token(shape) => self.take_token(alloc, shape, piece)?,
            Kind::Blank => self.take_blank(piece),
            Kind::Comment => self.only_blanks = false,
            Kind::LineEnd => self.take_line_end(alloc, piece)?,
        }
        self.here = place_after(self.here, piece);
        self.at += piece.len() as u32;
        Ok(())
    }

    /// The lines of a text that ends here.
    pub fn finish(mut self, alloc: Global) -> Result<Lines, LineFault>
        ensures { MatchResult result
            (λ lines. ending_of self (first_open self.brackets) ≡ whole lines)
            (λ fault. IsEndingFault (ending_of self (first_open self.brackets)) fault) }
    {
        if let Some(first) = self.brackets.first() {
            return Err(LineFault::OpenBracket(first));
        }
        let at = self.at;
        self.end_line(alloc, at)?;
        Ok(self.lines)
    }
}
