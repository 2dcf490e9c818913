// Where reading stands in a piece of the text, and what a next byte means there.
use crate::tables::Sign;

/// The quotes on both sides of a text literal.
#[derive(Clone, Copy)]
pub struct Quote {
    /// `'` or `"`.
    pub mark: u8,
    /// Three of them.
    pub triple: bool,
}

/// What is begun of a piece.
#[derive(Clone, Copy)]
pub enum Mode {
    /// Nothing.
    Between,
    Word,
    /// Digits with this value.
    Number(u64),
    /// A sign, or a `!`.
    Sign,
    /// A CR.
    Return,
    Comment,
    /// One quote.
    OneQuote(u8),
    /// Two quotes: an empty literal, or the beginning of three.
    TwoQuotes(u8),
    /// A literal, at whose end so many of its own quotes stand.
    Inside(Quote, u8),
    /// A literal that ends with a backslash.
    Escape(Quote),
    /// A literal of three quotes that ends with a CR.
    InsideReturn(u8),
}

/// What a token is. A number has its value.
#[derive(Clone, Copy)]
pub enum Shape {
    Word,
    Number(u64),
    Sign(Sign),
    Text(Quote),
}

/// What a piece is.
#[derive(Clone, Copy)]
pub enum Kind {
    Token(Shape),
    /// A space or a tab.
    Blank,
    Comment,
    LineEnd,
}

/// Where a bad token stands.
#[derive(Clone, Copy)]
pub enum Bad {
    /// Where the piece begins.
    Start,
    /// At the next byte.
    Here,
    /// At the byte before it.
    Back,
    /// At the next byte, a CR, if no LF follows it, and else where the piece begins.
    Return,
}

/// What a byte means that belongs to the piece.
#[derive(Clone, Copy)]
pub enum Read {
    /// The piece may go on.
    Goes(Mode),
    /// It is the last of the piece.
    Ends(Kind),
    Bad(Bad),
}

/// What the next byte means.
#[derive(Clone, Copy)]
pub enum Step {
    Reads(Read),
    /// The piece has ended before it.
    Breaks(Kind),
}

/// What the end of the text means.
#[derive(Clone, Copy)]
pub enum End {
    /// Nothing is begun.
    Whole,
    /// The piece has ended.
    Last(Kind),
    Bad(Bad),
    /// A literal of three quotes is open.
    Open,
}
