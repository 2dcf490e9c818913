// Places in a script's text, and the digest of a content.
ghost use Rattle.std.specs.Prelude.{◌≡◌};
ghost use Rattle.std.specs.Ordering.{nat_cmp, on, then_cmp};

/// A place in a text. Both numbers count from 1: the line, and the byte of the line.
/// Places are ordered by line and then by column, as they stand in the text.
#[derive(Clone, Copy, Debug, PartialEq, Eq, PartialOrd, Ord, Hash)]
pub struct Pos {
    pub line: u32,
    pub col: u32,
}

/// The law that places stand in the order of the text: by line, and on one line by column.
pub fn order_of_places()
    ensures { (a b : Pos) → ⟦<Pos as Ord>⟧.cmp a b ≡ then_cmp (on (λ p. p.line) nat_cmp) (on (λ p. p.col) nat_cmp) a b }
{}

/// The bytes of a text from `from`, counted from 0, up to and without `to`.
#[derive(Clone, Copy, Debug, PartialEq, Eq, Hash)]
pub struct Span {
    pub from: u32,
    pub to: u32,
}

/// The SHA-1 digest of a content (FIPS 180-4): 20 bytes.
#[derive(Clone, Copy, Debug, PartialEq, Eq, Hash)]
pub struct Digest {
    pub bytes: [u8; 20],
}
