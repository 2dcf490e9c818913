// What a script may ask of the devices, what they may give, and an answer as it is kept.
use prov_base::{Bytes, Pos};

/// What a script asks of a device.
#[derive(Clone, Copy, Debug, PartialEq, Eq)]
pub enum Ask {
    /// The time in nanoseconds since 1970 began.
    Time,
    /// 64 random bits.
    Word,
    /// The next line of the input.
    Line,
}

/// What was given to a question.
#[derive(Drop, Debug)]
pub enum Given {
    /// A time, in nanoseconds since 1970 began.
    Number(i64),
    /// 64 random bits.
    Word(u64),
    /// A line without its LF.
    Line(Bytes),
    /// No line was left.
    End,
    /// The device failed.
    Failed,
}

/// An answer that is kept. A capture has at most one under each place and number, so answers are told apart, and
/// ordered, by these alone.
#[derive(Drop)]
#[derive_where(PartialEq, Eq, PartialOrd, Ord, Hash)]
pub struct Asked {
    /// The place of the call.
    pub at: Pos,
    /// The number of the asking at that place, from 1.
    pub k: u32,
    /// What was asked.
    #[derive_where(skip(EqHashOrd))]
    pub what: Ask,
    /// What was given.
    #[derive_where(skip(EqHashOrd))]
    pub given: Given,
}

/// Nothing of that kind is kept there.
#[derive(Clone, Copy, Debug, PartialEq, Eq)]
pub struct NoAnswer;
