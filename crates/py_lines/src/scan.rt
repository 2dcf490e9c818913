// A text read byte by byte.
ghost use Rattle.std.specs.Prelude.{◌≡◌, ◌↔◌, ◌≤◌, ◌<◌, ◌+◌, ◌⊎◌, ℕ, List, Some, None, Ok, Err, IfOk, length, take, drop, slice_index, MatchResult};
ghost use Rattle.py_lines.specs.declared.fault.LineFault.TheVariants.{Memory, BadToken, OpenBracket, NotUtf8, TooLarge};
ghost use Rattle.py_lines.specs.declared.parts.Line.{Line};
ghost use Rattle.py_lines.specs.Logical.{HasLines, IsNotUtf8};
ghost use Rattle.py_lines.specs.Faults.{IsBadTokenPlace, IsLeftOpenPlace};
ghost use Rattle.py_lines.specs.Reading as spec;
ghost use Rattle.py_lines.specs.Spelling.{IsReadText};
ghost use Rattle.py_lines.specs.Stepping.{IsReadInRange};
ghost use Rattle.std.specs.Str.{IsUtf8};

use crate::fault::LineFault;
use crate::grouping::Grouping;
use crate::mode::{Bad, End, Mode, Read, Step};
use crate::parts::Lines;
use crate::places::place_after;
use crate::step::{end, first_step, step};
use prov_base::Pos;
use std::alloc::Global;

/// What was read: whole pieces, and what is begun of the next one.
#[derive(Drop)]
struct Reader {
    grouping: Grouping,
    mode: Mode,
}

/// Whether a LF stands behind the byte at this offset.
fn line_feed_follows(text: &[u8], at: usize) -> bool
    requires { at ≤ length text.now }
    ensures { result ≡ spec.begins_with_line_feed (drop (at + 1) text.now) }
{
    text.get(at + 1) == Some(&b'\n')
}

impl Reader {
    /// What is begun before this offset.
    fn begun<'t>(&self, text: &'t [u8], at: usize) -> &'t [u8]
        requires start { self.now.grouping.at ≤ at }
        requires within { at ≤ length text.now }
        ensures { result.now ≡ spec.begun_of (take at text.now) self.now }
    {
        &text[self.grouping.at as usize..at]
    }

    /// The place of a token that is bad as the byte at this offset, or the end of the text, shows.
    fn bad_place(&self, text: &[u8], at: usize, bad: Bad) -> Pos
        requires ready { spec.IsReady at self.now }
        requires within { at ≤ length text.now }
        ensures { result ≡ spec.bad_place self.now (take at text.now) (drop (at + 1) text.now) bad }
    {
        if let Some(tab) = self.grouping.tab_before() {
            return tab;
        }
        let start = self.grouping.here;
        let begun = self.begun(text, at);
        match bad {
            Bad::Start => start,
            Bad::Here => place_after(start, begun),
            Bad::Back => place_after(start, &begun[..begun.len().saturating_sub(1)]),
            Bad::Return => {
                if line_feed_follows(text, at) {
                    start
                } else {
                    place_after(start, begun)
                }
            }
        }
    }

    fn follow(&mut self, alloc: Global, text: &[u8], at: usize, read: Read) -> Result<(), LineFault>
        requires ready { spec.IsReady at self.old }
        requires within { at < length text.now }
        requires range { IsReadInRange read }
        requires text { IsReadText read (spec.begun_of (take (at + 1) text.now) self.old) }
        ensures { MatchResult result
            (λ _. spec.after_read (take (at + 1) text.now) self.old read ≡ Some self.new)
            (λ fault. (fault ≡ Memory) ⊎ ((spec.after_read (take (at + 1) text.now) self.old read ≡ None)
            × (fault ≡ BadToken (spec.read_fault (take at text.now) (take (at + 1) text.now) (drop (at + 1) text.now) self.old read)))) }
    {
        match read {
            Read::Goes(mode) => self.mode = mode,
            Read::Ends(kind) => {
                let piece = self.begun(text, at + 1);
                self.grouping.take(alloc, kind, piece)?;
                self.mode = Mode::Between;
            }
            Read::Bad(bad) => return Err(LineFault::BadToken(self.bad_place(text, at, bad))),
        }
        Ok(())
    }

    /// Reads the byte at this offset.
    fn read(&mut self, alloc: Global, text: &[u8], at: usize) -> Result<(), LineFault>
        requires ready { spec.IsReady at self.old }
        requires within { at < length text.now }
        requires texts { spec.AreTexts text.now at self.old }
        ensures { MatchResult result
            (λ _. spec.after_byte (take at text.now) (take (at + 1) text.now) (slice_index text.now at) self.old ≡ Some self.new)
            (λ fault. (fault ≡ Memory) ⊎ ((spec.after_byte (take at text.now) (take (at + 1) text.now) (slice_index text.now at) self.old ≡ None)
            × (fault ≡ BadToken (spec.fault_place (take at text.now) (take (at + 1) text.now) (slice_index text.now at) (drop (at + 1) text.now) self.old)))) }
    {
        let begun = self.begun(text, at);
        let longer = self.begun(text, at + 1);
        match step(self.mode, begun, longer, text[at]) {
            Step::Reads(read) => self.follow(alloc, text, at, read),
            Step::Breaks(kind) => {
                self.grouping.take(alloc, kind, begun)?;
                self.mode = Mode::Between;
                self.follow(alloc, text, at, first_step(text[at]))
            }
        }
    }

    /// The lines of the text, at whose end reading is.
    fn finish(mut self, alloc: Global, text: &[u8]) -> Result<Lines, LineFault>
        requires ready { spec.IsReady (length text.now) self }
        requires last { spec.IsLastText text.now self }
        ensures { MatchResult result
            (λ lines. spec.ending text.now self ≡ spec.whole lines)
            (λ fault. spec.IsEndingFault (spec.ending text.now self) fault) }
    {
        let begun = self.begun(text, text.len());
        match end(self.mode, begun) {
            End::Whole => {}
            End::Last(kind) => self.grouping.take(alloc, kind, begun)?,
            End::Bad(bad) => {
                return Err(LineFault::BadToken(self.bad_place(text, text.len(), bad)));
            }
            End::Open => {
                if let Some(tab) = self.grouping.tab_before() {
                    return Err(LineFault::BadToken(tab));
                }
                let first = self.grouping.brackets.first().unwrap_or(self.grouping.here);
                return Err(LineFault::OpenBracket(first));
            }
        }
        self.grouping.finish(alloc)
    }
}

/// Reads a whole text.
fn scan(alloc: Global, text: &[u8]) -> Result<Lines, LineFault>
    requires short { length text.now ≤ 262144 }
    requires utf8 { IsUtf8 text.now }
    ensures { MatchResult result (spec.IsRead text.now) (spec.IsReadFault text.now) }
{
    let mut reader = Reader {
        grouping: Grouping::new(alloc),
        mode: Mode::Between,
    };
    for at in 0..text.len() {
        reader.read(alloc, text, at)?;
    }
    reader.finish(alloc, text)
}

/// The logical lines of a script's text: the lines with at least one token, each with the number of spaces before its
/// first token, its tokens with their places and values, and the bytes of the physical lines that it covers.
pub fn lines(alloc: Global, text: &[u8]) -> Result<Lines, LineFault>
    ensures too_large { (result ≡ Err TooLarge) ↔ (262144 < length text.now) }
    ensures not_utf8 { (at : Pos) → (result ≡ Err (NotUtf8 at)) ↔ IsNotUtf8 text.now at }
    ensures lines { IfOk result (HasLines text.now) }
    // Where the text has lines, no other answer is given but out of memory.
    ensures complete { (found : List Line) → HasLines text.now found → length text.now ≤ 262144
        → (result ≡ Ok found) ⊎ (result ≡ Err Memory) }
    ensures bad_token { (at : Pos) → result ≡ Err (BadToken at) → IsBadTokenPlace text.now at }
    ensures left_open { (at : Pos) → result ≡ Err (OpenBracket at) → IsLeftOpenPlace text.now at }
{
    if text.len() > 262144 {
        return Err(LineFault::TooLarge);
    }
    if let Err(error) = str::from_utf8(text) {
        let valid = &text[..error.valid_up_to()];
        let start = Pos { line: 1, col: 1 };
        return Err(LineFault::NotUtf8(place_after(start, valid)));
    }
    scan(alloc, text)
}

/// The law that at most one list of lines belongs to a text.
pub fn one_list_of_lines()
    ensures { (text : List ℕ) (a b : List Line) → HasLines text a → HasLines text b → a ≡ b }
{}

/// The law that a text has at most one fault: one place of a first bad token, or one of what is left open, and not both.
pub fn one_fault()
    ensures bad_token { (text : List ℕ) (a b : Pos) → IsBadTokenPlace text a → IsBadTokenPlace text b → a ≡ b }
    ensures left_open { (text : List ℕ) (a b : Pos) → IsLeftOpenPlace text a → IsLeftOpenPlace text b → a ≡ b }
    ensures one_kind { (text : List ℕ) (a b : Pos) → IsBadTokenPlace text a → IsLeftOpenPlace text b → ⊥ }
    // A text with lines has none.
    ensures no_lines { (text : List ℕ) (lines : List Line) (at : Pos) → HasLines text lines → IsBadTokenPlace text at ⊎ IsLeftOpenPlace text at → ⊥ }
{}
