// What a next byte means where a piece is begun.
ghost use Rattle.std.specs.Prelude.{◌≡◌, ◌≤◌, ◌<◌, ◌^◌, ◌+◌, ◌++◌, ◌∷◌, [], length};
ghost use Rattle.py_lines.specs.Stepping as spec;

use crate::bytes::{begins_name, is_digit, is_escape, is_name_byte};
use crate::mode::{Bad, End, Kind, Mode, Quote, Read, Shape, Step};
use crate::tables::find_sign;

/// The greatest integer: signed, of 64 bits.
const GREATEST: u64 = 9223372036854775807;

/// Whether a sign begins with the byte, or the byte is `!`.
fn begins_sign(byte: u8) -> bool
    ensures { result ≡ spec.begins_sign byte }
{
    byte == b'!' || find_sign(&[byte]).is_some()
}

/// The first byte of a piece.
pub fn first_step(byte: u8) -> Read
    ensures read { result ≡ spec.first_step byte }
    ensures range { spec.IsReadInRange result }
{
    if byte == b' ' || byte == b'\t' {
        Read::Ends(Kind::Blank)
    } else if byte == b'\n' {
        Read::Ends(Kind::LineEnd)
    } else if byte == b'\r' {
        Read::Goes(Mode::Return)
    } else if byte == b'#' {
        Read::Goes(Mode::Comment)
    } else if byte == b'\'' || byte == b'"' {
        Read::Goes(Mode::OneQuote(byte))
    } else if begins_name(byte) {
        Read::Goes(Mode::Word)
    } else if is_digit(byte) {
        Read::Goes(Mode::Number(u64::from(byte - 48)))
    } else if begins_sign(byte) {
        Read::Goes(Mode::Sign)
    } else {
        Read::Bad(Bad::Here)
    }
}

fn number_step(value: u64, byte: u8) -> Step
    requires { value ≤ 9223372036854775807 }
    ensures step { result ≡ spec.number_step value byte }
    ensures range { spec.IsStepInRange result }
{
    if is_digit(byte) {
        let digit = u64::from(byte - 48);
        if value == 0 {
            Step::Reads(Read::Bad(Bad::Here))
        } else if value > (GREATEST - digit) / 10 {
            Step::Reads(Read::Bad(Bad::Start))
        } else {
            Step::Reads(Read::Goes(Mode::Number(10 * value + digit)))
        }
    } else if begins_name(byte) || byte == b'.' {
        Step::Reads(Read::Bad(Bad::Here))
    } else {
        Step::Breaks(Kind::Token(Shape::Number(value)))
    }
}

/// The sign is these bytes so far, and `longer` has the next byte too.
fn sign_step(bytes: &[u8], longer: &[u8]) -> Step
    ensures step { result ≡ spec.sign_step bytes.now longer.now }
    ensures range { spec.IsStepInRange result }
{
    if find_sign(longer).is_some() {
        return Step::Reads(Read::Goes(Mode::Sign));
    }
    match find_sign(bytes) {
        Some(sign) => Step::Breaks(Kind::Token(Shape::Sign(sign))),
        None => Step::Reads(Read::Bad(Bad::Start)),
    }
}

fn inside_step(quote: Quote, quotes: u8, byte: u8) -> Read
    ensures read { result ≡ spec.inside_step quote quotes byte }
    ensures range { spec.IsReadInRange result }
{
    if byte == quote.mark {
        if !quote.triple || quotes >= 2 {
            Read::Ends(Kind::Token(Shape::Text(quote)))
        } else {
            Read::Goes(Mode::Inside(quote, quotes + 1))
        }
    } else if byte == b'\\' {
        Read::Goes(Mode::Escape(quote))
    } else if byte == b'\r' {
        if quote.triple {
            Read::Goes(Mode::InsideReturn(quote.mark))
        } else {
            Read::Bad(Bad::Return)
        }
    } else if byte == b'\n' && !quote.triple {
        Read::Bad(Bad::Start)
    } else {
        Read::Goes(Mode::Inside(quote, 0))
    }
}

/// What the next byte means behind the bytes of a piece. `longer` is these bytes and the next one.
pub fn step(mode: Mode, bytes: &[u8], longer: &[u8], byte: u8) -> Step
    requires { spec.IsInRange mode }
    ensures step { result ≡ spec.step mode bytes.now longer.now byte }
    ensures range { spec.IsStepInRange result }
{
    match mode {
        Mode::Between => Step::Reads(first_step(byte)),
        Mode::Word => {
            if is_name_byte(byte) {
                Step::Reads(Read::Goes(Mode::Word))
            } else {
                Step::Breaks(Kind::Token(Shape::Word))
            }
        }
        Mode::Number(value) => number_step(value, byte),
        Mode::Sign => sign_step(bytes, longer),
        Mode::Return => {
            if byte == b'\n' {
                Step::Reads(Read::Ends(Kind::LineEnd))
            } else {
                Step::Reads(Read::Bad(Bad::Start))
            }
        }
        Mode::Comment => {
            if byte == b'\n' || byte == b'\r' {
                Step::Breaks(Kind::Comment)
            } else {
                Step::Reads(Read::Goes(Mode::Comment))
            }
        }
        Mode::OneQuote(mark) => {
            if byte == mark {
                Step::Reads(Read::Goes(Mode::TwoQuotes(mark)))
            } else {
                let quote = Quote {
                    mark,
                    triple: false,
                };
                Step::Reads(inside_step(quote, 0, byte))
            }
        }
        Mode::TwoQuotes(mark) => {
            if byte == mark {
                Step::Reads(Read::Goes(Mode::Inside(Quote { mark, triple: true }, 0)))
            } else {
                Step::Breaks(Kind::Token(Shape::Text(Quote {
                    mark,
                    triple: false,
                })))
            }
        }
        Mode::Inside(quote, quotes) => Step::Reads(inside_step(quote, quotes, byte)),
        Mode::Escape(quote) => {
            if is_escape(byte) {
                Step::Reads(Read::Goes(Mode::Inside(quote, 0)))
            } else {
                Step::Reads(Read::Bad(Bad::Start))
            }
        }
        Mode::InsideReturn(mark) => {
            if byte == b'\n' {
                Step::Reads(Read::Goes(Mode::Inside(Quote { mark, triple: true }, 0)))
            } else {
                Step::Reads(Read::Bad(Bad::Back))
            }
        }
    }
}

/// What the end of the text means behind the bytes of a piece.
pub fn end(mode: Mode, bytes: &[u8]) -> End
    requires { spec.IsInRange mode }
    ensures end { result ≡ spec.end mode bytes.now }
    ensures range { spec.IsEndInRange result }
{
    match mode {
        Mode::Between => End::Whole,
        Mode::Word => End::Last(Kind::Token(Shape::Word)),
        Mode::Number(value) => End::Last(Kind::Token(Shape::Number(value))),
        Mode::Sign => match find_sign(bytes) {
            Some(sign) => End::Last(Kind::Token(Shape::Sign(sign))),
            None => End::Bad(Bad::Start),
        },
        Mode::Return => End::Bad(Bad::Start),
        Mode::Comment => End::Last(Kind::Comment),
        Mode::OneQuote(_) => End::Bad(Bad::Start),
        Mode::TwoQuotes(mark) => End::Last(Kind::Token(Shape::Text(Quote {
            mark,
            triple: false,
        }))),
        Mode::Inside(quote, _) | Mode::Escape(quote) => {
            if quote.triple {
                End::Open
            } else {
                End::Bad(Bad::Start)
            }
        }
        Mode::InsideReturn(_) => End::Bad(Bad::Back),
    }
}
