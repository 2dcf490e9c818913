// The words of rows, written at the end of a buffer.
ghost use Rattle.std.specs.Prelude.{◌≡◌, ◌++◌, ◌∷◌, [], OnOk};
ghost use Rattle.row_words.specs.Bytes.{number_bytes, zigzag as zigzag_of, place_bytes, value_bytes, values_bytes, mode_byte as mode_byte_of, made_bytes};

use prov_base::{Memory, Pos};
use py_value::{Kind, Mode, Value};

/// Writes one byte.
pub fn write_byte(out: &mut Vec<u8>, b: u8) -> Result<(), Memory>
    ensures { OnOk result (out.new.items ≡ out.old.items ++ b ∷ []) }
{
    out.push(b)?;
    Ok(())
}

/// Writes a number.
pub fn write_number(out: &mut Vec<u8>, n: u64) -> Result<(), Memory>
    ensures { OnOk result (out.new.items ≡ out.old.items ++ number_bytes n) }
{
    let mut rest = n;
    while rest >= 128 {
        out.push(128 + (rest % 128) as u8)?;
        rest /= 128;
    }
    out.push(rest as u8)?;
    Ok(())
}

// The zigzag number of a signed number.
fn zigzag(i: i64) -> u64
    ensures { result ≡ zigzag_of i }
{
    if i >= 0 {
        i as u64 * 2
    } else {
        (-1 - i) as u64 * 2 + 1
    }
}

/// Writes a place.
#[tactic(auto, using(std::proofs::Common::append_assoc))]
pub fn write_place(out: &mut Vec<u8>, at: Pos) -> Result<(), Memory>
    ensures { OnOk result (out.new.items ≡ out.old.items ++ place_bytes at) }
{
    write_number(out, u64::from(at.line))?;
    write_number(out, u64::from(at.col))
}

/// Writes a byte, and a number behind it.
#[tactic(auto, using(std::proofs::Common::append_assoc))]
pub fn write_numbered(out: &mut Vec<u8>, tag: u8, n: u64) -> Result<(), Memory>
    ensures { OnOk result (out.new.items ≡ out.old.items ++ (tag ∷ number_bytes n)) }
{
    write_byte(out, tag)?;
    write_number(out, n)
}

/// Writes a byte, and a place behind it.
#[tactic(auto, using(std::proofs::Common::append_assoc))]
pub fn write_placed(out: &mut Vec<u8>, tag: u8, at: Pos) -> Result<(), Memory>
    ensures { OnOk result (out.new.items ≡ out.old.items ++ (tag ∷ place_bytes at)) }
{
    write_byte(out, tag)?;
    write_place(out, at)
}

#[tactic(auto, using(std::proofs::Common::append_assoc))]
fn write_range(out: &mut Vec<u8>, start: u64, end: u64, step: u64) -> Result<(), Memory>
    ensures { OnOk result (out.new.items ≡ out.old.items ++ (6 ∷ number_bytes start ++ (number_bytes end ++ number_bytes step))) }
{
    write_numbered(out, 6, start)?;
    write_number(out, end)?;
    write_number(out, step)
}

/// Writes a value.
pub fn write_value(out: &mut Vec<u8>, value: Value) -> Result<(), Memory>
    ensures { OnOk result (out.new.items ≡ out.old.items ++ value_bytes value) }
{
    match value {
        Value::None => write_byte(out, 0),
        Value::Bool(false) => write_byte(out, 1),
        Value::Bool(true) => write_byte(out, 2),
        Value::Int(i) => write_numbered(out, 3, zigzag(i)),
        Value::Text(n) => write_numbered(out, 4, u64::from(n)),
        Value::Tuple(n) => write_numbered(out, 5, u64::from(n)),
        Value::Range(start, end, step) => {
            write_range(out, zigzag(start), zigzag(end), zigzag(step))
        }
        Value::Fn(at) => write_placed(out, 7, at),
        Value::Class(at) => write_placed(out, 8, at),
        Value::Exc(n) => write_numbered(out, 9, n),
        Value::Builtin(n) => write_numbered(out, 10, n),
        Value::Object(n) => write_numbered(out, 11, u64::from(n)),
    }
}

/// Writes a byte, and a value behind it.
#[tactic(auto, using(std::proofs::Common::append_assoc))]
pub fn write_tagged(out: &mut Vec<u8>, tag: u8, value: Value) -> Result<(), Memory>
    ensures { OnOk result (out.new.items ≡ out.old.items ++ (tag ∷ value_bytes value)) }
{
    write_byte(out, tag)?;
    write_value(out, value)
}

/// Writes a list of values.
pub fn write_values(out: &mut Vec<u8>, values: &[Value]) -> Result<(), Memory>
    ensures { OnOk result (out.new.items ≡ out.old.items ++ values_bytes values.now) }
{
    write_number(out, values.len() as u64)?;
    for value in values {
        write_value(out, *value)?;
    }
    Ok(())
}

fn mode_byte(mode: Mode) -> u8
    ensures { result ≡ mode_byte_of mode }
{
    match mode {
        Mode::Read => 0,
        Mode::Write => 1,
        Mode::Append => 2,
    }
}

#[tactic(auto, using(std::proofs::Common::append_assoc))]
fn write_file(out: &mut Vec<u8>, path: u32, mode: Mode) -> Result<(), Memory>
    ensures { OnOk result (out.new.items ≡ out.old.items ++ (4 ∷ number_bytes path ++ mode_byte_of mode ∷ [])) }
{
    write_numbered(out, 4, u64::from(path))?;
    write_byte(out, mode_byte(mode))
}

/// Writes the kind of the object that was made, or that none was.
pub fn write_made(out: &mut Vec<u8>, made: Option<Kind>) -> Result<(), Memory>
    ensures { OnOk result (out.new.items ≡ out.old.items ++ made_bytes made) }
{
    match made {
        None => write_byte(out, 0),
        Some(Kind::List) => write_byte(out, 1),
        Some(Kind::Dict) => write_byte(out, 2),
        Some(Kind::Instance(class)) => write_tagged(out, 3, class),
        Some(Kind::File(path, mode)) => write_file(out, path, mode),
    }
}
