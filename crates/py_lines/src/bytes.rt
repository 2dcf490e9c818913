// The classes of bytes from which pieces are made.
ghost use Rattle.std.specs.Prelude.{◌≡◌};
ghost use Rattle.py_lines.specs.Piece as spec;

pub fn is_digit(byte: u8) -> bool
    ensures { result ≡ spec.is_digit byte }
{
    48 <= byte && byte <= 57
}

/// An ASCII letter or an underscore.
pub fn begins_name(byte: u8) -> bool
    ensures { result ≡ spec.begins_name byte }
{
    (97 <= byte && byte <= 122) || (65 <= byte && byte <= 90) || byte == 95
}

pub fn is_name_byte(byte: u8) -> bool
    ensures { result ≡ spec.is_name_byte byte }
{
    begins_name(byte) || is_digit(byte)
}

/// What may stand behind a backslash.
pub fn is_escape(byte: u8) -> bool
    ensures { result ≡ spec.is_escape byte }
{
    byte == b'\\' || byte == b'\'' || byte == b'"' || byte == b'n' || byte == b'r' || byte == b't'
}

/// The byte that an escape stands for.
pub fn escape_value(byte: u8) -> u8
    ensures { result ≡ spec.escape_value byte }
{
    if byte == b'n' {
        b'\n'
    } else if byte == b'r' {
        b'\r'
    } else if byte == b't' {
        b'\t'
    } else {
        byte
    }
}
