// Places, counted on over the bytes of a text.
ghost use Rattle.std.specs.Prelude.{◌≡◌, ◌+◌, ◌<◌, ◌^◌, length};
ghost use Rattle.py_lines.specs.Counting as spec;

use prov_base::Pos;

/// The place behind this byte.
fn next_place(here: Pos, byte: u8) -> Pos
    requires line { here.line + 1 < 2 ^ 32 }
    requires col { here.col + 1 < 2 ^ 32 }
    ensures { result ≡ spec.next_place here byte }
{
    if byte == b'\n' {
        Pos {
            line: here.line + 1,
            col: 1,
        }
    } else {
        Pos {
            line: here.line,
            col: here.col + 1,
        }
    }
}

/// The place behind these bytes.
pub fn place_after(start: Pos, bytes: &[u8]) -> Pos
    requires line { start.line + length bytes.now < 2 ^ 32 }
    requires col { start.col + length bytes.now < 2 ^ 32 }
    ensures { result ≡ spec.place_after start bytes.now }
{
    let mut here = start;
    for byte in bytes {
        here = next_place(here, *byte);
    }
    here
}
