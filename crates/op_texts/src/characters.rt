// The characters of a text, counted.
ghost use Rattle.std.specs.Prelude.{◌≡◌, ◌≤◌, length};
ghost use Rattle.op_texts.specs.Heads.{heads};
ghost use Rattle.py_model.specs.Texts.{is_continuation, size as text_size};

// Whether a byte goes on with a character.
fn goes_on(byte: u8) -> bool
    ensures { result ≡ is_continuation byte }
{
    128 <= byte && byte < 192
}

// How many bytes begin a character.
fn begun(bytes: &[u8]) -> u64
    ensures count { result ≡ heads bytes.now }
    ensures few { result ≤ length bytes.now }
{
    let mut n = 0;
    for byte in bytes {
        if !goes_on(*byte) {
            n += 1;
        }
    }
    n
}

/// How many characters bytes have.
pub fn size_of(bytes: &[u8]) -> u64
    ensures count { result ≡ text_size bytes.now }
    ensures few { result ≤ length bytes.now }
{
    if bytes.is_empty() {
        return 0;
    }
    begun(&bytes[1..]) + 1
}

/// How many characters a text has.
pub fn size(text: &str) -> u64
    ensures count { result ≡ text_size text.now }
    ensures few { result ≤ length text.now }
{
    size_of(text.as_bytes())
}
