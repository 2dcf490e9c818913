// Long texts. No more of a text is looked at than is needed.
ghost use Rattle.std.specs.Prelude.{◌≡◌, not, nat_lt};
ghost use Rattle.op_texts.specs.Heads.{heads};
ghost use Rattle.py_model.specs.Texts.{is_continuation, size};

// Whether a byte begins a character.
fn begins(byte: u8) -> bool
    ensures { result ≡ not (is_continuation byte) }
{
    byte < 128 || byte >= 192
}

// Whether more than so many bytes begin a character.
fn begins_more(bytes: &[u8], most: u32) -> bool
    ensures { result ≡ nat_lt most (heads bytes.now) }
{
    let mut left = most;
    for byte in bytes {
        if begins(*byte) {
            if left == 0 {
                return true;
            }
            left -= 1;
        }
    }
    false
}

/// Whether a text has more than 64 characters.
pub(crate) fn is_long(text: &str) -> bool
    ensures { result ≡ nat_lt 64 (size text.now) }
{
    let bytes = text.as_bytes();
    if bytes.is_empty() {
        return false;
    }
    begins_more(&bytes[1..], 63)
}
