// The integer that a text writes: white space around, a sign, digits.
ghost use Rattle.std.specs.Prelude.{◌≡◌, ◌<◌, ◌^◌, SomeIff, FitsSigned};
ghost use Rattle.std.specs.Int.{w64};
ghost use Rattle.op_joins.specs.Written.{behind_sign as digits_behind, is_negative as begins_negative, with_sign};
ghost use Rattle.py_model.specs.Texts.{is_white as byte_is_white, without_white_front, without_white_back, without_white, digits_value};

// Whether a byte is white space.
fn is_white(byte: u8) -> bool
    ensures { result ≡ byte_is_white byte }
{
    byte == 32 || (9 <= byte && byte <= 13)
}

// The bytes without the white space at their start.
fn without_front(bytes: &[u8]) -> &[u8]
    ensures { result.now ≡ without_white_front bytes.now }
{
    let mut rest = bytes;
    while !rest.is_empty() && is_white(rest[0]) {
        rest = &rest[1..];
    }
    rest
}

// The bytes without the white space at their end.
fn without_back(bytes: &[u8]) -> &[u8]
    ensures { result.now ≡ without_white_back bytes.now }
{
    let mut rest = bytes;
    while !rest.is_empty() && is_white(rest[rest.len() - 1]) {
        rest = &rest[..rest.len() - 1];
    }
    rest
}

/// The bytes without the white space at their ends.
pub fn trimmed(bytes: &[u8]) -> &[u8]
    ensures { result.now ≡ without_white bytes.now }
{
    without_back(without_front(bytes))
}

/// Whether the first byte is a minus.
pub fn is_negative(bytes: &[u8]) -> bool
    ensures { result ≡ begins_negative bytes.now }
{
    !bytes.is_empty() && bytes[0] == 45
}

/// The bytes behind a sign, where one stands first.
pub fn behind_sign(bytes: &[u8]) -> &[u8]
    ensures { result.now ≡ digits_behind bytes.now }
{
    if !bytes.is_empty() && (bytes[0] == 45 || bytes[0] == 43) {
        return &bytes[1..];
    }
    bytes
}

// The number that digits write, where it has 64 bits.
fn value_of(digits: &[u8]) -> Option<u64>
    ensures { SomeIff result (digits_value 0 digits.now < 2 ^ 64) (digits_value 0 digits.now) }
{
    let mut n: u64 = 0;
    for digit in digits {
        let digit = u64::from(digit.saturating_sub(48));
        let Some(tenfold) = n.checked_mul(10) else {
            return None;
        };
        let Some(next) = tenfold.checked_add(digit) else {
            return None;
        };
        n = next;
    }
    Some(n)
}

/// The integer that digits write behind a sign, where it has 64 bits.
pub fn signed_value(negative: bool, digits: &[u8]) -> Option<i64>
    ensures { SomeIff result (FitsSigned w64 (with_sign negative (digits_value 0 digits.now))) (with_sign negative (digits_value 0 digits.now)) }
{
    let Some(n) = value_of(digits) else {
        return None;
    };
    if negative {
        return 0i64.checked_sub_unsigned(n);
    }
    0i64.checked_add_unsigned(n)
}
