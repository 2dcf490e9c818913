// Decimal numbers in words.
ghost use Rattle.std.specs.Prelude.{◌≡◌, nat_le, Some, None, if◌then◌else◌};
ghost use Rattle.std.specs.List.{list_all};
ghost use Rattle.now_words.specs.Numbers.{is_digit as is_digit_code, is_number as is_number_word, number_of, number_to};

// Whether the byte is an ASCII digit.
fn is_digit(byte: u8) -> bool
    ensures { result ≡ is_digit_code byte }
{
    48 <= byte && byte <= 57
}

// Whether each byte is a digit.
fn are_digits(bytes: &[u8]) -> bool
    ensures { result ≡ list_all is_digit_code bytes.now }
{
    bytes.iter().all(|byte| is_digit(*byte))
}

// Whether the bytes are one or more digits.
fn is_number(bytes: &[u8]) -> bool
    ensures { result ≡ is_number_word bytes.now }
{
    match bytes.split_first() {
        Some((first, rest)) => is_digit(*first) && are_digits(rest),
        None => false,
    }
}

// The number that the digits stand for, where it is at most `most`.
fn value_of(digits: &[u8], most: u32) -> Option<u32>
    ensures { result ≡ (if nat_le (number_of digits.now) most then Some (number_of digits.now) else None) }
{
    let mut n: u32 = 0;
    for digit in digits {
        let digit = u32::from(digit.saturating_sub(48));
        let next = n.checked_mul(10)?.checked_add(digit)?;
        if next > most {
            return None;
        }
        n = next;
    }
    Some(n)
}

/// The number that the word's digits stand for, where it is one or more digits and the number is from 1 to `most`.
pub(crate) fn number(word: &[u8], most: u32) -> Option<u32>
    ensures { result ≡ number_to most word.now }
{
    if !is_number(word) {
        return None;
    }
    let n = value_of(word, most)?;
    if n == 0 { None } else { Some(n) }
}
