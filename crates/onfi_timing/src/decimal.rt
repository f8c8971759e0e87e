//! Numbers as rows of text spell them.
ghost use Rattle.std.specs.Prelude.{◌≡◌, ◌<◌, ◌-◌, ◌^◌, min, Some, None, IfSome, MatchOption, IsTrue};
ghost use Rattle.std.specs.Char.{is_ascii_digit};
ghost use Rattle.std.specs.List.{list_all};
ghost use Rattle.std.specs.Str.Parse.{digits_value};
ghost use Rattle.onfi_timing.specs.Decimal.{has_leading_zero, is_number, number_of, written_number};

/// The number that the text spells in digits, or the greatest 64-bit number where that is less; None where the text is
/// no number.
pub fn read_number(text: &[u8]) -> Option<u64>
    ensures { MatchOption result (number_of text.now ≡ None) (λ value. (number_of text.now ≡ Some (digits_value 10 text.now)) × (value ≡ min (digits_value 10 text.now) (2 ^ 64 - 1))) }
{
    if is_number(text) {
        Some(value(text))
    } else {
        None
    }
}

/// The number below 2^63 that the text spells as numbers are written: the first of several digits is no zero.
pub fn read_written(text: &[u8]) -> Option<u64>
    ensures value { result ≡ written_number text.now }
    ensures range { IfSome result (λ n. n < 2 ^ 63) }
{
    if has_leading_zero(text) {
        return None;
    }
    let value = read_number(text)?;
    if value < 1 << 63 { Some(value) } else { None }
}

// Whether there are more digits than one, the first a zero.
fn has_leading_zero(text: &[u8]) -> bool
    ensures { result ≡ has_leading_zero text.now }
{
    match text {
        [first, _, ..] => *first == b'0',
        _ => false,
    }
}

// Whether each byte is a digit.
fn all_digits(text: &[u8]) -> bool
    ensures { result ≡ list_all is_ascii_digit text.now }
{
    text.iter().all(|byte| byte.is_ascii_digit())
}

// Whether the text is one or more digits.
fn is_number(text: &[u8]) -> bool
    ensures { result ≡ is_number text.now }
{
    !text.is_empty() && all_digits(text)
}

// The value of the digits, or the greatest 64-bit number where that is less.
fn value(text: &[u8]) -> u64
    requires { IsTrue (list_all is_ascii_digit text.now) }
    ensures { result ≡ min (digits_value 10 text.now) (2 ^ 64 - 1) }
{
    let mut value = 0u64;
    for byte in text {
        value = value
            .saturating_mul(10)
            .saturating_add(u64::from(byte.saturating_sub(b'0')));
    }
    value
}
