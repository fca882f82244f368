//! Integers as tokens.
ghost use Rattle.std.specs.Prelude.{◌≡◌, ◌<◌, ◌≤◌, ◌^◌, length, true, IfSome};
ghost use Rattle.std.specs.List.{list_all};
ghost use Rattle.git_lines.specs.Numbers.{is_digit, natural, natural_once, integer, integer_once, has_no_leading_zero};

/// The value of at most eighteen digits.
pub fn value_of(digits: &[u8]) -> u64
    requires digits { list_all is_digit digits.now ≡ true }
    requires few { length digits.now ≤ 18 }
    ensures value { result ≡ Rattle.git_lines.specs.Numbers.value_of digits.now }
    ensures small { result < 10 ^ 18 }
{
    let mut value = 0u64;
    for byte in digits {
        value = 10 * value + u64::from(*byte - b'0');
    }
    value
}

/// Whether all bytes are digits.
pub fn are_digits(bytes: &[u8]) -> bool
    ensures { result ≡ list_all is_digit bytes.now }
{
    bytes.iter().all(|b| b.is_ascii_digit())
}

/// The number of one to eighteen digits; none where the bytes are anything else. Zeros may stand in front.
pub fn natural_of(bytes: &[u8]) -> Option<u64>
    ensures value { result ≡ natural bytes.now }
    ensures small { IfSome result (λ n. n < 10 ^ 18) }
{
    if bytes.is_empty() || bytes.len() > 18 || !are_digits(bytes) {
        return None;
    }
    Some(value_of(bytes))
}

/// The integer of one to eighteen digits, or of a minus sign and one to eighteen digits; none where the bytes are
/// anything else.
pub fn integer_of(bytes: &[u8]) -> Option<i64>
    ensures { result ≡ integer bytes.now }
{
    match bytes {
        [b'-', digits @ ..] => Some(-(natural_of(digits)? as i64)),
        _ => Some(natural_of(bytes)? as i64),
    }
}

/// Whether no zero stands before another byte.
fn has_no_zero_in_front(bytes: &[u8]) -> bool
    requires { 0 < length bytes.now }
    ensures { result ≡ has_no_leading_zero bytes.now }
{
    bytes.len() == 1 || bytes[0] != b'0'
}

/// The number of one to eighteen digits in its one spelling: no zero in front of another digit.
pub fn natural_once_of(bytes: &[u8]) -> Option<u64>
    ensures value { result ≡ natural_once bytes.now }
    ensures small { IfSome result (λ n. n < 10 ^ 18) }
{
    let number = natural_of(bytes)?;
    if has_no_zero_in_front(bytes) {
        Some(number)
    } else {
        None
    }
}

/// The integer in its one spelling: an optional minus sign and one to eighteen digits, no zero in front of another digit,
/// and no `-0`.
pub fn integer_once_of(bytes: &[u8]) -> Option<i64>
    ensures { result ≡ integer_once bytes.now }
{
    match bytes {
        [b'-', digits @ ..] => match natural_once_of(digits)? {
            0 => None,
            number => Some(-(number as i64)),
        },
        _ => Some(natural_once_of(bytes)? as i64),
    }
}
