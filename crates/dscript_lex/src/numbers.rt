//! The values of numbers.

ghost use Rattle.std.specs.Prelude.{◌≡◌, ◌≤◌, Some};
ghost use Rattle.std.specs.List.{list_all};
ghost use Rattle.std.specs.Char.{is_ascii_digit, is_ascii_hexdigit};
ghost use Rattle.dscript_lex.specs.Lexemes.{value_in, at_most_max, hexadecimal_of, number_of};

use crate::bytes::digit_value;
use crate::limits::MAX_NUMBER;

/// The value of the digits in a base, if it is at most `MAX_NUMBER`.
fn value_in(base: u64, digits: &[u8]) -> Option<u64>
    requires least { 1 ≤ base }
    requires most { base ≤ 16 }
    ensures { result ≡ at_most_max (Some (value_in base digits.now)) }
{
    let mut value = 0;
    'digits: for digit in digits {
        value = base * value + u64::from(digit_value(*digit));
        if value > MAX_NUMBER {
            return None;
        }
    }
    Some(value)
}

fn are_decimal(bytes: &[u8]) -> bool
    ensures { result ≡ list_all is_ascii_digit bytes.now }
{
    bytes.iter().all(|byte| byte.is_ascii_digit())
}

fn are_hexadecimal(bytes: &[u8]) -> bool
    ensures { result ≡ list_all is_ascii_hexdigit bytes.now }
{
    bytes.iter().all(|byte| byte.is_ascii_hexdigit())
}

/// The value of the digits after `0x`, if they are digits, and it is at most `MAX_NUMBER`.
fn hexadecimal_of(digits: &[u8]) -> Option<u64>
    ensures { result ≡ at_most_max (hexadecimal_of digits.now) }
{
    if digits.is_empty() || !are_hexadecimal(digits) {
        return None;
    }
    value_in(16, digits)
}

/// The number that a text spells, if it spells one.
pub(crate) fn number_of(text: &[u8]) -> Option<u64>
    ensures { result ≡ number_of text.now }
{
    let (first, rest) = text.split_first()?;
    if *first != b'0' {
        return if are_decimal(text) {
            value_in(10, text)
        } else {
            None
        };
    }
    match rest.split_first() {
        None => Some(0),
        Some((second, digits)) => {
            if *second == b'x' {
                hexadecimal_of(digits)
            } else {
                None
            }
        }
    }
}
