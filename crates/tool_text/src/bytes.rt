//! Tests on the bytes of a tool's text.
ghost use Rattle.std.specs.Prelude.{◌≡◌, ◌≤◌, ◌^◌, true};
ghost use Rattle.std.specs.List.{list_all};
ghost use Rattle.tool_text.specs.Grammar.{is_digit as digit, is_lower as lower};
ghost use Rattle.tool_text.specs.Reading.{is_digits as digits_only, is_label as label};
ghost use Rattle.tool_text.specs.Reading.{is_label_byte as label_byte, is_number as number};
ghost use Rattle.tool_text.specs.Reading.{value_below as value_less};

fn is_digit(byte: u8) -> bool
    ensures { result ≡ digit byte }
{
    matches!(byte, b'0'..=b'9')
}

fn is_lower(byte: u8) -> bool
    ensures { result ≡ lower byte }
{
    matches!(byte, b'a'..=b'z')
}

fn is_label_byte(byte: u8) -> bool
    ensures { result ≡ label_byte byte }
{
    is_lower(byte) || is_digit(byte)
}

fn all_digits(text: &[u8]) -> bool
    ensures { result ≡ list_all digit text.now }
{
    text.iter().all(|byte| is_digit(*byte))
}

// Whether a text is one digit or more.
pub(crate) fn is_digits(text: &[u8]) -> bool
    ensures { result ≡ digits_only text.now }
{
    !text.is_empty() && all_digits(text)
}

/// Whether a text is a number: `0`, or digits without a leading zero.
pub fn is_number(text: &[u8]) -> bool
    ensures { result ≡ number text.now }
{
    is_digits(text) && (text.len() <= 1 || text[0] != b'0')
}

fn all_label_bytes(text: &[u8]) -> bool
    ensures { result ≡ list_all label_byte text.now }
{
    text.iter().all(|byte| is_label_byte(*byte))
}

// Whether a text is a label: a letter, and letters and digits after it.
pub(crate) fn is_label(text: &[u8]) -> bool
    ensures { result ≡ label text.now }
{
    match text.split_first() {
        Some((first, rest)) => is_lower(*first) && all_label_bytes(rest),
        None => false,
    }
}

/// The value of digits, if it is below a limit.
pub fn value_below(digits: &[u8], limit: usize) -> Option<usize>
    requires digits { list_all digit digits.now ≡ true }
    requires small { limit ≤ 2 ^ 32 }
    ensures { result ≡ value_less limit digits.now }
{
    let mut value = 0;
    'digits: for byte in digits {
        value = 10 * value + (*byte - b'0') as usize;
        if value >= limit {
            return None;
        }
    }
    if value < limit { Some(value) } else { None }
}
