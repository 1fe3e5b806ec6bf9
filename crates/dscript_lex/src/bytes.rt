//! Which bytes are of which kind.

ghost use Rattle.std.specs.Prelude.{◌≡◌, ◌≤◌, length};
ghost use Rattle.std.specs.Char.{is_ascii_hexdigit};
ghost use Rattle.std.specs.List.{prefix_len};
ghost use Rattle.dscript_lex.specs.Bytes.{is_blank, is_word_start, is_word_byte, is_escaped_as_itself};
ghost use Rattle.dscript_lex.specs.Bytes.{digit_value};

pub(crate) fn is_blank(byte: u8) -> bool
    ensures { result ≡ is_blank byte }
{
    matches!(byte, b'\t' | b'\n' | b'\r' | b' ')
}

pub(crate) fn is_word_start(byte: u8) -> bool
    ensures { result ≡ is_word_start byte }
{
    byte.is_ascii_alphabetic() || byte == b'_' || byte == b'$'
}

pub(crate) fn is_word_byte(byte: u8) -> bool
    ensures { result ≡ is_word_byte byte }
{
    is_word_start(byte) || byte.is_ascii_digit()
}

/// How many bytes at the start go on with a word.
pub(crate) fn word_len(bytes: &[u8]) -> usize
    ensures len { result ≡ prefix_len is_word_byte bytes.now }
    ensures in_range { result ≤ length bytes.now }
{
    bytes.iter().take_while(|byte| is_word_byte(**byte)).count()
}

pub(crate) fn is_escaped_as_itself(byte: u8) -> bool
    ensures { result ≡ is_escaped_as_itself byte }
{
    byte >= b' ' && byte <= b'~' && !byte.is_ascii_digit() && byte != b'x' && byte != b'u'
}

/// What a digit counts, decimal or hexadecimal.
pub(crate) fn digit_value(byte: u8) -> u8
    ensures { result ≡ digit_value byte }
{
    if byte <= b'9' {
        byte.saturating_sub(b'0')
    } else if byte <= b'F' {
        byte.saturating_sub(b'7')
    } else {
        byte.saturating_sub(b'W')
    }
}
