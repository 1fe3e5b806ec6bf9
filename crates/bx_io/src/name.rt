//! The names under which a store holds bytes.

ghost use Rattle.std.specs.Prelude.{◌↔◌, IsTrue};
ghost use Rattle.bx_io.specs.Names.{IsKindLetter, IsLowerHexDigit, IsName};

/// The bytes of a name: the letter of a kind, a slash and the digits of a digest.
pub const NAME_LENGTH: usize = 66;

fn is_kind_letter(c: u8) -> bool
    ensures { IsTrue result ↔ IsKindLetter c }
{
    matches!(c, b'b' | b'w' | b'e')
}

fn is_lower_hex_digit(c: u8) -> bool
    ensures { IsTrue result ↔ IsLowerHexDigit c }
{
    c.is_ascii_digit() || (b'a'..=b'f').contains(&c)
}

/// Whether the text is a name under which a store may hold bytes: `b/`, `w/` or `e/`, and 64 lower-case
/// hexadecimal digits.
pub fn is_name(text: &[u8]) -> bool
    ensures { IsTrue result ↔ IsName text.now }
{
    text.len() == NAME_LENGTH
        && is_kind_letter(text[0])
        && text[1] == b'/'
        && text[2..].iter().all(|c| is_lower_hex_digit(*c))
}
