//! Which tokens would run together.

ghost use Rattle.std.specs.Prelude.{◌≡◌};
ghost use Rattle.dscript_print_tokens.specs.Sides.{goes_on, side_of, run_together};

use dscript_lex::TokenKind;

/// What a token is to its neighbours.
#[derive(Clone, Copy)]
pub(crate) enum Side {
    /// A word or a number: no word byte may follow.
    Word,
    /// A punctuator, by its first byte.
    Punctuator(u8),
    /// Anything may follow.
    Other,
}

/// Whether a punctuator that begins with the one byte could be lexed as a longer one, or as a comment,
/// before the other.
#[tactic(auto, unfolding(dscript_lex::specs::Punctuators::is_punctuator, crate::specs::Sides::goes_on))]
fn goes_on(first: u8, next: u8) -> bool
    ensures { result ≡ goes_on first next }
{
    match next {
        b'=' => matches!(first, b'<' | b'>' | b'=' | b'!' | b'+' | b'-' | b'*'),
        b'>' => first == b'=',
        b'.' => first == b'?' || first == b'.',
        b'*' => first == b'*' || first == b'/',
        b'<' | b'&' | b'|' | b'@' | b'+' | b'-' | b'?' | b'/' => first == next,
        _ => false,
    }
}

/// What the token is to its neighbours.
pub(crate) fn side_of(kind: &TokenKind) -> Side
    ensures { result ≡ side_of kind.now }
{
    match kind {
        TokenKind::Word(_) | TokenKind::Number(_) => Side::Word,
        TokenKind::Punct(punctuator) => match punctuator.bytes().first() {
            Some(first) => Side::Punctuator(*first),
            None => Side::Other,
        },
        _ => Side::Other,
    }
}

/// Whether the two would run together, the one directly after the other.
pub(crate) fn run_together(before: Side, after: Side) -> bool
    ensures { result ≡ run_together before after }
{
    match (before, after) {
        (Side::Word, Side::Word) => true,
        (Side::Punctuator(first), Side::Punctuator(next)) => goes_on(first, next),
        _ => false,
    }
}
