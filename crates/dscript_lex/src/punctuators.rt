//! The punctuators: brackets, operators and the like.

ghost use Rattle.std.specs.Prelude.{◌≡◌, ◌≤◌, [], ◌∷◌, length};
ghost use Rattle.dscript_lex.specs.Punctuators.{is_punctuator};
ghost use Rattle.dscript_lex.specs.Scanning.{punctuator_len};

#[tactic(auto, unfolding(crate::specs::Punctuators::is_punctuator))]
fn is_punctuator_of_one(a: u8) -> bool
    ensures { result ≡ is_punctuator (a ∷ []) }
{
    matches!(
        a,
        b'{' | b'}'
            | b'('
            | b')'
            | b'['
            | b']'
            | b'.'
            | b';'
            | b','
            | b'<'
            | b'>'
            | b'+'
            | b'-'
            | b'*'
            | b'!'
            | b'?'
            | b':'
            | b'='
            | b'|'
            | b'/'
            | b'%'
            | b'&'
            | b'^'
            | b'~'
    )
}

#[tactic(auto, unfolding(crate::specs::Punctuators::is_punctuator))]
fn is_punctuator_of_two(a: u8, b: u8) -> bool
    ensures { result ≡ is_punctuator (a ∷ b ∷ []) }
{
    match a {
        b'<' => b == b'=' || b == b'<',
        b'>' | b'!' => b == b'=',
        b'=' => b == b'>' || b == b'=',
        b'+' => b == b'+' || b == b'=',
        b'-' => b == b'-' || b == b'=',
        b'*' => b == b'*' || b == b'=',
        b'?' => b == b'?' || b == b'.',
        b'&' | b'|' | b'@' => b == a,
        _ => false,
    }
}

#[tactic(auto, unfolding(crate::specs::Punctuators::is_punctuator))]
fn is_punctuator_of_three(a: u8, b: u8, c: u8) -> bool
    ensures { result ≡ is_punctuator (a ∷ b ∷ c ∷ []) }
{
    match a {
        b'.' => b == b'.' && c == b'.',
        b'=' | b'!' => b == b'=' && c == b'=',
        _ => false,
    }
}

/// How many bytes the longest punctuator at the start takes, or 0.
#[tactic(auto, unfolding(crate::specs::Scanning::punctuator_len))]
pub(crate) fn punctuator_len(bytes: &[u8]) -> usize
    ensures len { result ≡ punctuator_len bytes.now }
    ensures in_range { result ≤ length bytes.now }
{
    let Some((a, others)) = bytes.split_first() else {
        return 0;
    };
    let Some((b, rest)) = others.split_first() else {
        return usize::from(is_punctuator_of_one(*a));
    };
    match rest.split_first() {
        Some((c, _)) if is_punctuator_of_three(*a, *b, *c) => 3,
        _ if is_punctuator_of_two(*a, *b) => 2,
        _ => usize::from(is_punctuator_of_one(*a)),
    }
}
