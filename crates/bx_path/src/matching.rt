//! Matching a name against a pattern, by a table row for each suffix of the name.

ghost use Rattle.std.specs.Prelude.{◌≡◌, ◌==◌, ◌||◌, ◌&&◌, ◌+◌, ◌≤◌, ℕ, List, [], ◌∷◌, length};
ghost use Rattle.std.specs.Prelude.{if◌then◌else◌};
ghost use Rattle.bx_path.specs.declared.globbing.TheConstants.{MAX_PATTERN_BYTES};
ghost use Rattle.bx_path.specs.Globbing.{is_match as pattern_match};
ghost use Rattle.bx_path.specs.Rows.{IsRow};

use crate::globbing::MAX_PATTERN_BYTES;

// A row has an entry for each suffix of a pattern, the empty one included.
const ROW: usize = MAX_PATTERN_BYTES + 1;

// Whether a byte of a pattern other than `*` matches a byte.
fn byte_matches(pattern: u8, byte: u8) -> bool
    ensures { result ≡ (pattern == 63 || pattern == byte) }
{
    pattern == b'?' || pattern == byte
}

// Whether a pattern that begins with a byte matches the empty name, where it is known of the rest of the pattern.
fn matches_nothing(pattern: u8, rest: bool) -> bool
    ensures { result ≡ (pattern == 42 && rest) }
{
    pattern == b'*' && rest
}

// Whether a pattern that begins with a byte matches a name that does, where it is known of the rest of the pattern
// and the whole name, of the whole pattern and the rest of the name, and of both rests.
fn matches_both(pattern: u8, byte: u8, name: bool, rest: bool, rests: bool) -> bool
    ensures { result
        ≡ (if pattern == 42 then name || rest else (pattern == 63 || pattern == byte) && rests) }
{
    if pattern == b'*' {
        name || rest
    } else {
        byte_matches(pattern, byte) && rests
    }
}

// The row of the empty name.
fn start(row: &mut [bool], pattern: &[u8])
    requires { length row.old ≡ length pattern.now + 1 }
    ensures { IsRow pattern.now [] row.new }
{
    let mut at = pattern.len();
    row[at] = true;
    'suffixes: while at > 0 {
        at -= 1;
        row[at] = matches_nothing(pattern[at], row[at + 1]);
    }
}

// The row of a name with a byte before it.
fn add_byte(row: &mut [bool], pattern: &[u8], byte: u8)
    requires { length row.old ≡ length pattern.now + 1 }
    ensures { (name : List ℕ) → IsRow pattern.now name row.old → IsRow pattern.now (byte ∷ name) row.new }
{
    let mut at = pattern.len();
    let mut after = row[at];
    row[at] = false;
    'suffixes: while at > 0 {
        at -= 1;
        let old = row[at];
        row[at] = matches_both(pattern[at], byte, row[at + 1], old, after);
        after = old;
    }
}

fn matches_by(row: &mut [bool], pattern: &[u8], name: &[u8]) -> bool
    requires { length row.old ≡ length pattern.now + 1 }
    ensures { result ≡ pattern_match pattern.now name.now }
{
    start(row, pattern);
    let mut left = name.len();
    'name: while left > 0 {
        left -= 1;
        add_byte(row, pattern, name[left]);
    }
    row[0]
}

// Whether a name matches a pattern, in a number of steps linear in the product of their lengths.
pub(crate) fn is_match(pattern: &[u8], name: &[u8]) -> bool
    requires { length pattern.now ≤ MAX_PATTERN_BYTES }
    ensures { result ≡ pattern_match pattern.now name.now }
{
    let mut row = [false; ROW];
    matches_by(&mut row[..pattern.len() + 1], pattern, name)
}
