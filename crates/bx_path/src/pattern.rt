//! Patterns of names, in which `*` stands for any run of bytes and `?` for any one byte.

ghost use Rattle.std.specs.Prelude.{◌≡◌, ◌↔◌, IsTrue, IfOk, MatchOption};
ghost use Rattle.std.specs.List.{AllByRecursion};
ghost use Rattle.bx_path.specs.Globbing.{IsPattern, is_match as pattern_match, is_pattern_byte as pattern_byte};

use crate::globbing::MAX_PATTERN_BYTES;
use crate::matching::is_match;
use bx_tree::{Memory, Text};
use std::alloc::Global;
use std::marker::Model;

fn is_pattern_byte(byte: u8) -> bool
    ensures { result ≡ pattern_byte byte }
{
    matches!(byte, b'A'..=b'Z' | b'a'..=b'z' | b'0'..=b'9' | b'.' | b'_' | b'-' | b'*' | b'?')
}

fn has_pattern_bytes(text: &[u8]) -> bool
    ensures { IsTrue result ↔ AllByRecursion (λ b. IsTrue (pattern_byte b)) text.now }
{
    text.iter().all(|byte| is_pattern_byte(*byte))
}

/// Whether a text is a pattern: 1 to [`MAX_PATTERN_BYTES`] bytes of `A-Z a-z 0-9 . _ - * ?`.
pub fn is_pattern(text: &[u8]) -> bool
    ensures { IsTrue result ↔ IsPattern text.now }
{
    if text.is_empty() || text.len() > MAX_PATTERN_BYTES {
        return false;
    }
    has_pattern_bytes(text)
}

/// Whether a pattern matches a name, which may be any bytes: `*` matches any run of bytes, `?` any one byte.
pub fn name_matches(pattern: &[u8], name: &[u8]) -> bool
    requires { IsPattern pattern.now }
    ensures { result ≡ pattern_match pattern.now name.now }
{
    is_match(pattern, name)
}

/// A text that is a pattern, shared. Contracts see it as the list of its bytes.
#[derive(Drop)]
pub struct Pattern {
    text: Text,
}

impl Model for Pattern {
    ghost use Rattle.std.specs.Prelude.{List, ℕ};
    ghost use Rattle.bx_path.specs.Globbing.{IsPattern};

    ghost Value = { List ℕ };

    ghost view = { λ p. p.text };

    ghost invariant = { λ p. IsPattern p.text };
}

impl Pattern {
    /// The pattern that a text is, if it is one.
    pub fn of(alloc: Global, text: &[u8]) -> Result<Option<Pattern>, Memory>
        ensures { IfOk result (λ found. MatchOption found
            (IsPattern text.now → ⊥)
            (λ pattern. IsPattern text.now × (pattern ≡ text.now))) }
    {
        if !is_pattern(text) {
            return Ok(None);
        }
        let text = Text::new(alloc, Vec::from_slice(alloc, text)?)?;
        Ok(Some(Pattern { text }))
    }

    /// The bytes, in order.
    pub fn text(&self) -> &[u8]
        ensures text { result.now ≡ self.now }
        ensures is_pattern { IsPattern self.now }
    {
        self.text.bytes()
    }

    /// Whether the pattern matches a name.
    pub fn matches(&self, name: &[u8]) -> bool
        ensures { result ≡ pattern_match self.now name.now }
    {
        name_matches(self.text(), name)
    }

    /// Another owner of this pattern. The bytes are not copied.
    pub fn share(&self) -> Result<Pattern, Memory>
        ensures { IfOk result (λ pattern. pattern ≡ self.now) }
    {
        Ok(Pattern {
            text: self.text.share()?,
        })
    }
}
