//! What a function of the parser gives.

ghost use Rattle.std.specs.Prelude.{◌≡◌, ◌≤◌, length, max, suc};
ghost use Rattle.dscript_parse_tokens.specs.Gives.{kinds, Gives};
ghost use Rattle.dscript_grammar.specs.TypeReading.{above};
ghost use Rattle.dscript_parse_tokens.specs.declared.parsed.Refusal.TheVariants as refusals;

use crate::depth::Depth;
use crate::syntax::Syntax;
use dscript_lex::Token;
use std::alloc::{AllocError, AllocFailed};

/// What was read from the start of some tokens.
#[derive(Drop)]
pub struct Parsed<'a, T> {
    pub value: T,
    /// The height of its highest node, 0 where it has none.
    pub height: u32,
    /// The tokens after it.
    pub rest: &'a [Token],
}

/// Why nothing was read.
#[derive(Clone, Copy, Debug, PartialEq, Eq)]
pub enum Refusal {
    /// The grammar derives nothing from the start of the tokens.
    Syntax,
    /// Out of memory.
    Memory,
}

/// What a function of the parser gives.
pub type Parse<'a, T> = Result<Parsed<'a, T>, Refusal>;

impl From<AllocError> for Refusal {
    ghost from_gives = { λ _ e. e ≡ refusals.Memory };

    fn from(_error: AllocError) -> Refusal {
        Refusal::Memory
    }
}

impl<T: Drop> From<AllocFailed<T>> for Refusal {
    ghost from_gives = { λ _ e. e ≡ refusals.Memory };

    fn from(_error: AllocFailed<T>) -> Refusal {
        Refusal::Memory
    }
}

/// The greater of two heights.
pub fn higher(a: u32, b: u32) -> u32
    ensures { result ≡ max a b }
{
    if a < b { b } else { a }
}

/// A node over parts of this height, if there is a level left for it.
#[tactic(auto, unfolding(dscript_grammar::specs::TypeReading::above, dscript_grammar::specs::Reading::pick))]
pub fn node<'a, T: Syntax>(depth: Depth, value: T, height: u32, rest: &'a [Token]) -> Parse<'a, T>
    ensures { Gives T.tree (above depth.levels height (T.tree value) (kinds rest.now)) (suc depth.levels)
        (suc (length (kinds rest.now))) result }
{
    if height > depth.levels {
        return Err(Refusal::Syntax);
    }
    Ok(Parsed {
        value,
        height: height + 1,
        rest,
    })
}
