//! How many levels of nesting are left.

ghost use Rattle.std.specs.Prelude.{◌≡◌, ◌≤◌, suc, MatchResult};
ghost use Rattle.dscript_parse_tokens.specs.declared.parsed.Refusal.TheVariants as refusals;
ghost use Rattle.dscript_grammar.specs.declared.height.TheConstants.{MAX_HEIGHT};

use crate::parsed::Refusal;
use dscript_grammar::MAX_HEIGHT;

/// The levels of nesting that are left: they bound the height of the tree that is read.
#[derive(Clone, Copy)]
pub struct Depth {
    pub levels: u32,
    pub ghost bounded: { levels ≤ MAX_HEIGHT },
}

impl Depth {
    /// The levels below a file.
    pub fn in_file() -> Depth
        ensures { suc result.levels ≡ MAX_HEIGHT }
    {
        Depth {
            levels: MAX_HEIGHT - 1,
        }
    }

    /// The levels below one node.
    pub fn below(self) -> Result<Depth, Refusal>
        ensures { MatchResult result
            (λ depth. self.levels ≡ suc depth.levels)
            (λ fault. (fault ≡ refusals.Syntax) × (self.levels ≡ 0)) }
    {
        if self.levels == 0 {
            return Err(Refusal::Syntax);
        }
        Ok(Depth {
            levels: self.levels - 1,
        })
    }
}
