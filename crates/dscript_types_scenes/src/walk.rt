//! What a walk over a body has come to.
ghost use Rattle.std.specs.Prelude.{◌≡◌, [], IfOk, Some};
ghost use Rattle.dscript_types_known.specs.Findings.{Found};
ghost use Rattle.dscript_types_scenes.specs.Typings.{both_right};
ghost use Rattle.dscript_types_scenes.specs.Walks.{finding_types, judged, returned};

use crate::found::{Typing, both_from, larger};
use bx_tree::Memory;
use dscript_types_data::Type;
use dscript_types_known::Finding;
use std::alloc::Global;

/// The types of what is returned, and from which number on each expression so far has a type where it stands, where so
/// many declarations may be looked into, if it has one at all.
#[derive(Drop)]
pub struct Walk {
    pub returns: Finding<Vec<Type>>,
    pub right: Option<u64>,
}

/// Whether an expression meets the rule of its place, and from which rank on.
#[derive(Clone, Copy)]
pub enum Rule {
    Met(u64),
    NotMet,
}

impl Walk {
    /// A walk that has seen nothing.
    pub fn new(alloc: Global) -> Walk
        ensures returns { finding_types result.returns ≡ Found [] 0 }
        ensures right { result.right ≡ Some 0 }
    {
        Walk {
            returns: Finding::Found(Vec::new(alloc), 0),
            right: Some(0),
        }
    }

    /// Goes on over an expression with the rule of its place.
    pub fn judge(&mut self, found: &Typing<Type>, rule: Rule)
        ensures right { self.new.right ≡ both_right self.old.right (judged found.now rule) }
        ensures returns { self.new.returns ≡ self.old.returns }
    {
        self.right = both_from(self.right, judged(found, rule));
    }

    /// Goes on over what is returned.
    pub fn add(&mut self, found: Typing<Type>) -> Result<(), Memory>
        ensures returns { IfOk result (λ _. finding_types self.new.returns
            ≡ returned (finding_types self.old.returns) found) }
        ensures right { self.new.right ≡ self.old.right }
    {
        let returns = std::mem::replace(&mut self.returns, Finding::Nothing);
        self.returns = with_returned(returns, found)?;
        Ok(())
    }
}

// From which number on an expression has a type where it stands.
fn judged(found: &Typing<Type>, rule: Rule) -> Option<u64>
    ensures { result ≡ judged found.now rule }
{
    match found {
        Typing::Found(_, seen) => match rule {
            Rule::Met(rank) => both_from(Some(larger(seen.rank, rank)), seen.right),
            Rule::NotMet => None,
        },
        Typing::Nothing => None,
        Typing::Open(_) => None,
    }
}

// The types of what is returned, with another.
fn with_returned(
    returns: Finding<Vec<Type>>,
    found: Typing<Type>,
) -> Result<Finding<Vec<Type>>, Memory>
    ensures { IfOk result (λ f. finding_types f ≡ returned (finding_types returns) found) }
{
    match returns {
        Finding::Found(types, rank) => with_type(types, rank, found),
        Finding::Nothing => Ok(Finding::Nothing),
        Finding::Open(pending) => Ok(Finding::Open(pending)),
    }
}

// Types that are found from a rank on, with another.
fn with_type(types: Vec<Type>, rank: u64, found: Typing<Type>) -> Result<Finding<Vec<Type>>, Memory>
    ensures { IfOk result (λ f. finding_types f ≡ returned (Found types.items rank) found) }
{
    match found {
        Typing::Found(t, seen) => {
            let mut types = types;
            types.push(t)?;
            Ok(Finding::Found(types, larger(rank, seen.rank)))
        }
        Typing::Nothing => Ok(Finding::Nothing),
        Typing::Open(pending) => Ok(Finding::Open(pending)),
    }
}
