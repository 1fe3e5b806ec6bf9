//! What is found of something.
ghost use Rattle.std.specs.Prelude.{◌≡◌, ◌+◌, IfOk};
ghost use Rattle.dscript_types_known.specs.Findings as findings;
ghost use Rattle.dscript_types_known.specs.Views.{finding_data};

use bx_tree::Memory;
use dscript_types_data::Type;
use std::alloc::AllocError;

/// What is found of something that may have a type.
#[derive(Drop)]
pub enum Finding<X> {
    /// It has this from a rank on: where at least as many declarations and callbacks may be looked into.
    Found(X, u64),
    /// It has none.
    Nothing,
    /// It hangs on a declaration of which nothing has been found yet.
    Open(Pending),
}

/// A declaration of which nothing has been found yet, by the numbers of its file and its own.
#[derive(Clone, Copy, Debug, PartialEq, Eq)]
pub struct Pending {
    pub file: u32,
    pub decl: u32,
}

/// The rank of what takes one more to look into. More than can be counted are out of memory long before.
pub fn one_more(rank: u64) -> Result<u64, Memory>
    ensures { IfOk result (λ next. next ≡ rank + 1) }
{
    match rank.checked_add(1) {
        Some(next) => Ok(next),
        None => Err(AllocError),
    }
}

impl Finding<Type> {
    /// The same, shared.
    pub fn share(&self) -> Result<Finding<Type>, Memory>
        ensures { IfOk result (λ f. finding_data f ≡ finding_data self.now) }
    {
        match self {
            Finding::Found(t, rank) => Ok(Finding::Found(t.share()?, *rank)),
            Finding::Nothing => Ok(Finding::Nothing),
            Finding::Open(pending) => Ok(Finding::Open(*pending)),
        }
    }

    /// What is found of something that takes one more to look into.
    pub fn one_further(self) -> Result<Finding<Type>, Memory>
        ensures { IfOk result (λ f. finding_data f ≡ findings.one_further (finding_data self)) }
    {
        match self {
            Finding::Found(t, rank) => Ok(Finding::Found(t, one_more(rank)?)),
            Finding::Nothing => Ok(Finding::Nothing),
            Finding::Open(pending) => Ok(Finding::Open(pending)),
        }
    }

    /// What is found of it in the body of a callback, where one less may be looked into.
    pub fn inside(&self) -> Result<Finding<Type>, Memory>
        ensures { IfOk result (λ f. finding_data f ≡ findings.inside (finding_data self.now)) }
    {
        match self {
            Finding::Found(t, rank) => Ok(Finding::Found(t.share()?, rank.saturating_sub(1))),
            Finding::Nothing => Ok(Finding::Nothing),
            Finding::Open(pending) => Ok(Finding::Open(*pending)),
        }
    }

    /// Whether it may still be found.
    pub fn is_open(&self) -> bool
        ensures { result ≡ findings.is_open (finding_data self.now) }
    {
        matches!(self, Finding::Open(_))
    }
}
