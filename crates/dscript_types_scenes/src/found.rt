//! What typing comes to.
ghost use Rattle.std.specs.Prelude.{◌≡◌, Some, max};
ghost use Rattle.dscript_types_known.specs.Views.{finding_data};
ghost use Rattle.dscript_types_scenes.specs.Typings.{bare_finding, both_right};

use bx_tree::Text;
use dscript_program::Ambient;
use dscript_types_data::Type;
use dscript_types_known::{Finding, Pending};

/// What typing a part of an expression comes to.
#[derive(Drop)]
pub enum Typing<X> {
    /// It has this, and what was seen on the way.
    Found(X, Seen),
    /// It has none.
    Nothing,
    /// It hangs on a declaration of which nothing has been found yet.
    Open(Pending),
}

/// What was seen on the way to a type: its rank, and from which number on each expression in the bodies of the
/// callbacks in the expression has a type where so many declarations may be looked into, if it has one at all.
#[derive(Clone, Copy)]
pub struct Seen {
    pub rank: u64,
    pub right: Option<u64>,
}

/// The greater of two ranks.
pub(crate) fn larger(a: u64, b: u64) -> u64
    ensures { result ≡ max a b }
{
    if a < b { b } else { a }
}

/// From where on both are right.
pub(crate) fn both_from(one: Option<u64>, other: Option<u64>) -> Option<u64>
    ensures { result ≡ both_right one other }
{
    match (one, other) {
        (Some(a), Some(b)) => Some(larger(a, b)),
        _ => None,
    }
}

impl Seen {
    /// What has this rank, without bodies.
    pub fn from_rank(rank: u64) -> Seen
        ensures { result ≡ record { rank = rank; right = Some 0 } }
    {
        Seen {
            rank,
            right: Some(0),
        }
    }

    /// What was seen of two parts.
    pub fn and(self, other: Seen) -> Seen
        ensures { result ≡ record { rank = max self.rank other.rank; right = both_right self.right other.right } }
    {
        Seen {
            rank: larger(self.rank, other.rank),
            right: both_from(self.right, other.right),
        }
    }
}

impl Typing<Type> {
    /// What is found of it, without what was seen of bodies.
    pub fn finding(self) -> Finding<Type>
        ensures { finding_data result ≡ bare_finding self }
    {
        match self {
            Typing::Found(t, seen) => Finding::Found(t, seen.rank),
            Typing::Nothing => Finding::Nothing,
            Typing::Open(pending) => Finding::Open(pending),
        }
    }
}

/// What an expression comes to: a value of a type, a member of such a value, a declared function, or an ambient call.
#[derive(Drop)]
pub enum Subject {
    Whole(Type),
    Named(Type, Text),
    Function { file: u32, decl: u32 },
    Ambient(Ambient),
}
