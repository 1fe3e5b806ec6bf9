//! Why a program gives no pips.
use bx_tree::{Path, Text};
use std::alloc::{AllocError, AllocFailed};

/// The kind of a fault of evaluation.
#[derive(Clone, Copy, Debug, PartialEq, Eq)]
pub enum EvalKind {
    /// A value is of another kind than is asked for.
    Kind,
    /// The value has no such member.
    Missing,
    /// A constant is demanded while it is evaluated.
    Cycle,
    /// A number, a text, a list or the depth of a value is above its limit, or an index is out of range.
    Range,
    /// A text leads to no path.
    BadPath,
    /// More calls are open than may be.
    Depth,
    /// A step is due after the last of the budget.
    Budget,
    /// A call or a member refuses its arguments.
    BadArgument,
    /// The specification asked to be refused.
    User,
}

/// Why a program gives no pips.
#[derive(Drop)]
pub enum EvalFault {
    /// The first fault: its kind, the file of the expression, and the message that the specification gave,
    /// if it asked to be refused.
    Fault {
        kind: EvalKind,
        file: Path,
        message: Option<Text>,
    },
    /// Out of memory.
    Memory,
}

impl From<AllocError> for EvalFault {
    ghost use Rattle.std.specs.Prelude.{◌≡◌};
    ghost use Rattle.dscript_eval_meaning.specs.declared.fault.EvalFault.TheVariants as eval_faults;

    ghost from_gives = { λ _ e. e ≡ eval_faults.Memory };

    fn from(_: AllocError) -> Self {
        EvalFault::Memory
    }
}

impl<T: Drop> From<AllocFailed<T>> for EvalFault {
    ghost use Rattle.std.specs.Prelude.{◌≡◌};
    ghost use Rattle.dscript_eval_meaning.specs.declared.fault.EvalFault.TheVariants as eval_faults;

    ghost from_gives = { λ _ e. e ≡ eval_faults.Memory };

    fn from(_: AllocFailed<T>) -> Self {
        EvalFault::Memory
    }
}
