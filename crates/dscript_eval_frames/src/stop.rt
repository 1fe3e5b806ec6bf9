//! Why the machine stops.
use bx_tree::Text;
use dscript_eval_meaning::EvalKind;
use std::alloc::{AllocError, AllocFailed};

/// Why the machine stops.
#[derive(Drop)]
pub enum Stop {
    /// A fault: its kind, the number of its file, and the message that the specification gave.
    Fault(EvalKind, u32, Option<Text>),
    /// Out of memory.
    Memory,
}

impl From<AllocError> for Stop {
    ghost use Rattle.std.specs.Prelude.{◌≡◌};
    ghost use Rattle.dscript_eval_frames.specs.declared.stop.Stop.TheVariants as stops;

    ghost from_gives = { λ _ e. e ≡ stops.Memory };

    fn from(_: AllocError) -> Self {
        Stop::Memory
    }
}

impl<T: Drop> From<AllocFailed<T>> for Stop {
    ghost use Rattle.std.specs.Prelude.{◌≡◌};
    ghost use Rattle.dscript_eval_frames.specs.declared.stop.Stop.TheVariants as stops;

    ghost from_gives = { λ _ e. e ≡ stops.Memory };

    fn from(_: AllocFailed<T>) -> Self {
        Stop::Memory
    }
}
