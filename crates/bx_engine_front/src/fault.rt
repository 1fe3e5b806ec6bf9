//! Why a tree comes to no plan.

use build_report::Refusal;
use bx_tree::Memory;
use std::alloc::AllocFailed;

/// Why a tree comes to no plan.
#[derive(Drop)]
pub enum FrontFault {
    /// The tree is refused, as a report says.
    Refused(Refusal),
    /// Out of memory.
    Memory,
}

impl From<Memory> for FrontFault {
    ghost use Rattle.std.specs.Prelude.{◌≡◌};
    ghost use Rattle.bx_engine_front.specs.declared.fault.FrontFault.TheVariants as front_faults;

    ghost from_gives = { λ _ e. e ≡ front_faults.Memory };

    fn from(_: Memory) -> Self {
        FrontFault::Memory
    }
}

impl<T: Drop> From<AllocFailed<T>> for FrontFault {
    ghost use Rattle.std.specs.Prelude.{◌≡◌};
    ghost use Rattle.bx_engine_front.specs.declared.fault.FrontFault.TheVariants as front_faults;

    ghost from_gives = { λ _ e. e ≡ front_faults.Memory };

    fn from(_: AllocFailed<T>) -> Self {
        FrontFault::Memory
    }
}
