//! Why a lookup gives nothing.

ghost use Rattle.std.specs.Prelude.{◌≡◌};
ghost use Rattle.dscript_names_scopes.specs.declared.stop.Stop.TheVariants as stops;

use bx_tree::Memory;
use dscript_program::SpecKind;
use std::alloc::AllocFailed;

/// A fault of names, or that memory ran out.
#[derive(Clone, Copy)]
pub enum Stop {
    Fault(SpecKind),
    Memory,
}

impl From<SpecKind> for Stop {
    ghost from_gives = { λ kind e. e ≡ stops.Fault kind };

    fn from(kind: SpecKind) -> Self {
        Stop::Fault(kind)
    }
}

impl From<Memory> for Stop {
    ghost from_gives = { λ _ e. e ≡ stops.Memory };

    fn from(_: Memory) -> Self {
        Stop::Memory
    }
}

impl<T: Drop> From<AllocFailed<T>> for Stop {
    ghost from_gives = { λ _ e. e ≡ stops.Memory };

    fn from(_: AllocFailed<T>) -> Self {
        Stop::Memory
    }
}
