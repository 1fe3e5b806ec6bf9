//! Why the care of a store stops.
use std::alloc::{AllocError, AllocFailed};

/// Why a call on a store stops.
#[derive(Clone, Copy, Debug, PartialEq, Eq)]
pub enum CareFault {
    /// The store failed.
    Failed,
    /// There was no memory.
    Memory,
}

impl From<AllocError> for CareFault {
    ghost use Rattle.std.specs.Prelude.{◌≡◌};
    ghost use Rattle.cache_care_check.specs.declared.fault.CareFault.TheVariants as faults;

    ghost from_gives = { λ _ e. e ≡ faults.Memory };

    fn from(_: AllocError) -> Self {
        CareFault::Memory
    }
}

impl<T: Drop> From<AllocFailed<T>> for CareFault {
    ghost use Rattle.std.specs.Prelude.{◌≡◌};
    ghost use Rattle.cache_care_check.specs.declared.fault.CareFault.TheVariants as faults;

    ghost from_gives = { λ _ e. e ≡ faults.Memory };

    fn from(_: AllocFailed<T>) -> Self {
        CareFault::Memory
    }
}
