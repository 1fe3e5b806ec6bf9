//! Why a search in a store stops.
use std::alloc::{AllocError, AllocFailed};

/// Why a search stops: the reader failed, or there was no memory.
#[derive(Clone, Copy, Debug, PartialEq, Eq)]
pub enum StoreFault {
    /// The reader failed.
    Fault,
    /// There was no memory.
    Memory,
}

impl From<AllocError> for StoreFault {
    ghost use Rattle.std.specs.Prelude.{◌≡◌};
    ghost use Rattle.two_phase.specs.declared.store_fault.StoreFault.TheVariants as store_faults;

    ghost from_gives = { λ _ e. e ≡ store_faults.Memory };

    fn from(_: AllocError) -> Self {
        StoreFault::Memory
    }
}

impl<T: Drop> From<AllocFailed<T>> for StoreFault {
    ghost use Rattle.std.specs.Prelude.{◌≡◌};
    ghost use Rattle.two_phase.specs.declared.store_fault.StoreFault.TheVariants as store_faults;

    ghost from_gives = { λ _ e. e ≡ store_faults.Memory };

    fn from(_: AllocFailed<T>) -> Self {
        StoreFault::Memory
    }
}
