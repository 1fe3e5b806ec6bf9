//! Why a program is not typed.

ghost use Rattle.std.specs.Prelude.{◌≡◌};
ghost use Rattle.dscript_types.specs.declared.fault.TypeFault.TheVariants as type_faults;

use bx_tree::{Memory, Path};
use std::alloc::AllocFailed;

/// Why a program is not typed.
#[derive(Drop)]
pub enum TypeFault {
    /// Some expression has no type: the first file by path with such an expression.
    Untyped { file: Path },
    /// Out of memory.
    Memory,
}

impl From<Memory> for TypeFault {
    ghost from_gives = { λ _ e. e ≡ type_faults.Memory };

    fn from(_: Memory) -> Self {
        TypeFault::Memory
    }
}

impl<T: Drop> From<AllocFailed<T>> for TypeFault {
    ghost from_gives = { λ _ e. e ≡ type_faults.Memory };

    fn from(_: AllocFailed<T>) -> Self {
        TypeFault::Memory
    }
}
