//! Why a text is not laid out.

ghost use Rattle.std.specs.Prelude.{◌≡◌};
ghost use Rattle.dscript_print_format.specs.declared.fault.LayoutFault.TheVariants as faults;

use std::alloc::AllocError;

/// Why a text is not laid out.
#[derive(Clone, Copy, Debug, PartialEq, Eq)]
pub enum LayoutFault {
    /// The text has no tokens: no lexeme begins at byte `at`.
    Lex { at: u32 },
    /// The tokens are no file: `at` counts those before the place where they are refused.
    Syntax { at: u32 },
    /// Out of memory.
    Memory,
}

impl From<AllocError> for LayoutFault {
    ghost from_gives = { λ _ e. e ≡ faults.Memory };

    fn from(_error: AllocError) -> LayoutFault {
        LayoutFault::Memory
    }
}
