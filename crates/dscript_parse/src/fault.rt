//! Why tokens are no file.

ghost use Rattle.std.specs.Prelude.{◌≡◌};
ghost use Rattle.dscript_parse.specs.declared.fault.SyntaxFault.TheVariants as faults;

use std::alloc::{AllocError, AllocFailed};

/// Why tokens are no file.
#[derive(Clone, Copy, Debug, PartialEq, Eq)]
pub enum SyntaxFault {
    /// The grammar derives no file from the tokens. The place is a number of tokens before it: those of
    /// the items before the first wrong one in a project file, and 0 in a configuration.
    Syntax { at: u32 },
    /// Out of memory.
    Memory,
}

impl From<AllocError> for SyntaxFault {
    ghost from_gives = { λ _ e. e ≡ faults.Memory };

    fn from(_error: AllocError) -> SyntaxFault {
        SyntaxFault::Memory
    }
}

impl<T: Drop> From<AllocFailed<T>> for SyntaxFault {
    ghost from_gives = { λ _ e. e ≡ faults.Memory };

    fn from(_error: AllocFailed<T>) -> SyntaxFault {
        SyntaxFault::Memory
    }
}
