//! Why a text is no tool.

use std::alloc::{AllocError, AllocFailed};

/// Why a text gives no tool.
#[derive(Clone, Copy, Debug, PartialEq, Eq)]
pub enum ToolFault {
    /// The text is no tool.
    BadTool,
    /// There was no memory.
    Memory,
}

impl From<AllocError> for ToolFault {
    ghost use Rattle.std.specs.Prelude.{◌≡◌};
    ghost use Rattle.tool_text.specs.declared.fault.ToolFault.TheVariants as tool_faults;

    ghost from_gives = { λ _ e. e ≡ tool_faults.Memory };

    fn from(_: AllocError) -> Self {
        ToolFault::Memory
    }
}

impl<T: Drop> From<AllocFailed<T>> for ToolFault {
    ghost use Rattle.std.specs.Prelude.{◌≡◌};
    ghost use Rattle.tool_text.specs.declared.fault.ToolFault.TheVariants as tool_faults;

    ghost from_gives = { λ _ e. e ≡ tool_faults.Memory };

    fn from(_: AllocFailed<T>) -> Self {
        ToolFault::Memory
    }
}
