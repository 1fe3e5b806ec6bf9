//! Why an ambient call or a member gives no value.
use bx_tree::Text;
use std::alloc::{AllocError, AllocFailed};

/// Why an ambient call or a member gives no value.
#[derive(Drop)]
pub enum SdkFault {
    /// A value is of a kind that is not taken there: an argument, a field or an item of a call, undefined
    /// where a member is asked for, what is no function where one is called, or two values that `===` does
    /// not compare.
    Kind,
    /// The value has no such member.
    Missing,
    /// A text, a list, a number or the depth of a value is above its limit, or the root has no such member.
    Range,
    /// A text leads to no path, or a path would be too long.
    BadPath,
    /// A call has too few arguments, an object lacks a field or has another than it may, or a value of the
    /// right kind is refused.
    BadArgument,
    /// The specification asked to be refused, with this message.
    User(Text),
    /// Out of memory.
    Memory,
}

impl From<AllocError> for SdkFault {
    ghost use Rattle.std.specs.Prelude.{◌≡◌};
    ghost use Rattle.dscript_sdk_values.specs.declared.fault.SdkFault.TheVariants as sdk_faults;

    ghost from_gives = { λ _ e. e ≡ sdk_faults.Memory };

    fn from(_: AllocError) -> Self {
        SdkFault::Memory
    }
}

impl<T: Drop> From<AllocFailed<T>> for SdkFault {
    ghost use Rattle.std.specs.Prelude.{◌≡◌};
    ghost use Rattle.dscript_sdk_values.specs.declared.fault.SdkFault.TheVariants as sdk_faults;

    ghost from_gives = { λ _ e. e ≡ sdk_faults.Memory };

    fn from(_: AllocFailed<T>) -> Self {
        SdkFault::Memory
    }
}
