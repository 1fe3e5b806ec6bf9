//! The limit on pips.

/// How many pips there may be, as each has a number.
pub const MAX_NUMBERED_PIPS: u32 = u32::MAX;
