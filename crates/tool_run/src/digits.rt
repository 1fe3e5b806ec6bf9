//! The limit on numbers.

/// The largest number of digits in a number.
pub const MAX_DIGITS: usize = 9;
