//! The limits of a run.

/// The largest number of bytes in a register.
pub const MAX_REGISTER: usize = 1_048_576;

/// The largest number of bytes that a run may write and say in all. What is written again counts
/// again, and so does the newline after what is said.
pub const MAX_OUTPUT: usize = 4_194_304;
