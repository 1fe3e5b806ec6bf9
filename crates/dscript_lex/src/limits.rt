//! The limits on texts and numbers, each with its one name. The definitions in specs/ cite these constants.

/// The largest number of bytes in a text that is cut into tokens.
pub const MAX_LEXED_BYTES: usize = 16_777_216;

/// The largest number.
pub const MAX_NUMBER: u64 = 2_147_483_647;
