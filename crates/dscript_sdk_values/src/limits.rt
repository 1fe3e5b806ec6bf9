//! The limits on values.

/// The greatest number of bytes of a text.
pub const MAX_TEXT_BYTES: usize = 1_048_576;

/// The greatest number of items of a list.
pub const MAX_LIST_ITEMS: usize = 1_048_576;
