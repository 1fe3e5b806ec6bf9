//! The limit on calls.

/// The greatest number of function bodies, callbacks and demanded constants that are open at a time, each
/// inside the one before.
pub const MAX_OPEN_CALLS: u32 = 200;
