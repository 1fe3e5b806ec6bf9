//! The limits of a tool's text.

/// How many registers a tool has.
pub const REGISTERS: usize = 32;

/// The greatest exit code.
pub const MAX_EXIT: usize = 255;
