//! The limit on how deeply the nodes of a file are nested.

/// The greatest height of a file that counts. A node of a tree is one higher than its highest part, and each
/// pair of parentheses around an expression or a type adds one.
pub const MAX_HEIGHT: u32 = 200;
