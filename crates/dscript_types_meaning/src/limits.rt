//! The limit on types.

/// The greatest number of nodes of a type: one for each kind, list and object in it, and one for each union of
/// another number of members than one.
pub const MAX_TYPE_NODES: u32 = 10_000;
