//! What names are found to be.

use dscript_program::Target;

/// What a name is found to be.
#[derive(Clone, Copy)]
pub struct Found {
    pub target: Target,
    /// How many of the parts written after its first word belong to it.
    pub parts: usize,
}
