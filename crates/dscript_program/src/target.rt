//! What names stand for.

use crate::ambient::Ambient;

/// What a name stands for.
#[derive(Clone, Copy, Debug, PartialEq, Eq)]
pub enum Target {
    /// A local or a parameter, by its number in its declaration.
    Local(u32),
    /// A declaration.
    Declared {
        /// The number of its file in the program.
        file: u32,
        /// Its number in that file.
        decl: u32,
    },
    /// A call that needs no declaration.
    Ambient(Ambient),
}
