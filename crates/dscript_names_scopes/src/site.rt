//! Where names occur.

use crate::names::FileNames;
use bx_tree::Text;

/// Where a name occurs.
#[derive(Drop)]
pub struct Site<'a> {
    /// The number of its file.
    pub number: usize,
    /// The names of its file.
    pub file: &'a FileNames,
    /// The names of the namespaces around it.
    pub around: &'a [Text],
}
