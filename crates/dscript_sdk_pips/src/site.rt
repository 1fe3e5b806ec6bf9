//! The place of a call.
use bx_tree::Path;

/// The place of a call: its specification file.
#[derive(Drop)]
pub struct Site {
    pub file: Path,
}
