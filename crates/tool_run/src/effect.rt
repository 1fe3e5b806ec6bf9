//! The effect of one instruction outside of the machine.

use bx_tree::Path;
use observed::{Ask, End};

/// What an instruction comes to: the machine goes on, asks, has written, may not write, or stops.
#[derive(Drop)]
pub enum Effect {
    Goes,
    Asks(Ask),
    Wrote(Path),
    Refused(Path),
    Stops(End),
}
