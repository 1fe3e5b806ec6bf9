//! For tests: plans of two pips, boards of them, and what their workers do there.
#![tactic(auto)]

mod bench;
mod boards;
mod plans;

pub use bench::{Bench, Fate};
use bx_tree::Memory;
pub use plans::{NO_FILES, add, plan_of, run_and_copy, sources, two_writes, write_and_copy};

/// Why a test cannot go on: there is no memory, or something is not as the test takes it to be.
#[derive(Clone, Copy)]
pub enum Fault {
    Memory,
    Path,
    Bundle,
    Pip,
    Worker,
    Claim,
    Job,
    Refused,
}

impl From<Memory> for Fault {
    fn from(_: Memory) -> Fault {
        Fault::Memory
    }
}
