//! The processes that the next build over a store would run, and why.
//!
//! It goes through the pips of a plan as a build over the store does, and runs in memory what is not cached; nothing is
//! saved. This crate depends on `one_thread` and `two_phase`, by whose calls a build goes, on `miss_reasons` for the reasons, and
//! on `retire`, with whose definition of hits its own agrees. It carries the promise that it names exactly the
//! processes that a build over this store runs where no call of the store fails, each with a reason that holds.
#![tactic(auto)]

mod finding;
mod laws;
mod taking;

pub use bx_tree::Memory;
pub use finding::{Miss, find_misses};
pub use laws::{fair_misses, misses_are_the_rest, reasoned_run};
pub use miss_reasons::ReadFault;
