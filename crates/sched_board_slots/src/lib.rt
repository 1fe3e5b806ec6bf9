//! The slots of the scheduler's board: what the pips of a plan came to, as workers showed it.
//!
//! A slot holds the record of a run, a cache hit or the files of a copy, write or seal pip. `specs/` says which slots
//! agree by digest with what the other slots give for their pip (`Slots`), what all slots then come to against
//! the sequential build (`Closing`), and when nothing is left to do (`Finished`). This crate depends on `pip_view_inputs` and `pip_view` for what a pip is given,
//! on `run_record` and `memo_format` for what it came to, on `one_thread` for the sequential build, and on
//! `sched_core` for the states of pips. It carries the promise that slots which agree hold, over an honest store and
//! without a hash collision, what the sequential build gives.
#![tactic(auto)]

mod finished;
mod graph;
mod held;
mod holding;
mod laws;

pub use bx_tree::Memory;
pub use finished::{Finished, empty_slots};
pub use graph::graph_of;
pub use held::Held;
pub use holding::{hit_holds, holds_now};
pub use laws::slots_follow_one_thread;
