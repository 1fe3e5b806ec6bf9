//! The workers of a build: each claims pips of a board that all share, looks them up or runs them, and shows what they
//! came to.
//!
//! All that a worker does with the board is in functions over the board alone, each of which begins by asking whether its
//! share and its job fit it (`locked`), since nothing is known of a value that was under a lock but what its type keeps;
//! lookups and runs are outside of the lock (`showing`). This crate depends on `sched_board` for the board, on `two_phase`
//! for lookups and on `run_record` for runs; with `bx_engine` it alone takes the handle to threads. It carries the promise
//! that a worker stops only when nothing is left to do, or says why: it was refused, or memory was wanting.
#![tactic(auto)]

mod locked;
mod showing;
mod tally;
mod worker;
mod working;

pub use tally::{Leave, Tally};
pub use worker::Worker;
