//! Retirement: the one build of all pips, by what workers did ahead, over a store or without one.
//!
//! The pips are decided one after another. The run in the slot of a process is accepted where it is the run of now, byte
//! by byte; else, where the store is used, a cached result is reused; else the process runs here. After all are decided,
//! the records of the successful runs are saved. `specs/` says which slots are accepted, which processes are cache hits,
//! which records are of successes, and when no tool runs. This crate depends on `sched_board_slots` for slots, on
//! `two_phase` for lookups and saves, on `one_thread` for the definition of a build, and on `retire_compared` for what a
//! build compares by digest. It carries the promise that a build gives what the sequential build without a cache gives,
//! whatever the slots hold and whoever filled them: over an honest store, without a hash collision, which it leaves
//! honest, and without a store with no premise at all.
#![tactic(auto)]

mod build_laws;
mod deciding;
mod retiring;
mod savable;
mod saving;
mod taking;

pub use build_laws::{
    all_are_hits, nothing_is_accepted, one_hit_set, runs_are_compared, successes_are_compared,
    successes_fit, weak_texts_differ,
};
pub use bx_tree::Memory;
pub use retiring::{RetireTally, Retired, retire};
