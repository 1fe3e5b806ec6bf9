//! The definitions from before there were listings with a pattern, and the law that stores of then stay as they were.
//!
//! A store keeps the texts of runs of an earlier program. This crate has the definitions of tools, runs, path sets,
//! strong texts, honest stores and usable selectors by which that program wrote it, and carries the promise that none
//! of it is lost: for a process whose executable is no tool of the second version, run, path set and texts are what
//! they were; a store that was honest is honest; and what was usable is usable. It depends on `two_phase_meaning` for
//! the definitions of now.
#![tactic(auto)]

mod laws;

pub use laws::{honest_stays_honest, runs_are_as_before, texts_are_as_before, usable_stays_usable};
