//! Execution records: runs of tools with the answers that they depend on, and whether those answers still hold.
//!
//! A record is made by running a tool on a view, or by a replay on stored answers. The invariant of its type is
//! that the run on its own answers is the run that it holds, so that nobody who takes a record must trust who made
//! it. A record is compared with a process and a view by digests: those of the weak texts of both processes, and
//! then, ask by ask, those of the lines of the stored and the current answer. This crate depends on `tool_run` for
//! runs and on `prints` for the texts. It carries the promise that where nothing differs, and there is no hash
//! collision among the contents, weak texts and lines of both sides, the run of the process on the view has the
//! accesses, the path set and the outcome of the record. Where nothing differs byte by byte that needs no premise.
#![tactic(auto)]

mod answer_lines;
mod answered;
mod answers;
mod holding;
mod matching;
mod matching_laws;
mod outcome;
mod record;
mod tools;
mod trace;

pub use answer_lines::line_digest;
pub use holding::{answers_hold, what_holds_is_run};
pub use matching::{LineDifference, Match, first_difference, matches, weak_digest};
pub use matching_laws::one_match;
pub use outcome::{Cause, Outcome};
pub use record::{Record, execute, execute_with, outcome_of_run, replay};
pub use tools::Tools;
pub use trace::are_same_answers;
