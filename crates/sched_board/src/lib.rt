//! The scheduler's board: what the threads of a build share under one lock.
//!
//! A `Board` is a plan, its sources, the core, the history of all events and a slot for each pip. Workers claim pips,
//! say whether they found them in the store, publish what they came to, complete them or give them back; each call
//! appends just its own event, or nothing. What is published is compared by digest with what the board's own slots
//! give, and refused where it differs. Two ledgers tie the shares of the workers to their board: one counts their
//! events, the other who was told that all is over. This crate depends on `sched_core` for the table of events and on
//! `sched_board_slots` for what slots hold. It carries the promise that at each moment at which the lock is free the
//! history is legal and the slots fit it, and that the finished slots hold, over an honest store and without a hash
//! collision, what the sequential build gives.
#![tactic(auto)]

mod answers;
mod board;
mod comparing;
mod opening;
mod shown;
mod tokens;

pub use answers::{Claim, PublishFault, Unfit, Unlike};
pub use board::Board;
pub use bx_tree::Memory;
pub use opening::{Blank, NewBoard};
pub use sched_board_slots::{Finished, Held};
pub use shown::Shown;
pub use tokens::{Job, Share, Shut};
