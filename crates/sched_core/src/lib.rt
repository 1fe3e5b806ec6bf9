//! The scheduler's core: events of workers at pips, the table of where each is allowed, and the state after it.
//!
//! `Core` takes one event at a time, and refuses what the table does not allow. This crate depends on the standard
//! library alone, and knows of a pip its kind and its inputs. It carries the promises that a step succeeds exactly
//! where the table allows it, and the laws of every legal list of events.
#![tactic(auto)]

mod event;
mod graph;
mod illegal;
mod indexes;
mod laws;
mod machine;
mod readiness;
mod ready_set;
mod state;

pub use event::Event;
pub use graph::{Graph, Node, PipNumbers};
pub use illegal::Illegal;
pub use laws::{legal_events, settled_at_the_end};
pub use machine::{Core, MAX_WORKERS};
pub use state::PipState;
