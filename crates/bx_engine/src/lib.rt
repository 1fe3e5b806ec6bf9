//! The engine's entry point: runs a command from its arguments and input to its status, output and notes.
//!
//! This crate depends on `bx_engine_words` for the arguments, on `bx_io` for the outside, on `bx_tree` for bundles,
//! on `bx_engine_front` for the plan of a build, which may come from a store of graphs, on `sched_board` and `worker` for the threads that work on it, on
//! `retire`, which collects the results and may run the rest, on `build_report` for its texts, on `cache_care` for the
//! care of a store, and on `bx_engine_generate` for workloads. It carries the promise that all others are for: the call
//! writes the bytes and gives the status that the definition of a build gives for the input, whatever an honest store
//! holds, whatever the number of workers and however they interleave, be it a build or an error.
#![tactic(auto)]

mod build;
mod care;
mod crew;
mod fault;
mod laws;
mod limits;
mod output;
mod planning;
mod reading;
mod response;
mod status;
mod top;
mod workload;
mod writing;

pub use bx_engine_front::{FrontEnd, FrontFault, Refusal};
pub use bx_engine_generate::generate;
pub use bx_engine_words::{Order, WordFault, read_words};
pub use fault::InputFault;
pub use laws::{one_end, some_end, stores_stay_honest};
pub use planning::front;
pub use status::Status;
pub use top::{command, command_graphs};
