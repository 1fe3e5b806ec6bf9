//! The command line parser.
//!
//! `specs/Words.antt` has the arguments of each command as a grammar: its word with settings, each of one word or
//! two, in any order. This crate depends on std alone. It carries the promise that arguments
//! are parsed as the one command that they are, and rejected exactly where they are none.
#![tactic(auto)]

mod command;
mod given;
mod laws;
mod order;
mod setting;
mod words;

pub use laws::{one_order, some_workers};
pub use order::{
    DEFAULT_EVAL_BUDGET, DEFAULT_TOOL_BUDGET, DEFAULT_WORKERS, MAX_EVAL_BUDGET, MAX_GENERATED_PIPS,
    MAX_KEPT, MAX_TOOL_BUDGET, MAX_WORKERS, Order,
};
pub use words::{WordFault, read_words};
