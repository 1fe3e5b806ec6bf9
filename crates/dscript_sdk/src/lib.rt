//! Dispatch of all ambient calls, methods and properties.
//!
//! Evaluation calls them in order, and the pips that they add are the list of pips. This crate joins
//! `dscript_sdk_calls`, `dscript_sdk_pips` and `dscript_sdk_execute`, which have the calls, and
//! `dscript_sdk_members`, which has the members of strings, lists and paths; those of processes and static
//! directories are here. It carries the promise that each call and each member evaluates as defined, to its value
//! or its first fault, and that a fault changes nothing.
#![tactic(auto)]

mod calling;
mod membership;
mod process_members;
mod static_members;

pub use calling::call;
pub use dscript_program::Ambient;
pub use dscript_sdk_calls::{TreeAsk, ask_tree};
pub use dscript_sdk_pips::{MAX_NUMBERED_PIPS, SdkState, Site};
pub use dscript_sdk_values::SdkFault;
pub use membership::{has_function, is_callback, member, method};
