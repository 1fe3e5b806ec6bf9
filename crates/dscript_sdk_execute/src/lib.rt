//! The ambient call `Transformer.execute`, which adds a process pip.
//!
//! The object of the call is read field by field, and then becomes a process: its arguments, its inputs and
//! outputs, each once, and no two outputs that clash. This crate depends on `dscript_sdk_pips`, whose state it
//! extends. It carries the promise that the call evaluates as defined, to its value or its first fault, and that a
//! fault leaves the state as it was.
#![tactic(auto)]

mod arguments;
mod calling;
mod clashes;
mod dependency;
mod output;
mod process;
mod request;
mod tool;
mod variables;

pub use calling::execute;
pub use clashes::has_output;
