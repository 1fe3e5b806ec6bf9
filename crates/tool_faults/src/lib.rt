//! What is wrong in a text that is no tool, and in which line.
//!
//! A text that is no tool has a fault in its first line, or in a line that says something: its label, its instruction,
//! or one of its operands. This crate depends on `tool_text`, whose reading of lines it goes by, and on `bx_tree` for
//! lines. It carries the promise that a text has a fault exactly where the grammar gives it no tool, and that
//! each fault is the one of its line by definition.
#![tactic(auto)]

mod fault;
mod first_places;
mod judging;
mod laws;
mod numbers;
mod operands;

pub use bx_tree::Memory;
pub use fault::{LineFault, OperandKind, Wrong};
pub use judging::find_faults;
pub use laws::wrong_exactly;
pub use numbers::line_numbers;
