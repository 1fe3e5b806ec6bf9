//! The parser of the tool language.
//!
//! A tool is a small program in a file. This crate parses its text, after a grammar, into a list of instructions
//! whose jumps are indices into that list. It depends on `bx_tree` for shared bytes. It carries the promise that a
//! text is parsed exactly where the grammar gives it a tool, as the one tool that has that text.
#![tactic(auto)]

mod bytes;
mod fault;
mod instr;
mod labels;
mod laws;
mod limits;
mod lines;
mod op;
mod operands;
mod reading;
mod separating;
mod tool;

pub use bytes::{is_number, value_below};
pub use fault::ToolFault;
pub use instr::line_of;
pub use labels::Table;
pub use laws::one_tool;
pub use limits::{MAX_EXIT, REGISTERS};
pub use lines::{cut, label_parts, says, skip_blanks, spoken};
pub use op::{Op, op_of};
pub use operands::{code_of, operand_of, register_of};
pub use reading::{is_of_second, read_tool};
pub use separating::texts_of;
pub use tool::{Instr, Operand, Register, Tool};
