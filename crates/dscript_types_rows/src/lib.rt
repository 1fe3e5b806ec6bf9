//! The types of operators, members and ambient calls.
//!
//! This crate answers the type of an operator at the types of its operands, of a member or an index at the type of a value,
//! and of a call of an ambient function or a member at the types of its arguments. It depends on `dscript_types_meaning`
//! for the rules and on `dscript_types_data` for types. It carries the promise that each answer is that of the rules.
#![tactic(auto)]

mod access;
mod ambients;
mod holes;
mod methods;
mod operators;
mod signatures;

pub use access::{indexed, member_type};
pub use ambients::ambient_type;
pub use holes::{may_be_in_literal, may_be_in_template, may_lead_literal};
pub use methods::method_type;
pub use operators::{operated, prefixed};
