//! Conversion between run-time values and the arguments and results of ambient calls.
//!
//! Here are the faults of a call, the kinds that its arguments must have, objects with known fields, and texts,
//! numbers and lists within the limits. This crate depends on `dscript_value`. It carries the promise that a value
//! is converted exactly where it has the kind, and gives its first fault otherwise.
#![tactic(auto)]

mod answers;
mod arguments;
mod fault;
mod kinds;
mod limits;
mod objects;
mod reading;

pub use answers::{grown_list, list_value, number_value, text_value};
pub use arguments::{first_argument, two_arguments};
pub use fault::SdkFault;
pub use kinds::{
    read_argument, read_directory, read_file, read_flag, read_items, read_path, read_text,
    read_values,
};
pub use limits::{MAX_LIST_ITEMS, MAX_TEXT_BYTES};
pub use objects::read_object;
pub use reading::{
    FromValue, read_each, read_field, read_list, read_list_field, read_optional,
    read_optional_list, share_file,
};
