//! What a type says of its values.
//!
//! A value of a type is a value of each type that it fits, of each union with it, and of the types of its parts. This
//! crate depends on `dscript_types_meaning` for types, and has no code: its functions carry the laws.
#![tactic(auto)]

mod laws;

pub use laws::{fitting_values_have_types, unions_have_their_values};
