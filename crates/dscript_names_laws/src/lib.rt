//! Laws of names.
//!
//! The names that a walk through a file looks up stand among its tokens in the order in which it meets them; and in a
//! program whose names are resolved, all that is used is there. This crate depends on `dscript_grammar` for what tokens
//! derive and on `dscript_names` for what names mean, and has no code: its functions carry the laws.
#![tactic(auto)]

mod laws;

pub use laws::{names_are_met_in_order, resolved_programs_are_whole};
