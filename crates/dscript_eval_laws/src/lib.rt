//! Laws of what programs evaluate to.
//!
//! This crate depends on `dscript_eval_meaning` for the semantics, and has no code: its functions carry the laws.
#![tactic(auto)]

mod laws;

pub use laws::{
    asks_decide, calls_hold_what_is_captured, frames_have_their_locals,
    messages_are_of_specifications, pips_are_a_list,
};
