//! Laws of what the faults of specifications say, and of the programs that names resolve to.
//!
//! A message comes with the fault of a specification that asked to be refused, and a place with that of a text
//! that is no list of tokens or no file. In a program whose names are resolved, functions are called with what they capture.
//! This crate depends on `bx_engine_front` for the definitions of faults, and on `dscript_names_laws` and
//! `dscript_eval_laws` for the laws of names and of evaluation; it has no code: its functions carry the laws.
#![tactic(auto)]

mod calls;
mod laws;

pub use calls::resolved_programs_call_in_full;
pub use laws::faults_say_what_they_may;
