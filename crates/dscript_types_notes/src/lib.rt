//! What types mean that are written in a program.
//!
//! This crate finds the declarations of types by their names, which are put into tables once, and tells what an annotation, an
//! interface or an alias means where what is known of other declarations is in a table. It depends on
//! `dscript_types_meaning` for the rules, on `dscript_names_scopes` for dotted names, and on `dscript_types_known` for
//! findings. It carries the promise that a name is found as defined, and that what is found of an annotation is what the
//! rules say, however many declarations may be looked into.
#![tactic(auto)]

mod kinds;
mod known_names;
mod names;
mod notes;
mod spaces;
mod world;

pub use names::TypeNames;
pub use notes::{declared_type, meaning, noted};
pub use spaces::{FoundType, found_type};
pub use world::{Place, World, names_around};
