//! The run-time values of DScript.
//!
//! Evaluation takes values apart and makes new ones, and ambient calls take and give them. This crate depends on
//! `bx_tree` and `dscript_program`. Contracts see a value as plain data, without pointers. It carries the promises
//! that a shared value is the same in all that contracts see, that a list or a function keeps its depth, that the
//! calls which make values reject those deeper than the limit, and that `===` is decided as it is defined. The
//! depth of an object is a stored number; that it is the depth of the object's fields is no invariant.
#![tactic(auto)]

mod comparing;
mod growing;
mod joining;
mod makers;
mod objects;
mod parts;
mod sharing;
mod value;

pub use comparing::{NoOrder, artifact_path, equal, static_path};
pub use growing::GrowingList;
pub use makers::{DepthFault, MAX_DEPTH, ambient_function, list_of, member_of, place_function};
pub use objects::object_of;
pub use parts::{Argument, Artifact, Callee, RelativePath, StaticDir};
pub use value::{Field, Fields, FlatValues, FunctionRef, Value, Values, field_name};
