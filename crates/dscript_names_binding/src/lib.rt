//! Name resolution of one file: from its syntax tree to bound trees.
//!
//! `specs/Binding.antt` says to what each part of a tree is resolved, in the steps of `specs/Walk.antt`: a
//! traversal from left to right that counts locals and functions and ends at the first fault. The code is that
//! traversal; it consumes the parsed tree, so that texts and types are not copied. This crate depends on
//! `dscript_names_scopes` for targets of names, on `dscript_ast` for the trees that it takes and on
//! `dscript_program` for those that it gives. It carries the promise that a file is resolved as defined, or fails
//! with its first fault of names.
#![tactic(auto)]

mod decls;
mod exprs;
mod functions;
mod locals;
mod scene;
mod stmts;
mod walker;

pub use decls::Binder;
pub use functions::number_of;
pub use scene::Scene;
pub use walker::Walker;
