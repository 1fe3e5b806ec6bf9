//! Programs and workspaces as data: what names stand for once they are resolved, and the faults of specifications.
//!
//! A workspace has its modules with their files. A program has its files by path, each with its declarations, and
//! one table of all its functions: a bound tree is a syntax tree in which a dotted name is its target, a local is
//! its number, a function its index in the table, and an ambient call its variant of one enum. `specs/` has what
//! contracts see of them, and what it means that the locals of a function are numbered consecutively. This crate
//! depends on `bx_tree` for texts and paths, and on `dscript_ast` for types as they are written and for operators.
//! It carries the promise that each ambient call has one written name, by which it is found.
#![tactic(auto)]

mod ambient;
mod bound;
mod place;
mod program;
mod spec_fault;
mod target;
mod workspace;

pub use ambient::Ambient;
pub use bound::{
    Body, BoundElement, BoundExpr, BoundHole, BoundOperand, BoundPart, BoundProp, BoundStmt,
};
pub use place::Place;
pub use program::{BoundDecl, BoundFile, DeclKind, Function, Namespace, Program};
pub use spec_fault::{Fault, SpecFault, SpecKind};
pub use target::Target;
pub use workspace::{ModuleText, Workspace};
