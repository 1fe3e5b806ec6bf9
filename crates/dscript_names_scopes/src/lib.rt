//! Name lookup: what names stand for in blocks, namespaces, imports and modules, and among the ambient calls.
//!
//! `specs/Lookup.antt` says what a dotted name stands for, level by level, and which fault it has, by scanning
//! lists; `specs/Tables.antt` has the tables that the code searches instead. Which names a tree declares and
//! imports (`specs/Declarations.antt`) and which are declared twice (`specs/Duplicates.antt`) are definitions for
//! `dscript_names`, whose calls keep them. docs/FORMATS.md has the rules in prose. This crate depends on `bx_tree`
//! for texts, on `dscript_ast` for trees, and on `dscript_program` for ambient calls, faults and targets. It
//! carries the promise that a name resolves as defined, or fails with its fault.
#![tactic(auto)]

mod dotted;
mod found;
mod hashing;
mod indexed;
mod local;
mod lookup;
mod names;
mod opened;
mod places;
mod scopes;
mod site;
mod spaces;
mod stop;
mod tables;

pub use dotted::DottedName;
pub use found::Found;
pub use local::{Block, Local};
pub use lookup::{check_imported, check_module, found_at};
pub use names::{Declared, FileNames, Imported, Viewer, World};
pub use scopes::Scopes;
pub use site::Site;
pub use stop::Stop;
