//! Name resolution: from the parsed files of a workspace to a program in which each name is resolved.
//!
//! What a name stands for is defined in `dscript_names_scopes` (`specs/Lookup.antt`), and to what each part of a
//! file is resolved in `dscript_names_binding` (`specs/Binding.antt`). `specs/Named.antt` joins the files of a
//! workspace to one program, and says which fault of names over all files comes first. The code looks for duplicate
//! names, collects the names of all files, and then resolves file by file, with tables in place of the lists.
//! docs/FORMATS.md has the rules in prose. `specs/Sizes.antt` gives each tree a size, which is at least what its
//! traversal counts and at most the number of its tokens. This crate also depends on `dscript_ast` for the trees
//! that it takes, on `dscript_program` for modules, for faults and for the trees that it gives, on
//! `dscript_grammar` for what tokens derive, and on `dscript_names_workspace`, whose one call it re-exports. It
//! carries the promises that a workspace has one program, or fails with its first fault, and that all numbers of a
//! program whose files are of one bundle fit into 32 bits.
#![tactic(auto)]

mod collecting;
mod counting_laws;
mod exported;
mod gathering;
mod laws;
mod owners;
mod parsed;
mod repeats;
mod resolving;
mod seen;

pub use counting_laws::{counts_are_bounded, program_counts_are_bounded};
pub use dscript_names_workspace::find_workspace;
pub use dscript_program::{
    BoundDecl, BoundExpr, BoundFile, BoundStmt, ModuleText, Program, SpecFault, SpecKind, Target,
    Workspace,
};
pub use laws::{captures_are_outer, locals_are_consecutive, one_meaning, some_meaning};
pub use parsed::Parsed;
pub use resolving::resolve;
