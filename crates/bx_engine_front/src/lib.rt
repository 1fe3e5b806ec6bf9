//! The front end: from a source tree through modules, parsing, name resolution and evaluation to a checked pip
//! graph.
//!
//! The modules of a tree are found, their files are parsed, the names in them are resolved, the types of the program are
//! checked where that is asked for, it is evaluated to its pips, and the pips are checked by the rules of the graph; the first
//! pass that fails decides. Where a build asks for it, pips are taken from a store of graphs in place of evaluating the program.
//! This crate depends on `dscript_names_workspace`, `dscript_parse`, `dscript_names`, `dscript_types`, `dscript_eval` and
//! `graph_check` for these passes, on `graph_memo` for that store, and on `build_report` for errors. It carries the
//! promise that each tree gives the one plan or the one error of the definitions of the passes, in their order.
#![tactic(auto)]

mod fault;
mod front;
mod graphs;
mod kinds;
mod laws;
mod limits;
mod projects;
mod refusing;

pub use build_report::Refusal;
pub use fault::FrontFault;
pub use front::{FrontEnd, plan_of};
pub use graphs::{GraphPlan, plan_with_graphs};
pub use laws::{one_plan, some_plan, typed_trees_keep_to_kinds};
pub use limits::Limits;
