//! Violations: which dependency violation a disallowed access is, double writes, and the verdicts that name them.
//!
//! A verdict says how a pip ended. Which violation a denied access is depends on the pip that can produce the path
//! and on reachability in the graph. This crate depends on `pip_model` for the plan, on `observed` for accesses,
//! and on `tool_run_writes` for what lies below a directory. It carries the promises that exactly one verdict is a
//! success, and that the other pip which a violation names is the least one.
#![tactic(auto)]

mod clashes;
mod classes;
mod laws;
mod producing;
mod producing_laws;
mod verdict;

pub use bx_tree::Memory;
pub use clashes::{double_write, is_shared, outdirs_at};
pub use classes::classify;
pub use laws::leads_are_walks;
pub use producing::{dirs_at, least_unseen};
pub use producing_laws::unseen_is_produced;
pub use verdict::{DeedKind, Verdict, Violation, ViolationKind};
