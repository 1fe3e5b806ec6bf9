//! The store of graphs: what was evaluated before is taken from it, and what was evaluated is kept.
//!
//! An entry is found by the digest of its key, which has the budget and all specifications of a workspace. It is taken
//! where all texts that it names are held, and each of its asks is answered by the source tree as it was when the
//! entry was kept. Keeping puts these texts, and then the entry. This crate depends on `graph_memo_meaning` for usable
//! entries and on `two_phase` for the puts of contents. It carries the promise that a hit has the pips of a usable
//! entry, that a miss says that there is none, and that an interrupted keep made a prefix of its puts.
#![tactic(auto)]

mod finding;
mod keeping;
mod laws;

pub use finding::{GraphFound, find_graph};
pub use keeping::keep_graph;
pub use laws::{keeps_stay_honest, kept_is_usable};
pub use two_phase::SaveResult;
