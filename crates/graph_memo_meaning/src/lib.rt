//! The meaning of a store of graphs: which stores are honest, which entries are usable, and what is kept.
//!
//! Evaluation depends on the texts of specifications, on a budget of steps, and on what the source tree answers to
//! its asks. An entry has all of these by their digests, with the pips that evaluation made. This crate has the
//! definitions, and the laws that a usable entry of an honest store has the pips that evaluation would make, and
//! that a store stays honest while entries are kept. Where a law compares texts by their digests, it has the premise
//! that there is no hash collision among those that it compares. The crate depends on `graph_texts` for the texts,
//! and on `dscript_eval_meaning` for what evaluation makes.
#![tactic(auto)]

mod laws;

pub use laws::{
    empty_is_honest, graph_puts_add, graph_puts_stay_honest, graphs_hit, kept_is_usable,
};
