//! The graph of a plan's pips: its text for Graphviz, and its layers.
//!
//! This crate depends on `pip_model` for the plan and on `bx_tree` for paths. It carries the promise that the text has
//! exactly a node for each pip and an arrow for each edge, and that the layers are those of the longest paths. Where a
//! pip lies in a picture, and what a page says of it, is decided above.
#![tactic(auto)]

mod ended;
mod layering;
mod nodes;
mod text;

pub use bx_tree::Memory;
pub use ended::Ended;
pub use layering::layers;
pub use nodes::kind_word;
pub use text::graph_text;
