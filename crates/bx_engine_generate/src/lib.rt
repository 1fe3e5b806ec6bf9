//! The generator of large workloads: a source tree of any number of pips, as a bundle, from a seed.
//!
//! `specs/Generated.antt` has the text: a specification with one line for each pip, which writes a number or joins what
//! two earlier pips made, and the tool that joins. The numbers are drawn by a linear congruential generator. This crate
//! depends on `bx_tree` for bundles. It carries the promise that the text is exactly the one of its definition.
#![tactic(auto)]

mod generating;
mod numbers;
mod pip_lines;

pub use generating::generate;
