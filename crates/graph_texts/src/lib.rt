//! The texts of the graph cache: keys, listings, and entries with all pips of a build.
//!
//! A key has the budget of evaluation and the specifications with their digests, and an entry has what the evaluation
//! of these asked of the source tree, with the digests of the answers, and the pips that it made. This crate writes
//! both, and parses entries. It depends on `prints` for the lines, on `memo_format` for the seal, on
//! `dscript_sdk_calls` for asks and on `pip_model_types` for pips. It carries the promises that an entry parses back
//! to what it was written of, that any other text is rejected, and that different keys and listings have different
//! texts.
#![tactic(auto)]

mod asks;
mod entry;
mod inputs;
mod keys;
mod laws;
mod linking;
mod listings;
mod pips;
mod process_lines;
mod rows;
mod seal_lines;

pub use asks::{AskLine, AskLines};
pub use bx_tree::Memory;
pub use entry::{GraphEntry, read_graph_entry, write_graph_entry};
pub use keys::{key_text, spec_text};
pub use laws::{entry_texts, one_key, one_listing, pip_texts};
pub use listings::listing_text;
pub use memo_format::FormatFault;
pub use pips::{append_pips, read_pips};
