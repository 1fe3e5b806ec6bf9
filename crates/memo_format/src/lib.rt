//! The cache's stored formats: selector lists and cache entries.
//!
//! A selector list has, for one weak text, path sets of earlier runs and the strong texts of their answers; an
//! entry has the outputs of a run under its strong text. Each ends with a seal. This crate writes and parses both,
//! says which names of a store are well-formed, and has the result of a lookup. It depends on `prints` for the
//! lines. It carries the promise that a form parses back to what it was written of, and that a text which is no
//! form, or has another seal, is rejected.
#![tactic(auto)]

mod answer_list;
mod entry;
mod fault;
mod found;
mod laws;
mod outputs;
mod read_paths;
mod sealing;
mod selector;

pub use answer_list::AnswerList;
pub use bx_tree::Memory;
pub use entry::{Entry, OutputLine, OutputLines, read_entry, seal_of, write_entry};
pub use fault::FormatFault;
pub use found::Found;
pub use laws::{entry_texts, selector_texts};
pub use outputs::{digest_of_outputs, outputs_of};
pub use read_paths::ReadPaths;
pub use sealing::{SEAL_BYTES, seal, unseal};
pub use selector::{MAX_SELECTORS, Selector, read_selectors, write_selectors};
