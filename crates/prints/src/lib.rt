//! Fingerprints: the weak and strong texts of a process, and the lines of all stored texts.
//!
//! A weak text has all of a process but what it observes, and a strong text what it observed; each is written and
//! parsed back, and is named by its digest. Lines of words, paths, digests, numbers and counted bytes are those of
//! every stored form. This crate depends on `bx_tree`, `bx_digest` and `pip_model_types` for the contents of a
//! text, on `observed` for answers, and on `sha2` and `hex`. It carries the promises that each text is the one of
//! its definition, and that a line parses back to what it was written of.
#![tactic(auto)]

mod answer_lines;
mod cursor;
mod fault;
mod laws;
mod line;
mod order;
mod part;
mod printed;
mod strong_forms;
mod strong_parts;
mod weak_lines;
mod weak_parts;
mod weak_reading;
mod weak_writing;

pub use bx_tree::Memory;
pub use cursor::{Cursor, after_word, digest_of, path_of};
pub use fault::PrintFault;
pub use laws::{strong_texts, weak_texts};
pub use line::{Line, append_lines, have_lines, read_lines};
pub use order::are_dirs_rising;
pub use part::{append_counted, append_digest, append_number, append_path};
pub use printed::Printed;
pub use strong_forms::{read_strong, strong, strong_of};
pub use strong_parts::{AnswerLine, AnswerLines, StrongParts};
pub use weak_lines::{ArgKind, EnvKind, OutKind, OutdirKind, form_of, word_of};
pub use weak_parts::{Digests, WeakParts};
pub use weak_reading::{dir_inputs, read_args, read_outdirs, read_outs, read_variables, read_weak};
pub use weak_writing::{reads_back, weak};
