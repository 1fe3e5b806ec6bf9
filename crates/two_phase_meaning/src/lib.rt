//! The meaning of a cache store: which stores are honest, which selectors are usable, and what is saved for a
//! record.
//!
//! A store is honest where each of its entries says what a run on the contents that it names gives, and a process
//! may reuse what a usable selector leads to. This crate has both definitions, the writes of a save, and the laws
//! that a usable selector of an honest store gives what the run would give, and that a store stays honest while
//! records are saved. Where a law compares contents by their digests, it has the premise that there is no hash
//! collision among those that it compares. The crate depends on `prints`, `run_record`, `memo_format` and
//! `content_store` for the texts, the runs, the digests and the names that it speaks of.
#![tactic(auto)]

mod laws;

pub use laws::{
    empty_is_honest, good_files_fit, hits, others_stay, puts_add, puts_stay_honest,
    saved_is_usable, usable_at_one,
};
