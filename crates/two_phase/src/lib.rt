//! The two-phase cache lookup, and saving execution records to the store.
//!
//! A lookup goes through the selectors that a store has under the weak text of a process, and takes the first whose
//! path set, asked now, gives its strong text, if the entry and all outputs are there. A save writes a record: its
//! texts and contents, then its entry, then the selector list; contents that are stored already are skipped. This
//! crate depends on `two_phase_meaning` for usable selectors and the writes of a save. It carries the promise that
//! a hit is the first usable selector, that a miss says that there is none, and that an interrupted save made a
//! prefix of its writes, but for those that would change nothing.
#![tactic(auto)]

mod fetching;
mod fitting;
mod held;
mod laws;
mod lookups;
mod path_sets;
mod rechecking;
mod recording;
mod saving;
mod store_fault;

pub use fetching::content;
pub use fitting::fits;
pub use held::HeldContents;
pub use laws::saves_stay_honest;
pub use lookups::{LookupResult, lookup, lookup_by, lookup_with};
pub use path_sets::PathSets;
pub use rechecking::{Rechecked, recheck};
pub use saving::{SaveResult, keep, keep_with, put_content};
pub use store_fault::StoreFault;
