//! The check of a store: which of its names are damaged, and which of its entries are not honest.
//!
//! Names are gone through in their order, so contents come before entries. Each content is read and hashed once, and
//! of each entry the tool is run once, on the contents that its texts name and on the stored answers. `specs/` says what
//! is found of a name, by the definitions of well-formed names (`memo_format`) and of honest entries
//! (`two_phase_meaning`). This crate depends on `content_store` for names and contents, on `prints` for the texts, and on
//! `run_record` for the run. It carries the promise that a check tells exactly the damaged names and the bad entries, and
//! fails only where the store did.
#![tactic(auto)]

mod checking;
mod describing;
mod fault;
mod judging;
mod known;
mod laws;
mod names;
mod running;
mod surveying;
mod texts;

pub use checking::{CareLine, CareList, check_store, has_bad};
pub use fault::CareFault;
pub use known::KnownContents;
pub use laws::{check_tells, one_finding};
pub use names::{Named, read_name};
pub use surveying::{Finding, Survey, held_entry, names_of, survey_store};
pub use texts::{strong_of, weak_of};
