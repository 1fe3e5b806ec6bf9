//! The care of a store: its check, its repair and its trim.
//!
//! A repair drops what a check finds bad, entries first. A trim leaves the first selectors of each list, the entries that
//! they name and the contents that those name; entries are dropped before the contents that they name, so that a store stays
//! honest if a trim stops halfway. Both plan all changes before the first, and stop at the first call of the store that
//! fails. This crate depends on `cache_care_check` for what is found of names, and on `prints`, `memo_format` and
//! `content_store` for what entries name. It carries the promises that a repaired store is honest and keeps what was honest,
//! and that an honest store is honest after each change of a repair or a trim.
#![tactic(auto)]

mod digests;
mod laws;
mod naming;
mod planning;
mod repairing;
mod trimming;

pub use cache_care_check::{CareFault, CareLine, CareList, check_store, check_tells, has_bad};
pub use laws::{
    repaired_is_honest, repairs_leave_repaired, repairs_stay_honest, trims_leave_trimmed,
    trims_stay_honest,
};
pub use planning::CareCount;
pub use repairing::repair_store;
pub use trimming::trim_store;
