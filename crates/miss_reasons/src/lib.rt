//! Why a store has nothing usable for a process.
//!
//! Either no selectors are held for its weak text, and the nearest stored weak text shows what differs; or there are
//! selectors, and each has its reason. This crate depends on `two_phase_meaning` for what is usable, and on the crates of the
//! texts in a store. It carries the promise that each reason that it tells holds, and that one that holds makes the
//! selector unusable.
#![tactic(auto)]

mod laws;
mod nearest;
mod reason;
mod selectors;

pub use bx_tree::Memory;
pub use laws::reasons_exclude;
pub use nearest::Known;
pub use reason::{Near, NoFit, NoFits, ReadFault, Reason, SelectorList, reason_of};
