//! Tests of `command` with workers: that their runs overlap, that they look before they run, and what becomes of a build
//! of which a worker finds no memory, or one reader alone fails.
#![tactic(auto)]

mod failing;
mod meeting;
mod scarce;
#[cfg(test)]
mod tests;

pub use failing::OneFailsKeeper;
pub use meeting::MeetGate;
pub use scarce::{ScarceKeeper, ScarceReader};
