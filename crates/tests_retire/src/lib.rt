//! Tests of `retire` over slots of all kinds: whatever they hold, it gives what the reference build gives.
#![tactic(auto)]

mod builds;
mod fillings;
#[cfg(test)]
mod tests;

pub use builds::{Tally, is_reference, planned};
pub use fillings::{Filled, slots_for};
