//! Laws of builds over a store, of which each crate below has one step.
//!
//! What is compared by digest in a build is one list, which the pips, the tree and the store determine; each store has
//! a hit set for a build; in a second build nothing is compared that was not in the first, so that it runs no tool where
//! no call of its store fails; and a store that began empty is honest after any number of builds, wherever each was cut
//! off. This crate depends on `retire` for the definitions of builds over a store, and has no code: its functions
//! carry the laws.
#![tactic(auto)]

mod again;
mod compared;
mod hit_sets;
mod series;

pub use again::second_build;
pub use compared::what_is_compared_is_listed;
pub use hit_sets::some_hit_set;
pub use series::{series_of_builds_stay_honest, stores_stay_honest};
