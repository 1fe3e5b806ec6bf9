//! Tests of `bundle_folder` over folders in memory whose calls fail.
//!
//! What a run of the program `bundle` can show is in `cases/`.
#![tactic(auto)]

#[cfg(test)]
mod tests;
