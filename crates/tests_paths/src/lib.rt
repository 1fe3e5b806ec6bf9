//! Tests of sorted paths and of tables of paths, at one example of five paths.
#![tactic(auto)]

#[cfg(test)]
mod tests;
