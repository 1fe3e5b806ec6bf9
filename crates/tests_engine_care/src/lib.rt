//! Tests of the care of stores in memory: a store that stops after each number of calls, and one of which one call fails.
#![tactic(auto)]

mod caring;
#[cfg(test)]
mod tests;
