//! Tests of digests, trees, lists and plans: of outside vectors, and of what no program calls.
#![tactic(auto)]

#[cfg(test)]
mod tests;
