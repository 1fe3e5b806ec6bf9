//! Tests of `bx_io`: its stores in memory, each through its bound, where their calls fail.
#![tactic(auto)]

#[cfg(test)]
mod tests;
