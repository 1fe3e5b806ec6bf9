//! Tests of `command_graphs` where calls of the store of graphs fail.
#![tactic(auto)]

#[cfg(test)]
mod tests;
