//! Tests of `command` where each call of the store and of its reader fails in turn.
#![tactic(auto)]

#[cfg(test)]
mod tests;
