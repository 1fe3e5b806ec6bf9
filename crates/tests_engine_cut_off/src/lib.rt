//! Tests of `command` over what a build leaves that is cut off after each of its calls of the store.
#![tactic(auto)]

#[cfg(test)]
mod tests;
