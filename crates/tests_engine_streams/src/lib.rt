//! Tests of `command` where each call of the source, the output and the notes fails in turn.
#![tactic(auto)]

#[cfg(test)]
mod tests;
