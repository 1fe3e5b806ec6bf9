//! Tests of what workers make on the scheduler's board, with ample memory.
#![tactic(auto)]

#[cfg(test)]
mod histories;
