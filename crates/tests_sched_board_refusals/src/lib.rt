//! Tests of what the scheduler's board refuses, with ample memory.
#![tactic(auto)]

#[cfg(test)]
mod lies;
#[cfg(test)]
mod runs;
