//! Tests of what no build prints: tokens as they are written, files as they are formatted, and the size of their
//! nodes.
#![tactic(auto)]

#[cfg(test)]
mod tests;
