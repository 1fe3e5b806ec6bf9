//! Tests of what no build does yet: replays, comparisons of records, and parsers of fingerprints; and of gates,
//! which no build shows.
#![tactic(auto)]

#[cfg(test)]
mod tests;
