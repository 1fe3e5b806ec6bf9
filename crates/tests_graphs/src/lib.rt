//! Tests of the store of graphs: what is kept is found, a damaged entry is not, and calls of the store fail.
#![tactic(auto)]

#[cfg(test)]
mod fixture;
#[cfg(test)]
mod tests;
