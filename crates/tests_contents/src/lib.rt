//! Tests of `content_store` and `recent_contents`: contents in stores in memory, of which calls fail.
#![tactic(auto)]

#[cfg(test)]
mod tests;
