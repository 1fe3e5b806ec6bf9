//! Tests of `bx_io_system` and `bx_io_folder`: streams that fail in the middle, and a folder on a full disk and with other
//! things in it.
#![tactic(auto)]

#[cfg(test)]
mod tests;
