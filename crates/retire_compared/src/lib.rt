//! What a build over a store compares by digest.
//!
//! This crate has one definition, `Compared`, which the premises of builds over a store cite: that no two different
//! contents among these share a digest. It depends on `one_thread` for the sequential build, and on
//! `two_phase_meaning` for what one process and one lookup compare. It has no code.
#![tactic(auto)]
