//! Tests of records and fingerprints.
mod comparisons;
mod fingerprints;
mod fixture;
mod replays;
