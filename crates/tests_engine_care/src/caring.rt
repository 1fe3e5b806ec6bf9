//! Commands over a store, and what they come to.

use bx_io::{Keeper, Listed};
use std::alloc::{AllocError, Global};
use std::sync::Wait;
use std::thread::Threads;
use tests_with_engine::add_command;

/// Whether a command over a store writes just these notes and gives this status.
pub(crate) fn comes_to<H: Threads + Wait + Sync, K: Keeper>(
    rt: &H,
    alloc: Global,
    words: &[&str],
    keeper: &mut K,
    expected: &str,
) -> Result<bool, AllocError> {
    let mut seen = Vec::new(alloc);
    add_command(rt, alloc, words, keeper, &mut seen)?;
    Ok(seen.as_slice() == expected.as_bytes())
}

/// Whether a check gives status 0, whatever its notes.
pub(crate) fn is_honest<H: Threads + Wait + Sync, K: Keeper>(
    rt: &H,
    alloc: Global,
    keeper: &mut K,
) -> Result<bool, AllocError> {
    let mut seen = Vec::new(alloc);
    add_command(rt, alloc, &["check"], keeper, &mut seen)?;
    Ok(seen.ends_with(b"status 0"))
}

/// How many names a store holds, if it tells them.
pub(crate) fn count_names<K: Keeper>(alloc: Global, keeper: &mut K) -> Option<u64> {
    match keeper.names(alloc) {
        Listed::Names(names) => Some(names.len() as u64),
        Listed::Failed | Listed::Memory => None,
    }
}
