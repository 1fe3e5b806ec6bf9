//! Reads the source to its end, or to one byte past the limit on an input.

ghost use Rattle.std.specs.Prelude.{◌≡◌, ◌≢◌, ◌≤◌, ◌<◌, ◌++◌, ℕ, List, true, IfOk, IsErrOf, length, vec_len};
ghost use Rattle.bx_io.specs.Told.{Moves, NoneLeft};
ghost use Rattle.bx_io.specs.Causes.{HasCause};
ghost use Rattle.bx_engine.specs.Known.{MovesPiece};
ghost use Rattle.bx_engine.specs.declared.reading.ReadFault.TheVariants as read_faults;

use crate::limits::{READ_LIMIT, READ_PIECE};
use bx_io::{Failed, Source};
use bx_tree::MAX_BUNDLE_BYTES;
use std::alloc::{AllocError, AllocFailed, Global};

/// Why an input was not read.
#[derive(Drop)]
pub(crate) enum ReadFault {
    Failed,
    Memory,
}

impl From<Failed> for ReadFault {
    ghost from_gives = { λ _ e. e ≡ read_faults.Failed };

    fn from(_failed: Failed) -> ReadFault {
        ReadFault::Failed
    }
}

impl From<AllocError> for ReadFault {
    ghost from_gives = { λ _ e. e ≡ read_faults.Memory };

    fn from(_error: AllocError) -> ReadFault {
        ReadFault::Memory
    }
}

impl<T: Drop> From<AllocFailed<T>> for ReadFault {
    ghost from_gives = { λ _ e. e ≡ read_faults.Memory };

    fn from(_error: AllocFailed<T>) -> ReadFault {
        ReadFault::Memory
    }
}

/// A vector of this many zeroes.
fn zeroes(alloc: Global, count: usize) -> Result<Vec<u8>, AllocError>
    ensures { IfOk result (λ bytes. vec_len bytes ≡ count) }
{
    vec![in alloc; 0u8; count]
}

/// Reads one piece into the buffer, and appends it to `held`. Gives the number of bytes that were read.
fn read_piece<S: Source>(
    source: &mut S,
    buffer: &mut [u8],
    held: &mut Vec<u8>,
) -> Result<usize, ReadFault>
    ensures moved { IfOk result (λ count.
        MovesPiece (S.given source.old) (S.given source.new) (S.left source.old) (S.left source.new)
        held.old.items held.new.items count) }
    ensures count { IfOk result (λ count. count ≤ length buffer.old) }
    ensures gave { (piece : List ℕ) × (S.given source.new ≡ S.given source.old ++ piece)
        × Moves (S.left source.old) (S.left source.new) piece }
    ensures end { result ≡ Ok 0 → 0 < length buffer.old → S.ended source.new ≡ true }
    ensures none_left { result ≡ Ok 0 → 0 < length buffer.old → NoneLeft (S.left source.new) }
    ensures cause { HasCause (S.faults source.old) (S.faults source.new) (IsErrOf result ReadFault.Failed) }
    ensures no_fault { result ≢ Err ReadFault.Failed → S.faults source.new ≡ S.faults source.old }
{
    let count = source.read(buffer)?;
    held.extend_from_slice(&buffer[..count])?;
    Ok(count)
}

/// Reads up to the source's end, or until one byte more is held than a bundle may have.
pub(crate) fn read_all<S: Source>(alloc: Global, source: &mut S) -> Result<Vec<u8>, ReadFault>
    ensures piece { (piece : List ℕ) × (S.given source.new ≡ S.given source.old ++ piece)
        × Moves (S.left source.old) (S.left source.new) piece }
    ensures gave { IfOk result (λ bytes. S.given source.new ≡ S.given source.old ++ bytes.items) }
    ensures moved { IfOk result (λ bytes. Moves (S.left source.old) (S.left source.new) bytes.items) }
    ensures bound { IfOk result (λ bytes. vec_len bytes ≤ READ_LIMIT) }
    ensures end { IfOk result (λ bytes. vec_len bytes ≤ MAX_BUNDLE_BYTES → S.ended source.new ≡ true) }
    ensures none_left { IfOk result (λ bytes.
        vec_len bytes ≤ MAX_BUNDLE_BYTES → NoneLeft (S.left source.new)) }
    ensures cause { HasCause (S.faults source.old) (S.faults source.new) (IsErrOf result ReadFault.Failed) }
    ensures no_fault { result ≢ Err ReadFault.Failed → S.faults source.new ≡ S.faults source.old }
{
    let mut held = Vec::new(alloc);
    let mut buffer = zeroes(alloc, READ_PIECE)?;
    'pieces: while held.len() < READ_LIMIT {
        let wanted = READ_PIECE.min(READ_LIMIT - held.len());
        let count = read_piece(source, &mut buffer[..wanted], &mut held)?;
        if count == 0 {
            return Ok(held);
        }
    }
    Ok(held)
}
