//! Seals: the last line of a stored form, which names the digest of all bytes before it.
ghost use Rattle.std.specs.Prelude.{◌≡◌, ◌++◌, IfOk, OnOk};
ghost use Rattle.memo_format.specs.Seals.{Unseals, seal_line as line_of, sealed};

use bx_digest::digest_of;
use prints::{PrintFault, append_digest};
use std::alloc::{AllocError, Global};

/// The bytes of the line of a seal: its word, a space, 64 digits and a newline.
pub const SEAL_BYTES: usize = 70;

fn seal_line(alloc: Global, body: &[u8]) -> Result<Vec<u8>, AllocError>
    ensures { IfOk result (λ line. line.items ≡ line_of body.now) }
{
    let mut line = Vec::from_slice(alloc, b"seal ")?;
    append_digest(alloc, &mut line, &digest_of(body), b'\n')?;
    Ok(line)
}

/// Adds the seal of a body to it.
pub fn seal(alloc: Global, text: &mut Vec<u8>) -> Result<(), AllocError>
    ensures { OnOk result (text.new.items ≡ sealed text.old.items) }
{
    let line = seal_line(alloc, text.as_slice())?;
    text.extend_from_slice(line.as_slice())
}

/// The body of a text whose seal fits.
pub fn unseal(alloc: Global, text: &[u8]) -> Result<&[u8], PrintFault>
    ensures { Unseals result text.entry.now }
{
    if text.len() < SEAL_BYTES {
        return Err(PrintFault::BadPrint);
    }
    let (body, line) = text.split_at(text.len() - SEAL_BYTES);
    if line != seal_line(alloc, body)?.as_slice() {
        return Err(PrintFault::BadPrint);
    }
    Ok(body)
}
