//! The parts of lines, written.
ghost use Rattle.std.specs.Prelude.{◌≡◌, ◌<◌, ◌^◌, ◌++◌, OnOk, length};
ghost use Rattle.bx_tree.specs.Paths.{IsPath};
ghost use Rattle.bx_digest.specs.Digests.{IsDigest};
ghost use Rattle.prints.specs.Parts.{counted_part, digest_part, number_part, path_part};

use bx_digest::Digest;
use bx_tree::Path;
use std::alloc::{AllocError, Global};

/// Adds a path, the root as `.`, and the byte that ends it.
pub fn append_path(text: &mut Vec<u8>, path: &Path, end: u8) -> Result<(), AllocError>
    ensures text { OnOk result (text.new.items ≡ text.old.items ++ path_part end path.now) }
    ensures path { IsPath path.now }
{
    text.extend_from_slice(path.text().as_bytes())?;
    text.push(end)?;
    Ok(())
}

/// Adds the 64 digits of a digest, and the byte that ends it.
pub fn append_digest(
    alloc: Global,
    text: &mut Vec<u8>,
    digest: &Digest,
    end: u8,
) -> Result<(), AllocError>
    ensures text { OnOk result (text.new.items ≡ text.old.items ++ digest_part end digest.now) }
    ensures digest { IsDigest digest.now }
{
    let _bytes = digest.bytes();
    text.extend_from_slice(digest.hex(alloc)?.as_bytes())?;
    text.push(end)?;
    Ok(())
}

/// Adds a number, in decimal, and the byte that ends it.
pub fn append_number(
    alloc: Global,
    text: &mut Vec<u8>,
    number: u64,
    end: u8,
) -> Result<(), AllocError>
    ensures { OnOk result (text.new.items ≡ text.old.items ++ number_part end number) }
{
    text.extend_from_slice(format!(in alloc; "{number}")?.as_bytes())?;
    text.push(end)?;
    Ok(())
}

/// Adds bytes with their number before them, and the byte that ends them.
pub fn append_counted(
    alloc: Global,
    text: &mut Vec<u8>,
    bytes: &[u8],
    end: u8,
) -> Result<(), AllocError>
    ensures text { OnOk result (text.new.items ≡ text.old.items ++ counted_part end bytes.now) }
    ensures count { length bytes.now < 2 ^ 64 }
{
    append_number(alloc, text, bytes.len() as u64, b' ')?;
    text.extend_from_slice(bytes)?;
    text.push(end)?;
    Ok(())
}
