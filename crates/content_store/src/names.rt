//! The names under which a store holds things.
ghost use Rattle.std.specs.Prelude.{◌≡◌, ◌++◌, IfOk, string_bytes};
ghost use Rattle.hex.specs.Hex.{encode_lower};
ghost use Rattle.bx_io.specs.Names.{IsName};
ghost use Rattle.memo_format.specs.StoreNames.{at_blob, at_entry, at_list};

use bx_digest::Digest;
use bx_io::NAME_LENGTH;
use std::alloc::{AllocError, Global};

// The text of a digest after the letter of a kind and a slash, in one piece.
fn name_of(alloc: Global, kind: &str, digest: &Digest) -> Result<String, AllocError>
    ensures { IfOk result (λ name. string_bytes name ≡ kind.now ++ encode_lower digest.now) }
{
    let hex = digest.hex(alloc)?;
    let mut name = String::with_capacity(alloc, NAME_LENGTH)?;
    name.push_str(kind)?;
    name.push_str(hex.as_str())?;
    Ok(name)
}

/// Where a content is held, by its digest.
pub fn blob_name(alloc: Global, digest: &Digest) -> Result<String, AllocError>
    ensures name { IfOk result (λ name. string_bytes name ≡ at_blob digest.now) }
    ensures is_name { IfOk result (λ name. IsName (string_bytes name)) }
{
    let _bytes = digest.bytes();
    let name = name_of(alloc, "b/", digest)?;
    Ok(name)
}

/// Where the selectors of a weak text are held, by its digest.
pub fn list_name(alloc: Global, weak: &Digest) -> Result<String, AllocError>
    ensures name { IfOk result (λ name. string_bytes name ≡ at_list weak.now) }
    ensures is_name { IfOk result (λ name. IsName (string_bytes name)) }
{
    let _bytes = weak.bytes();
    let name = name_of(alloc, "w/", weak)?;
    Ok(name)
}

/// Where the entry of a strong text is held, by its digest.
pub fn entry_name(alloc: Global, strong: &Digest) -> Result<String, AllocError>
    ensures name { IfOk result (λ name. string_bytes name ≡ at_entry strong.now) }
    ensures is_name { IfOk result (λ name. IsName (string_bytes name)) }
{
    let _bytes = strong.bytes();
    let name = name_of(alloc, "e/", strong)?;
    Ok(name)
}
