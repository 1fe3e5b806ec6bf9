//! Hashes of dotted names.

ghost use Rattle.std.specs.Prelude.{◌≡◌};
ghost use Rattle.dscript_names_scopes.specs.Hashes.{name_hash, text_hash};

use bx_tree::Text;

/// The hash of no bytes.
pub(crate) const FIRST_HASH: u64 = 14_695_981_039_346_656_037;

/// What a hash is multiplied by after each byte.
pub(crate) const HASH_FACTOR: u64 = 1_099_511_628_211;

/// The hash of what comes before, with these bytes after it.
pub(crate) fn text_hash(before: u64, bytes: &[u8]) -> u64
    ensures { result ≡ text_hash before bytes.now }
{
    let mut hash = before;
    'bytes: for byte in bytes {
        hash = (hash ^ (*byte as u64)).wrapping_mul(HASH_FACTOR);
    }
    hash
}

/// The hash of the name with these parts.
pub(crate) fn name_hash(parts: &[Text]) -> u64
    ensures { result ≡ name_hash parts.now }
{
    let mut hash = FIRST_HASH;
    'parts: for part in parts {
        hash = text_hash(hash, part.bytes());
    }
    hash
}
