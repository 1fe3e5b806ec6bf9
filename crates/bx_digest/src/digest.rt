//! Digests, and their text of hexadecimal digits.
ghost use Rattle.std.specs.Prelude.{◌≡◌, ◌↔◌, IsOk, IsTrue, IfOk, string_bytes};
ghost use Rattle.hex.specs.Hex.{encode_lower};
ghost use Rattle.sha2.specs.Sha256.{sha256};
ghost use Rattle.std.specs.Str.{bytes_eq};
ghost use Rattle.std.proofs.Common.{rules};
ghost use Rattle.std.proofs.lemmas.Cmp.{nat_list_eq_equiv};
ghost use Rattle.std.specs.Cmp.{partial_equiv_from_equiv};
ghost use Rattle.bx_digest.specs.Digests.{IsDigest, IsHexText};

use sha2::{Digest as Hasher, Sha256};
use std::alloc::{AllocError, Global};
use std::marker::Model;

/// The number of bytes in a digest.
pub const DIGEST_BYTES: usize = 32;

/// The number of hexadecimal digits in a digest's text.
pub const HEX_DIGITS: usize = 64;

/// A SHA-256 digest, as FIPS 180-4 defines it. Contracts see it as the list of its 32 bytes.
#[derive(Clone, Copy, Debug)]
pub struct Digest {
    bytes: [u8; DIGEST_BYTES],
}

impl Model for Digest {
    ghost use Rattle.std.specs.Prelude.{List, ℕ};
    ghost use Rattle.hex.specs.Hex.{IsBytes};

    ghost Value = { List ℕ };

    ghost view = { λ d. d.bytes };

    ghost inverse = { λ d. record { bytes = d } };

    ghost invariant = { λ d. IsBytes d.bytes };
}

/// The text is not 64 hexadecimal digits in lower case.
#[derive(Clone, Copy, Debug, PartialEq, Eq)]
pub struct NotHex;

/// The SHA-256 digest of some bytes.
pub fn digest_of(bytes: &[u8]) -> Digest
    ensures { result ≡ sha256 bytes.now }
{
    Digest {
        bytes: Sha256::digest(bytes),
    }
}

// Whether a digest's bytes have this text.
fn has_text(bytes: &[u8; DIGEST_BYTES], text: &[u8]) -> bool
    ensures { IsTrue result ↔ (encode_lower bytes.now ≡ text.now) }
{
    let mut digits = [0; HEX_DIGITS];
    hex::encode_to_slice(bytes, &mut digits).is_ok() && digits.as_slice() == text
}

impl Digest {
    /// The bytes of the digest, in order.
    pub fn bytes(&self) -> &[u8]
        ensures bytes { result.now ≡ self.now }
        ensures is_digest { IsDigest self.now }
    {
        &self.bytes
    }

    /// The text of the digest: two hexadecimal digits in lower case for each byte, 64 in all.
    pub fn hex(&self, alloc: Global) -> Result<String, AllocError>
        ensures { IfOk result (λ text. string_bytes text ≡ encode_lower self.now) }
    {
        hex::encode(alloc, self.bytes())
    }

    /// The digest with this text. Upper-case digits are refused.
    pub fn from_hex(text: &[u8]) -> Result<Digest, NotHex>
        ensures value { IfOk result (λ digest. encode_lower digest ≡ text.now) }
        ensures digits { IsOk result ↔ IsHexText text.now }
    {
        let mut bytes = [0; DIGEST_BYTES];
        if hex::decode_to_slice(text, &mut bytes).is_err() {
            return Err(NotHex);
        }
        if !has_text(&bytes, text) {
            return Err(NotHex);
        }
        Ok(Digest { bytes })
    }
}

impl PartialEq for Digest {
    ghost eq = { bytes_eq };

    ghost laws = { partial_equiv_from_equiv nat_list_eq_equiv };

    fn eq(&self, other: &Digest) -> bool {
        self.bytes() == other.bytes()
    }
}

impl Eq for Digest {
    ghost laws = { nat_list_eq_equiv };
}
