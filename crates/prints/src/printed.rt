//! A text with its digest.
ghost use Rattle.std.specs.Prelude.{◌≡◌, IfOk};
ghost use Rattle.sha2.specs.Sha256.{sha256};

use bx_digest::{Digest, digest_of};
use std::alloc::{AllocError, Global};

/// A text with its SHA-256 digest.
#[derive(Drop)]
pub struct Printed {
    pub text: Vec<u8>,
    pub digest: Digest,
}

impl Printed {
    // A text, hashed.
    pub(crate) fn of(text: Vec<u8>) -> Printed
        ensures text { result.text ≡ text }
        ensures digest { result.digest ≡ sha256 text.items }
    {
        let digest = digest_of(text.as_slice());
        Printed { text, digest }
    }

    /// A copy, which is not hashed again.
    pub fn copy(&self, alloc: Global) -> Result<Printed, AllocError>
        ensures text { IfOk result (λ copy. copy.text.items ≡ self.now.text.items) }
        ensures digest { IfOk result (λ copy. copy.digest ≡ self.now.digest) }
    {
        Ok(Printed {
            text: Vec::from_slice(alloc, self.text.as_slice())?,
            digest: self.digest,
        })
    }
}
