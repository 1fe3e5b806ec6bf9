//! Bytes that are shared, with their digest.
ghost use Rattle.std.specs.Prelude.{◌≡◌, IfOk, IfSome};
ghost use Rattle.std.specs.Arc.{arc_value};
ghost use Rattle.sha2.specs.Sha256.{sha256};

use crate::digest::{Digest, digest_of};
use std::alloc::{AllocError, Global};
use std::marker::Model;
use std::sync::{Arc, OnceLock};

// Bytes with their digest.
#[derive(Drop)]
struct Hashed {
    bytes: Arc<Vec<u8>>,
    digest: Digest,
}

impl Model for Hashed {
    ghost use Rattle.std.specs.Prelude.{◌≡◌, List, ℕ};
    ghost use Rattle.std.specs.Arc.{arc_value};
    ghost use Rattle.sha2.specs.Sha256.{sha256};

    ghost Value = { List ℕ };

    ghost view = { λ h. (arc_value h.bytes).items };

    ghost invariant = { λ h. h.digest ≡ sha256 (arc_value h.bytes).items };
}

impl Hashed {
    // The digest, if it is that of these bytes.
    fn digest_for(&self, bytes: &[u8]) -> Option<Digest>
        ensures { IfSome result (λ digest. digest ≡ sha256 bytes.now) }
    {
        if self.bytes.as_slice() == bytes {
            Some(self.digest)
        } else {
            None
        }
    }
}

// What blobs share: bytes, and their digest once somebody asked for it.
#[derive(Drop)]
struct Content {
    bytes: Arc<Vec<u8>>,
    known: OnceLock<Hashed>,
}

/// Bytes of any length, shared. Contracts see a blob as the list of its bytes. They are hashed when somebody first
/// asks for their digest, and once for all that share them: any thread may ask.
#[derive(Drop)]
pub struct Blob {
    content: Arc<Content>,
}

impl Model for Blob {
    ghost use Rattle.std.specs.Prelude.{List, ℕ};
    ghost use Rattle.std.specs.Arc.{arc_value};

    ghost Value = { List ℕ };

    ghost view = { λ b. (arc_value (arc_value b.content).bytes).items };
}

// What is known of the digest of these bytes.
fn known_digest(known: &OnceLock<Hashed>, bytes: &[u8]) -> Option<Digest>
    ensures { IfSome result (λ digest. digest ≡ sha256 bytes.now) }
{
    match known.get() {
        // Of what another thread wrote a proof knows its type alone, so the bytes are compared.
        Some(hashed) => hashed.digest_for(bytes),
        None => None,
    }
}

// Hashes bytes, and keeps the digest unless it is being kept already.
fn hash(known: &OnceLock<Hashed>, bytes: &Arc<Vec<u8>>) -> Digest
    ensures { result ≡ sha256 (arc_value bytes.now).items }
{
    let digest = digest_of(bytes.as_slice());
    if let Ok(shared) = bytes.clone() {
        let _ = known.try_set(Hashed {
            bytes: shared,
            digest,
        });
    }
    digest
}

impl Blob {
    /// A blob of these bytes.
    pub fn new(alloc: Global, bytes: Vec<u8>) -> Result<Blob, AllocError>
        ensures { IfOk result (λ blob. blob ≡ bytes.items) }
    {
        let content = Content {
            bytes: Arc::new(alloc, bytes)?,
            known: OnceLock::new(),
        };
        Ok(Blob {
            content: Arc::new(alloc, content)?,
        })
    }

    /// The bytes, in order.
    pub fn bytes(&self) -> &[u8]
        ensures { result.now ≡ self.now }
    {
        self.content.bytes.as_slice()
    }

    /// The SHA-256 digest of the bytes. It takes no memory.
    pub fn digest(&self) -> Digest
        ensures { result ≡ sha256 self.now }
    {
        match known_digest(&self.content.known, self.bytes()) {
            Some(digest) => digest,
            None => hash(&self.content.known, &self.content.bytes),
        }
    }

    /// The blob, shared: the bytes are not copied, and are hashed once for both.
    pub fn share(&self) -> Result<Blob, AllocError>
        ensures { IfOk result (λ blob. blob ≡ self.now) }
    {
        Ok(Blob {
            content: self.content.clone()?,
        })
    }
}
