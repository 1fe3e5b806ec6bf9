//! Path sets that were read, each with its text, so that one text need not be hashed and read twice.
ghost use Rattle.std.specs.Prelude.{◌≡◌, IfOk, Some};
ghost use Rattle.observed.specs.Texts.{read_paths_text};
ghost use Rattle.memo_format.specs.PathsTexts.{IsPathsText};

use bx_digest::{Blob, Digest};
use observed::PathSet;
use std::alloc::{AllocError, Global};
use std::marker::Model;
use std::sync::Arc;

// A text with its digest and the path set that it is.
#[derive(Drop)]
struct PathsParts {
    text: Blob,
    digest: Digest,
    asks: PathSet,
}

impl Model for PathsParts {
    ghost use Rattle.memo_format.specs.PathsTexts.{IsPathsText, PathsText};

    ghost Value = { PathsText };

    ghost view = { λ p. record { text = p.text; digest = p.digest; asks = p.asks } };

    ghost invariant = { λ p. IsPathsText (record { text = p.text; digest = p.digest; asks = p.asks }) };
}

/// A path set that was read, with its text and the digest of that. It is shared.
#[derive(Drop)]
pub struct ReadPaths {
    parts: Arc<PathsParts>,
}

impl Model for ReadPaths {
    ghost use Rattle.std.specs.Arc.{arc_value};
    ghost use Rattle.memo_format.specs.PathsTexts.{PathsText};

    ghost Value = { PathsText };

    ghost view = { λ r. arc_value r.parts };
}

impl ReadPaths {
    /// The path set of a text, with that text.
    pub fn of(alloc: Global, text: Blob, asks: PathSet) -> Result<ReadPaths, AllocError>
        requires { read_paths_text text ≡ Some asks }
        ensures text { IfOk result (λ paths. paths.text ≡ text) }
        ensures asks { IfOk result (λ paths. paths.asks ≡ asks) }
        ensures read { IfOk result IsPathsText }
    {
        let digest = text.digest();
        let parts = PathsParts { text, digest, asks };
        Ok(ReadPaths {
            parts: Arc::new(alloc, parts)?,
        })
    }

    /// The path set with its text, shared.
    pub fn share(&self) -> Result<ReadPaths, AllocError>
        ensures { IfOk result (λ paths. paths ≡ self.now) }
    {
        Ok(ReadPaths {
            parts: self.parts.clone()?,
        })
    }

    /// The text.
    pub fn text(&self) -> &Blob
        ensures text { result.now ≡ self.now.text }
        ensures read { IsPathsText self.now }
    {
        &self.parts.text
    }

    /// The digest of the text.
    pub fn digest(&self) -> Digest
        ensures digest { result ≡ self.now.digest }
        ensures read { IsPathsText self.now }
    {
        self.parts.digest
    }

    /// The path set.
    pub fn asks(&self) -> &PathSet
        ensures asks { result.now ≡ self.now.asks }
        ensures read { IsPathsText self.now }
    {
        &self.parts.asks
    }
}
