//! What a weak text says.
ghost use Rattle.std.specs.Prelude.{◌≡◌};

use bx_digest::Digest;
use pip_model_types::ProcessDesc;
use std::marker::Model;

/// Digests, in order. Contracts see them as a list.
#[derive(Drop)]
pub struct Digests {
    digests: Vec<Digest>,
}

impl Model for Digests {
    ghost use Rattle.std.specs.Prelude.{List, ℕ};

    ghost Value = { List (List ℕ) };

    ghost view = { λ d. d.digests.items };
}

impl Digests {
    /// These digests.
    pub fn of(digests: Vec<Digest>) -> Digests
        ensures { result ≡ digests.items }
    {
        Digests { digests }
    }

    /// The digests, in order.
    pub fn digests(&self) -> &[Digest]
        ensures { result.now ≡ self.now }
    {
        self.digests.as_slice()
    }
}

/// What a weak text says: a process, the steps that its tool may take, and the digests of its executable and,
/// in their order, of its declared files. A text names no pips: its declared files are given as source files,
/// and its input directory number k as one of pip k.
#[derive(Drop)]
pub struct WeakParts {
    pub process: ProcessDesc,
    pub budget: u64,
    pub exe: Digest,
    pub files: Digests,
}
