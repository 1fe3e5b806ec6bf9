//! Asks and their order.
ghost use Rattle.std.specs.Prelude.{◌≡◌, ◌==◌, ◌&&◌, IfOk};
ghost use Rattle.std.proofs.Common.{rules};
ghost use Rattle.std.specs.Cmp.Lexicographic.{slice_cmp};
ghost use Rattle.std.specs.Ordering.{as_partial_cmp, nat_cmp, ordering_then};
ghost use Rattle.std.specs.Str.{bytes_eq};
ghost use Rattle.observed.specs.Asks.{has_pattern as is_by_pattern, is_listing as asks_names};
ghost use Rattle.observed.specs.Asks.{kind_pattern, kind_place, ask_cmp, same_ask};
ghost use Rattle.observed.specs.Orders.{ask_cmp_total, ask_cmp_matches, same_ask_equiv, same_ask_partial};
ghost use Rattle.observed.specs.Orders.{ask_cmp_partial};

use bx_path::Pattern;
use bx_tree::Path;
use std::alloc::AllocError;
use std::cmp::Ordering;

/// What is asked of a path: the bytes of the file there, what is there, the names in the directory, or those of
/// the names that a pattern matches.
#[derive(Drop)]
pub enum AskKind {
    Read,
    Probe,
    List,
    Match(Pattern),
}

impl AskKind {
    // The place of the kind among those of one path.
    fn place(&self) -> u8
        ensures { result ≡ kind_place self.now }
    {
        match self {
            AskKind::Read => 0,
            AskKind::Probe => 1,
            AskKind::List => 2,
            AskKind::Match(_) => 3,
        }
    }

    // The bytes of the pattern, none where there is none.
    fn pattern(&self) -> &[u8]
        ensures { result.now ≡ kind_pattern self.entry.now }
    {
        match self {
            AskKind::Read | AskKind::Probe | AskKind::List => b"".as_slice(),
            AskKind::Match(pattern) => pattern.text(),
        }
    }

    // Whether the kind and the pattern are those of another.
    fn is_same(&self, other: &AskKind) -> bool
        ensures { result
            ≡ (kind_place self.now == kind_place other.now
            && bytes_eq (kind_pattern self.now) (kind_pattern other.now)) }
    {
        self.place() == other.place() && self.pattern() == other.pattern()
    }

    // By the place of the kind, and then by the bytes of the pattern.
    fn compare(&self, other: &AskKind) -> Ordering
        ensures { result
            ≡ ordering_then (nat_cmp (kind_place self.now) (kind_place other.now))
            (slice_cmp nat_cmp (kind_pattern self.now) (kind_pattern other.now)) }
    {
        self.place()
            .cmp(&other.place())
            .then(self.pattern().cmp(other.pattern()))
    }

    /// Whether a pattern says which names are asked for.
    pub fn has_pattern(&self) -> bool
        ensures { result ≡ is_by_pattern self.now }
    {
        match self {
            AskKind::Read | AskKind::Probe | AskKind::List => false,
            AskKind::Match(_) => true,
        }
    }

    /// Whether names are asked for.
    pub fn is_listing(&self) -> bool
        ensures { result ≡ asks_names self.now }
    {
        match self {
            AskKind::Read | AskKind::Probe => false,
            AskKind::List | AskKind::Match(_) => true,
        }
    }

    /// The kind, shared.
    pub fn share(&self) -> Result<AskKind, AllocError>
        ensures { IfOk result (λ kind. kind ≡ self.now) }
    {
        match self {
            AskKind::Read => Ok(AskKind::Read),
            AskKind::Probe => Ok(AskKind::Probe),
            AskKind::List => Ok(AskKind::List),
            AskKind::Match(pattern) => Ok(AskKind::Match(pattern.share()?)),
        }
    }
}

/// An ask. Asks are ordered by the text of their path, then by kind, as [`AskKind`] lists them, and then by the bytes
/// of their pattern.
#[derive(Drop)]
pub struct Ask {
    pub kind: AskKind,
    pub path: Path,
}

impl Ask {
    /// The ask, shared.
    pub fn share(&self) -> Result<Ask, AllocError>
        ensures { IfOk result (λ ask. ask ≡ self.now) }
    {
        Ok(Ask {
            kind: self.kind.share()?,
            path: self.path.share()?,
        })
    }
}

impl PartialEq for Ask {
    ghost eq = { same_ask };

    ghost laws = { same_ask_partial };

    fn eq(&self, other: &Ask) -> bool {
        self.path == other.path && self.kind.is_same(&other.kind)
    }
}

impl Eq for Ask {
    ghost laws = { same_ask_equiv };
}

impl Ord for Ask {
    ghost cmp = { ask_cmp };

    ghost total = { ask_cmp_total };

    ghost matches_partial_cmp = { Prim.search rules };

    ghost matches_eq = { ask_cmp_matches };

    fn cmp(&self, other: &Ask) -> Ordering {
        self.path
            .cmp(&other.path)
            .then(self.kind.compare(&other.kind))
    }
}

impl PartialOrd for Ask {
    ghost partial_cmp = { as_partial_cmp ask_cmp };

    ghost laws = { ask_cmp_partial };

    fn partial_cmp(&self, other: &Ask) -> Option<Ordering> {
        Some(self.cmp(other))
    }
}
