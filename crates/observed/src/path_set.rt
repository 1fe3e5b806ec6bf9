//! Path sets and their text.
ghost use Rattle.std.specs.Prelude.{◌≡◌, List, Some, IfOk};
ghost use Rattle.observed.specs.PathSets.{IsPathSet, set_of};
ghost use Rattle.observed.specs.Texts.{ReadsPathSet, has_match as some_match, paths_text, read_paths_text};
ghost use Rattle.observed.specs.declared.ask.Ask.{Ask as AnyAsk};
ghost use Rattle.std.specs.List.Sorted.{IsStrictlySortedBy};
ghost use Rattle.observed.specs.Asks.{ask_cmp};

use crate::ask::Ask;
use crate::texts::{asks_in, has_match, text_of};
use std::alloc::{AllocError, AllocFailed, Global};
use std::marker::Model;

/// Asks in order, each once. Contracts see it as the list of the asks.
#[derive(Drop)]
pub struct PathSet {
    asks: Vec<Ask>,
}

impl Model for PathSet {
    ghost use Rattle.std.specs.Prelude.{List};
    ghost use Rattle.std.specs.List.Sorted.{IsStrictlySortedBy};
    ghost use Rattle.observed.specs.declared.ask.Ask.{Ask};

    ghost Value = { List Ask };

    ghost use Rattle.observed.specs.Asks.{ask_cmp};

    ghost view = { λ s. s.asks.items };

    ghost invariant = { λ s. IsStrictlySortedBy ask_cmp s.asks.items };
}

/// Why a text gives no path set.
#[derive(Clone, Copy, Debug, PartialEq, Eq)]
pub enum SetFault {
    /// No path set has this text.
    BadSet,
    /// There was no memory.
    Memory,
}

impl From<AllocError> for SetFault {
    ghost use Rattle.std.specs.Prelude.{◌≡◌};
    ghost use Rattle.observed.specs.declared.path_set.SetFault.TheVariants as set_faults;

    ghost from_gives = { λ _ e. e ≡ set_faults.Memory };

    fn from(_: AllocError) -> Self {
        SetFault::Memory
    }
}

impl<T: Drop> From<AllocFailed<T>> for SetFault {
    ghost use Rattle.std.specs.Prelude.{◌≡◌};
    ghost use Rattle.observed.specs.declared.path_set.SetFault.TheVariants as set_faults;

    ghost from_gives = { λ _ e. e ≡ set_faults.Memory };

    fn from(_: AllocFailed<T>) -> Self {
        SetFault::Memory
    }
}

impl PathSet {
    /// The path set of these asks.
    pub fn of(mut asks: Vec<Ask>) -> PathSet
        ensures { result ≡ set_of asks.items }
    {
        asks.sort_unstable();
        asks.dedup();
        PathSet { asks }
    }

    /// The asks, in order.
    pub fn asks(&self) -> &[Ask]
        ensures asks { result.now ≡ self.now }
        ensures order { IsStrictlySortedBy ask_cmp self.now }
    {
        self.asks.as_slice()
    }

    /// Whether a listing by a pattern is among the asks: then the texts of the path set are of the second version.
    pub fn has_match(&self) -> bool
        ensures { result ≡ some_match self.now }
    {
        has_match(self.asks.as_slice())
    }

    /// The text: a first line, which is `paths 2` where a listing by a pattern is among the asks and otherwise
    /// `paths 1`, and a line for each ask.
    pub fn text(&self, alloc: Global) -> Result<Vec<u8>, AllocError>
        ensures text { IfOk result (λ text. text.items ≡ paths_text self.now) }
        ensures read { IfOk result (λ text. read_paths_text text.items ≡ Some self.now) }
    {
        text_of(alloc, self.asks())
    }

    /// The path set that has a text.
    pub fn read(alloc: Global, bytes: &[u8]) -> Result<PathSet, SetFault>
        ensures found { IfOk result (λ set. IsPathSet set × (bytes.now ≡ paths_text set)) }
        ensures none { result ≡ Err SetFault.BadSet → (set : List AnyAsk) →
            IsPathSet set → bytes.now ≡ paths_text set → ⊥ }
        ensures read { ReadsPathSet result (read_paths_text bytes.now) }
    {
        let asks = asks_in(alloc, bytes)?;
        Ok(PathSet { asks })
    }
}
