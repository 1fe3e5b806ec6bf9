//! Paths by number.
ghost use Rattle.std.specs.Prelude.{◌≡◌, ◌≢◌, ◌↔◌, ◌<◌, ◌++◌, ◌∷◌, [], Some, length, slice_get, All, Contains};
ghost use Rattle.std.specs.Prelude.{IsSome, IsSomeAnd, IsTrue, IfOk, IfSome, OnOk, OnErr, MatchOption};
ghost use Rattle.bx_tree.specs.Paths.{path_text};
ghost use Rattle.bx_tree_paths.specs.Tables.{AreNumbered, with_path};

use bx_tree::{Memory, Path};
use indexmap::IndexMap;
use std::alloc::Global;
use std::marker::Model;

/// The number of a path in a table, counted from 0.
#[derive(Clone, Copy, Debug, PartialEq, Eq)]
pub struct PathId(pub u32);

/// Paths, each once, numbered in the order in which they were added. Contracts see the list of the paths, of which
/// the number of each is its place.
#[derive(Drop)]
pub struct PathTable {
    names: IndexMap<Vec<u8>, Path>,
}

impl Model for PathTable {
    ghost use Rattle.std.specs.Prelude.{List, ℕ};
    ghost use Rattle.bx_tree_paths.specs.Tables.{IsTable, paths_in};

    ghost Value = { List (List (List ℕ)) };

    ghost view = { λ t. paths_in t.names.entries };

    ghost invariant = { λ t. IsTable t.names.entries };
}

impl PathTable {
    /// No paths.
    pub fn new(alloc: Global) -> Result<PathTable, Memory>
        ensures { IfOk result (λ table. table ≡ []) }
    {
        Ok(PathTable {
            names: IndexMap::new(alloc),
        })
    }

    /// How many paths there are.
    pub fn len(&self) -> usize
        ensures len { result ≡ length self.now }
        ensures numbered { AreNumbered self.now }
    {
        self.names.len()
    }

    /// Whether there are none.
    pub fn is_empty(&self) -> bool
        ensures { IsTrue result ↔ (self.now ≡ []) }
    {
        self.len() == 0
    }

    /// The number of the path with this text, if it is there.
    pub fn find_text(&self, text: &[u8]) -> Option<PathId>
        ensures { MatchOption result
            (All (λ path. path_text path ≢ text.now) self.now)
            (λ id. IsSomeAnd (slice_get self.now id.0) (λ path. path_text path ≡ text.now)) }
    {
        match self.names.get_index_of(text) {
            Some(number) => Some(PathId(number as u32)),
            None => None,
        }
    }

    /// The number of a path, if it is there.
    pub fn find(&self, path: &Path) -> Option<PathId>
        ensures found { IfSome result (λ id. slice_get self.now id.0 ≡ Some path.now) }
        ensures there { IsSome result ↔ Contains self.now path.now }
    {
        // The type of the table says that all of these are paths.
        let _ = self.len();
        self.find_text(path.text().as_bytes())
    }

    // Adds a path that is not there, as the last.
    fn push(&mut self, alloc: Global, path: &Path) -> Result<PathId, Memory>
        requires few { length self.old < u32.MAX }
        requires absent { Contains self.old path.now → ⊥ }
        ensures added { OnOk result (self.new ≡ self.old ++ path.now ∷ []) }
        ensures last { IfOk result (λ id. id.0 ≡ length self.old) }
        ensures err { OnErr result (self.new ≡ self.old) }
    {
        let number = self.names.len();
        let text = Vec::from_slice(alloc, path.text().as_bytes())?;
        let shared = path.share()?;
        self.names.insert(text, shared)?;
        Ok(PathId(number as u32))
    }

    /// The number of a path, which is added as the last if it is not there. The numbers of the others stay.
    pub fn add(&mut self, alloc: Global, path: &Path) -> Result<PathId, Memory>
        requires { length self.old < u32.MAX }
        ensures added { OnOk result (self.new ≡ with_path self.old path.now) }
        ensures number { IfOk result (λ id. slice_get self.new id.0 ≡ Some path.now) }
        ensures err { OnErr result (self.new ≡ self.old) }
    {
        match self.find(path) {
            Some(id) => Ok(id),
            None => self.push(alloc, path),
        }
    }

    /// The path with a number.
    pub fn path(&self, id: PathId) -> &Path
        requires { id.0 < length self.now }
        ensures { slice_get self.entry.now id.0 ≡ Some result.now }
    {
        &self.names[id.0 as usize]
    }
}
