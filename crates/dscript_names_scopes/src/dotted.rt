//! Dotted names, with their order.

ghost use Rattle.std.specs.Prelude.{◌≡◌, ◌∷◌, ◌++◌, [], IfOk};
ghost use Rattle.std.specs.Cmp.Lexicographic.{slice_cmp};
ghost use Rattle.std.specs.Ordering.{as_partial_cmp};
ghost use Rattle.std.proofs.Common.{rules};
ghost use Rattle.bx_tree.specs.Orders.{same_path_equiv, same_path_partial};
ghost use Rattle.bx_tree.specs.Paths.{same_path};
ghost use Rattle.dscript_names_scopes.specs.Hashes.{name_hash};
ghost use Rattle.dscript_names_scopes.specs.Orders.{name_cmp, name_cmp_matches, name_cmp_partial, name_cmp_total};
ghost use Rattle.dscript_names_scopes.specs.Orders.{parts_cmp};

use crate::hashing::{name_hash, text_hash};
use bx_tree::{Memory, Text};
use std::alloc::Global;
use std::cmp::Ordering;
use std::marker::Model;

/// Other owners of these texts.
pub(crate) fn shared(alloc: Global, texts: &[Text]) -> Result<Vec<Text>, Memory>
    ensures { IfOk result (λ copy. copy.items ≡ texts.now) }
{
    let mut copy = Vec::new(alloc);
    'texts: for text in texts {
        copy.push(text.share()?)?;
    }
    Ok(copy)
}

/// Whether two dotted names are equal.
fn same_names(names: &[Text], others: &[Text]) -> bool
    ensures { result ≡ same_path names.now others.now }
{
    let mut left = names;
    let mut right = others;
    'parts: while let Some((name, names)) = left.split_first() {
        let Some((other, others)) = right.split_first() else {
            return false;
        };
        if name.bytes() != other.bytes() {
            return false;
        }
        left = names;
        right = others;
    }
    right.is_empty()
}

/// The order of two dotted names by their parts.
fn compare(names: &[Text], others: &[Text]) -> Ordering
    ensures { result ≡ parts_cmp names.now others.now }
{
    let mut left = names;
    let mut right = others;
    'parts: while let Some((name, names)) = left.split_first() {
        let Some((other, others)) = right.split_first() else {
            return Ordering::Greater;
        };
        match name.bytes().cmp(other.bytes()) {
            Ordering::Equal => {}
            unequal => return unequal,
        }
        left = names;
        right = others;
    }
    if right.is_empty() {
        Ordering::Equal
    } else {
        Ordering::Less
    }
}

/// A dotted name. Contracts see it as the list of its parts.
#[derive(Drop)]
pub struct DottedName {
    parts: Vec<Text>,
    // the hash of the parts
    hash: u64,
}

impl Model for DottedName {
    ghost use Rattle.std.specs.Prelude.{◌≡◌, List, ℕ};
    ghost use Rattle.dscript_names_scopes.specs.Hashes.{name_hash};

    ghost Value = { List (List ℕ) };

    ghost view = { λ n. n.parts.items };

    ghost invariant = { λ n. n.hash ≡ name_hash n.parts.items };
}

impl DottedName {
    /// The name with these parts.
    pub fn new(parts: Vec<Text>) -> DottedName
        ensures { result ≡ parts.items }
    {
        let hash = name_hash(parts.as_slice());
        DottedName { parts, hash }
    }

    /// The parts, from the left.
    pub fn parts(&self) -> &[Text]
        ensures { result.now ≡ self.now }
    {
        self.parts.as_slice()
    }

    /// The hash of the name.
    fn hash(&self) -> u64
        ensures { result ≡ name_hash self.now }
    {
        self.hash
    }

    /// Another owner of the parts.
    pub(crate) fn share(&self, alloc: Global) -> Result<DottedName, Memory>
        ensures { IfOk result (λ name. name ≡ self.now) }
    {
        let parts = shared(alloc, self.parts())?;
        Ok(DottedName {
            parts,
            hash: self.hash(),
        })
    }

    /// Adds a part at the end.
    pub(crate) fn push(&mut self, part: Text) -> Result<(), Memory>
        ensures { IfOk result (λ _. self.new ≡ self.old ++ part ∷ []) }
    {
        let hash = text_hash(self.hash, part.bytes());
        self.parts.push(part)?;
        self.hash = hash;
        Ok(())
    }
}

impl PartialEq for DottedName {
    ghost eq = { same_path };

    ghost laws = { same_path_partial };

    fn eq(&self, other: &DottedName) -> bool {
        same_names(self.parts(), other.parts())
    }
}

impl Eq for DottedName {
    ghost laws = { same_path_equiv };
}

impl Ord for DottedName {
    ghost cmp = { name_cmp };

    ghost total = { name_cmp_total };

    ghost matches_partial_cmp = { Prim.search rules };

    ghost matches_eq = { name_cmp_matches };

    fn cmp(&self, other: &DottedName) -> Ordering {
        match self.hash().cmp(&other.hash()) {
            Ordering::Equal => compare(self.parts(), other.parts()),
            unequal => unequal,
        }
    }
}

impl PartialOrd for DottedName {
    ghost partial_cmp = { as_partial_cmp name_cmp };

    ghost laws = { name_cmp_partial };

    fn partial_cmp(&self, other: &DottedName) -> Option<Ordering> {
        Some(self.cmp(other))
    }
}
