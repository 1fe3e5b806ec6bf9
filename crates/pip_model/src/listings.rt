//! The files that seals list, in the order of their paths, so that the seals that list a file near a path are found
//! without going through all seals.
ghost use Rattle.std.specs.Prelude.{◌≡◌, ◌++◌, ◌<◌, ◌≤◌, ◌⊎◌, ℕ, length, map, IfOk, OnOk};
ghost use Rattle.std.specs.List.Sorted.{IsPermutation};
ghost use Rattle.bx_tree_paths.specs.Searches.{RiseByText};
ghost use Rattle.pip_model.specs.Listings.{HasListingsOf, HasNear, has_wide as any_wide, is_wide as kind_wide};
ghost use Rattle.pip_model.specs.Listings.{listing, listing_path, listing_seal, listings_from};

use bx_tree::{FileInput, Path};
use bx_tree_paths::{HasPath, Span, span_between};
use pip_model_types::{Pip, PipKind};
use std::alloc::{AllocError, Global};
use std::marker::Model;

/// Up to this many directories of a process are searched one by one.
pub const FEW_DIRS: usize = 8;

/// A file that a seal lists.
#[derive(Drop)]
pub(crate) struct Listing {
    path: Path,
    seal: u32,
}

impl HasPath for Listing {
    ghost path_in = { listing_path };

    fn path(&self) -> &Path {
        &self.path
    }
}

/// The files that seals list, sorted by path, and beside them the seals. Contracts see the files.
#[derive(Drop)]
pub(crate) struct Listings {
    files: Vec<Listing>,
    seals: Vec<u32>,
}

impl Model for Listings {
    ghost use Rattle.std.specs.Prelude.{List};
    ghost use Rattle.pip_model.specs.Listings.{AreListings};
    ghost use Rattle.pip_model.specs.declared.listings.Listing.{Listing};

    ghost Value = { List Listing };

    ghost view = { λ l. l.files.items };

    ghost invariant = { λ l. AreListings l.files.items l.seals.items };
}

// The files in the order of their paths.
fn in_order(files: Vec<Listing>) -> Vec<Listing>
    ensures same { IsPermutation files.items result.items }
    ensures rising { RiseByText listing_path result.items }
{
    let mut files = files;
    files.sort_unstable_by(|a, b| a.path.cmp(&b.path));
    files
}

// The seal of each file.
fn seals_of(alloc: Global, files: &[Listing]) -> Result<Vec<u32>, AllocError>
    ensures { IfOk result (λ seals. seals.items ≡ map listing_seal files.now) }
{
    let mut seals = Vec::new(alloc);
    'files: for file in files {
        seals.push(file.seal)?;
    }
    Ok(seals)
}

// The least range that has two ranges, of which an empty one counts for nothing.
fn joined(one: Span, other: Span) -> Span
    requires one { one.from ≤ one.to }
    requires other { other.from ≤ other.to }
    ensures order { result.from ≤ result.to }
    ensures within { (result.to ≡ one.to) ⊎ (result.to ≡ other.to) }
    ensures has_one { (k : ℕ) → one.from ≤ k → k < one.to → (result.from ≤ k) × (k < result.to) }
    ensures has_other { (k : ℕ) → other.from ≤ k → k < other.to → (result.from ≤ k) × (k < result.to) }
{
    if one.from == one.to {
        return other;
    }
    if other.from == other.to {
        return one;
    }
    Span {
        from: one.from.min(other.from),
        to: one.to.max(other.to),
    }
}

impl Listings {
    // These files, sorted.
    fn of(alloc: Global, files: Vec<Listing>) -> Result<Listings, AllocError>
        ensures { IfOk result (IsPermutation files.items) }
    {
        let files = in_order(files);
        let seals = seals_of(alloc, files.as_slice())?;
        Ok(Listings { files, seals })
    }

    /// The seals of the files at the path with this text or below it. Where some are at it and others below it, the
    /// seals of files between them in the order of paths are there too. A seal is there once for each of its files.
    pub(crate) fn near(&self, text: &[u8]) -> &[u32]
        ensures { HasNear text.now self.now result.now }
    {
        let files = self.files.as_slice();
        let at = span_between(files, text, b"", b"\0");
        // `0` is the byte after `/`.
        let below = span_between(files, text, b"/", b"0");
        let span = joined(at, below);
        let seals = self.seals.as_slice();
        &seals[span.from..span.to]
    }
}

// Whether a pip takes more than a few directories.
fn is_wide(kind: &PipKind) -> bool
    ensures { result ≡ kind_wide kind.now }
{
    match kind {
        PipKind::Process(process) => process.dirs.dirs().len() > FEW_DIRS,
        PipKind::Copy(_) | PipKind::Write(_) | PipKind::Seal(_) => false,
    }
}

// Whether one of the pips takes more than a few directories.
fn has_wide(pips: &[Pip]) -> bool
    ensures { result ≡ any_wide pips.now }
{
    pips.iter().any(|pip| is_wide(&pip.kind))
}

// Adds the files that a seal lists.
fn add_files(found: &mut Vec<Listing>, seal: u32, files: &[FileInput]) -> Result<(), AllocError>
    ensures { OnOk result (found.new.items ≡ found.old.items ++ map (listing seal) files.now) }
{
    'files: for file in files {
        let path = file.path().share()?;
        found.push(Listing { path, seal })?;
    }
    Ok(())
}

// The files that the seals list.
fn all_listings(alloc: Global, pips: &[Pip]) -> Result<Vec<Listing>, AllocError>
    requires { length pips.now ≤ u32.MAX }
    ensures { IfOk result (λ found. found.items ≡ listings_from 0 pips.now) }
{
    let mut found = Vec::new(alloc);
    'pips: for (place, pip) in pips.iter().enumerate() {
        add_files(&mut found, place as u32, pip.kind.listed())?;
    }
    Ok(found)
}

/// The files that the seals list; none, where no pip takes more than a few directories.
pub(crate) fn by_listing(alloc: Global, pips: &[Pip]) -> Result<Listings, AllocError>
    requires { length pips.now ≤ u32.MAX }
    ensures { IfOk result (HasListingsOf pips.now) }
{
    if has_wide(pips) {
        return Listings::of(alloc, all_listings(alloc, pips)?);
    }
    Listings::of(alloc, Vec::new(alloc))
}
