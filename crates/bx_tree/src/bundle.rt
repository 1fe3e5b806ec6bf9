//! Reading and writing the one text of a tree.

ghost use Rattle.std.specs.Prelude.{◌≡◌, ◌≢◌, ◌↔◌, ◌++◌, IsTrue, IfOk, OnOk, MatchResult};
ghost use Rattle.bx_tree.specs.Bundle.{Faults, IsBundle, IsLength, bundle, file_text};
ghost use Rattle.bx_tree.specs.Headers.{StartsWithBytes, header_of};
ghost use Rattle.bx_tree.specs.Reading.{Announces, IsBody, IsFirstBodyFault, IsFirstHeaderFault};
ghost use Rattle.bx_tree.specs.Trees.{IsTree};
ghost use Rattle.bx_tree.specs.Views.{file_of, files_of};

use crate::Memory;
use crate::header::{Header, after_prefix, read_header, size_of};
use crate::limits::{MAX_BUNDLE_BYTES, MAX_FILES};
use crate::order::{comes_after, has_no_ancestor};
use crate::path::{Path, PathFault};
use crate::tree::Tree;
use crate::tree_file::TreeFile;
use std::alloc::{AllocFailed, Global};

/// Why a text is no bundle within the limits.
#[derive(Clone, Copy, Debug, PartialEq, Eq)]
pub enum BundleFault {
    /// The first line, a header, the bytes that it announces or the end is missing, or bytes follow the end.
    BadBundle,
    /// A header names no path.
    BadPath,
    /// A path does not come after the one before it, in the order of path texts.
    Unordered,
    /// An earlier file is a directory of this one.
    Nested,
    /// There are more than [`MAX_FILES`](crate::MAX_FILES) files.
    TooManyFiles,
    /// The text has more than [`MAX_BUNDLE_BYTES`](crate::MAX_BUNDLE_BYTES) bytes, or a file more than
    /// [`MAX_FILE_BYTES`](crate::MAX_FILE_BYTES).
    TooLarge,
    /// Out of memory.
    Memory,
}

impl From<Memory> for BundleFault {
    ghost use Rattle.std.specs.Prelude.{◌≡◌};
    ghost use Rattle.bx_tree.specs.declared.bundle.BundleFault.TheVariants as bundle_faults;

    ghost from_gives = { λ _ e. e ≡ bundle_faults.Memory };

    fn from(_: Memory) -> Self {
        BundleFault::Memory
    }
}

impl<T: Drop> From<AllocFailed<T>> for BundleFault {
    ghost use Rattle.std.specs.Prelude.{◌≡◌};
    ghost use Rattle.bx_tree.specs.declared.bundle.BundleFault.TheVariants as bundle_faults;

    ghost from_gives = { λ _ e. e ≡ bundle_faults.Memory };

    fn from(_: AllocFailed<T>) -> Self {
        BundleFault::Memory
    }
}

// Whether a text starts with this many bytes and a newline.
fn starts_with_bytes(text: &[u8], size: usize) -> bool
    ensures { IsTrue result ↔ StartsWithBytes size text.now }
{
    text.len() > size && text[size] == b'\n'
}

// The file that a header announces, which follows the files read before it, or the header's first fault.
fn read_file(alloc: Global, before: &[TreeFile], header: Header) -> Result<TreeFile, BundleFault>
    requires tree { IsTree (files_of before.now) }
    requires length_is { IsLength header.digits.now }
    ensures { MatchResult result
        (λ file. Announces (files_of before.now) (header_of header.entry) (file_of file))
        (λ fault. IsFirstHeaderFault (files_of before.now) (header_of header.entry) fault) }
{
    let Some(size) = size_of(header.digits) else {
        return Err(BundleFault::TooLarge);
    };
    if before.len() >= MAX_FILES {
        return Err(BundleFault::TooManyFiles);
    }
    let path = match Path::read(alloc, header.path) {
        Ok(path) => path,
        Err(PathFault::BadPath) => return Err(BundleFault::BadPath),
        Err(PathFault::Memory) => return Err(BundleFault::Memory),
    };
    if !comes_after(before, header.path) {
        return Err(BundleFault::Unordered);
    }
    if !has_no_ancestor(before, header.path) {
        return Err(BundleFault::Nested);
    }
    if !starts_with_bytes(header.rest, size) {
        return Err(BundleFault::BadBundle);
    }
    let bytes = Vec::from_slice(alloc, &header.rest[..size])?;
    Ok(TreeFile::new(path, bytes))
}

// The files of the text after a bundle's first line, up to and including its end.
fn read_files(alloc: Global, text: &[u8]) -> Result<Tree, BundleFault>
    ensures { MatchResult result
        (λ tree. IsBody text.now tree)
        (λ fault. IsFirstBodyFault text.now fault) }
{
    let mut files = Vec::new(alloc);
    let mut rest = text;
    'files: loop {
        if let Some(more) = after_prefix(rest, b"end\n") {
            if !more.is_empty() {
                return Err(BundleFault::BadBundle);
            }
            return Ok(Tree::in_order(files));
        }
        let Some(header) = read_header(rest) else {
            return Err(BundleFault::BadBundle);
        };
        let file = read_file(alloc, files.as_slice(), header)?;
        rest = &header.rest[file.bytes.len() + 1..];
        files.push(file)?;
    }
}

/// Reads a bundle: the tree whose one text this is, or the first fault of the text.
pub fn read_bundle(alloc: Global, bytes: &[u8]) -> Result<Tree, BundleFault>
    ensures { MatchResult result
        (λ tree. IsBundle bytes.now tree)
        (λ fault. fault ≢ BundleFault.Memory → Faults bytes.now fault) }
{
    if bytes.len() > MAX_BUNDLE_BYTES {
        return Err(BundleFault::TooLarge);
    }
    let Some(rest) = after_prefix(bytes, b"bundle 1\n") else {
        return Err(BundleFault::BadBundle);
    };
    read_files(alloc, rest)
}

/// Appends the text of one file of a bundle: its header, its bytes and a newline.
pub fn append_file(
    alloc: Global,
    text: &mut Vec<u8>,
    path: &Path,
    bytes: &[u8],
) -> Result<(), Memory>
    ensures { OnOk result (text.new.items ≡ text.old.items ++ file_text (path.now, bytes.now)) }
{
    let length = bytes.len();
    let path = path.text();
    let header = format!(in alloc; "file {length} {path}\n")?;
    text.extend_from_slice(header.as_bytes())?;
    text.extend_from_slice(bytes)?;
    text.push(b'\n')?;
    Ok(())
}

/// The one text of a tree.
pub fn write_bundle(alloc: Global, tree: &Tree) -> Result<Vec<u8>, Memory>
    ensures { IfOk result (λ text. text.items ≡ bundle tree.now) }
{
    let mut text = Vec::from_slice(alloc, b"bundle 1\n")?;
    for file in tree.files() {
        append_file(alloc, &mut text, &file.path, file.bytes.as_slice())?;
    }
    text.extend_from_slice(b"end\n")?;
    Ok(text)
}
