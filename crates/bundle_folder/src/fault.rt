//! Why a folder is not packed, and why a bundle is not unpacked.

use bx_tree::{BundleFault, Path};
use std::alloc::{AllocError, AllocFailed};

/// Why a folder is not packed. Places are the names from the folder down, joined by `/`.
#[derive(Drop)]
pub enum PackFault {
    /// A name in this place is no atom (see [`is_atom`](bx_tree::is_atom)).
    BadName(String),
    /// A name directly in the directory at this place is not text.
    NoText(String),
    /// The text of this place is longer than [`MAX_PATH_BYTES`](bx_tree::MAX_PATH_BYTES).
    LongPath(String),
    /// What lies here is neither a file nor a directory.
    NoFile(Path),
    /// This file has more than [`MAX_FILE_BYTES`](bx_tree::MAX_FILE_BYTES) bytes.
    LargeFile(Path),
    /// There are more than [`MAX_FILES`](bx_tree::MAX_FILES) files.
    ManyFiles,
    /// The bundle would have more than [`MAX_BUNDLE_BYTES`](bx_tree::MAX_BUNDLE_BYTES) bytes.
    LargeText,
    /// The folder changed while it was read, and what was read is no tree.
    Changed,
    /// The folder failed when the directory at this place was listed.
    Unlisted(String),
    /// The folder failed when this file was read.
    Unread(Path),
    /// Out of memory.
    Memory,
}

/// Why a bundle is not unpacked.
#[derive(Drop)]
pub enum UnpackFault {
    /// The text is no bundle. The folder is as before.
    Text(BundleFault),
    /// A file cannot be made here, since something is there already, or no directory where one is needed. The
    /// folder is as before.
    Exists(Path),
    /// The folder failed when this place was looked at. The folder is as before.
    Unseen(Path),
    /// The folder failed when this place, at which the build before made files, was to be cleared. No file
    /// was made.
    Kept(Path),
    /// The first files of the bundle, of this number, were made, and the folder failed at the next one.
    Partly(usize, Path),
    /// The first files of the bundle, of this number, were made, and then something was in the way of the
    /// next one.
    Taken(usize, Path),
    /// Out of memory after the first files of the bundle, of this number, were made.
    Memory(usize),
}

impl From<AllocError> for PackFault {
    ghost use Rattle.std.specs.Prelude.{◌≡◌};
    ghost use Rattle.bundle_folder.specs.declared.fault.PackFault.TheVariants as pack_faults;

    ghost from_gives = { λ _ e. e ≡ pack_faults.Memory };

    fn from(_: AllocError) -> PackFault {
        PackFault::Memory
    }
}

impl<T: Drop> From<AllocFailed<T>> for PackFault {
    ghost use Rattle.std.specs.Prelude.{◌≡◌};
    ghost use Rattle.bundle_folder.specs.declared.fault.PackFault.TheVariants as pack_faults;

    ghost from_gives = { λ _ e. e ≡ pack_faults.Memory };

    fn from(_: AllocFailed<T>) -> PackFault {
        PackFault::Memory
    }
}
