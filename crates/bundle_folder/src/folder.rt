//! The trait of folders: what lies where, and when a call may fail.

ghost use Rattle.std.specs.Prelude.{◌≡◌, ◌↔◌, ◌≤◌, ℕ, List, [], ◌∷◌, Option, IsTrue, OnOk, OnErr, IfOk};
ghost use Rattle.std.specs.Prelude.{Contains, length};
ghost use Rattle.bx_io.specs.Causes.{HasCause};
ghost use Rattle.bx_tree.specs.Paths.{path_text};
ghost use Rattle.bx_tree.specs.declared.limits.TheConstants.{MAX_FILE_BYTES};
ghost use Rattle.bundle_folder.specs.Answers.{HasLargeFile, ListsNodes};
ghost use Rattle.bundle_folder.specs.Folders.{File, IsFolder, IsFree, Known, Nodes, with_files};
ghost use Rattle.bundle_folder.specs.Unpacking.{removed};
ghost use Rattle.bx_tree.specs.Lent.{texts_now};

use bx_tree::Path;
use std::alloc::{AllocError, AllocFailed, Global};

/// What lies at a place of a folder.
#[derive(Clone, Copy, Debug, PartialEq, Eq)]
pub enum Kind {
    /// A plain file.
    File,
    /// Another thing that is no directory: a link, a device, a pipe.
    Other,
}

/// What lies at a place of a folder.
#[derive(Drop)]
pub struct Entry {
    /// The names from the folder down, joined by `/`. They need not be atoms.
    pub place: String,
    /// What lies there.
    pub kind: Kind,
}

/// Why a folder was not listed.
#[derive(Drop)]
pub enum ListFault {
    /// A name in the directory at this place is not text.
    NoText(String),
    /// The folder failed at the directory at this place.
    Failed(String),
    /// Out of memory.
    Memory,
}

/// Why a file was not read.
#[derive(Clone, Copy, Debug, PartialEq, Eq)]
pub enum ReadFault {
    /// It has more than [`MAX_FILE_BYTES`](bx_tree::MAX_FILE_BYTES) bytes.
    TooLarge,
    /// The folder failed.
    Failed,
    /// Out of memory.
    Memory,
}

/// Why a file was not made.
#[derive(Clone, Copy, Debug, PartialEq, Eq)]
pub enum WriteFault {
    /// Something is there, or no directory where one is needed.
    Exists,
    /// The folder failed.
    Failed,
    /// Out of memory.
    Memory,
}

/// Why a folder was not looked at or cleared.
#[derive(Clone, Copy, Debug, PartialEq, Eq)]
pub enum FolderFault {
    /// The folder failed.
    Failed,
    /// Out of memory.
    Memory,
}

/// A folder. What it holds is known, as of one in memory, or not, as of a folder of the system, which others
/// may change at any moment; what is said of it is said where it is known.
pub trait Folder {
    // What lies at each place, where that is known.
    ghost holds: { Self → Option Nodes };

    // How often the folder has failed.
    ghost faults: { Self → ℕ };

    /// All that lies in the folder, but for what lies at or below the places in `left_out`. Directories are
    /// looked through, and are no entries; a link is not followed.
    fn list(&mut self, alloc: Global, left_out: &[&str]) -> Result<Vec<Entry>, ListFault>
        ensures folder { OnOk result (Known (holds self.old) IsFolder) }
        ensures listed { IfOk result (λ entries. Known (holds self.old)
            (λ nodes. ListsNodes (texts_now left_out.now) nodes entries.items)) }
        ensures no_text { (place : _) → result ≡ Err (ListFault.NoText place)
            → Known (holds self.old) (λ _. ⊥) }
        ensures same { holds self.new ≡ holds self.old }
        ensures cause { HasCause (faults self.old) (faults self.new)
            ((place : _) × (result ≡ Err (ListFault.Failed place))) };

    /// The bytes of the file at a path.
    fn read(&mut self, alloc: Global, path: &Path) -> Result<Vec<u8>, ReadFault>
        ensures found { IfOk result (λ bytes. Known (holds self.old)
            (λ nodes. Contains nodes (path_text path.now, File bytes.items))) }
        ensures in_size { IfOk result (λ bytes. length bytes.items ≤ MAX_FILE_BYTES) }
        ensures too_large { result ≡ Err ReadFault.TooLarge
            → Known (holds self.old) (λ nodes. HasLargeFile nodes (path_text path.now)) }
        ensures same { holds self.new ≡ holds self.old }
        ensures cause { HasCause (faults self.old) (faults self.new) (result ≡ Err ReadFault.Failed) };

    /// Whether a file can be made at a path: nothing is there, and nothing but directories where directories
    /// are needed.
    fn is_free(&mut self, alloc: Global, path: &Path) -> Result<bool, FolderFault>
        ensures free { IfOk result (λ free. Known (holds self.old)
            (λ nodes. IsTrue free ↔ IsFree nodes (path_text path.now))) }
        ensures same { holds self.new ≡ holds self.old }
        ensures cause { HasCause (faults self.old) (faults self.new) (result ≡ Err FolderFault.Failed) };

    /// Makes a file with these bytes, and the directories above it that are not there. After a refusal it
    /// has made no such file, and some of these directories may be there.
    fn write_new(&mut self, alloc: Global, path: &Path, bytes: &[u8]) -> Result<(), WriteFault>
        ensures made { OnOk result
            (holds self.new ≡ with_files (holds self.old) ((path.now, bytes.now) ∷ [])) }
        ensures refused { OnErr result (holds self.new ≡ holds self.old) }
        ensures exists { result ≡ Err WriteFault.Exists
            → Known (holds self.old) (λ nodes. ¬ IsFree nodes (path_text path.now)) }
        ensures cause { HasCause (faults self.old) (faults self.new) (result ≡ Err WriteFault.Failed) };

    /// Removes what lies at a path and below it. Where nothing is there, nothing is done. A folder of the
    /// system that fails may have removed a part.
    fn remove(&mut self, alloc: Global, path: &Path) -> Result<(), FolderFault>
        ensures gone { OnOk result (holds self.new ≡ removed (path_text path.now) (holds self.old)) }
        ensures refused { OnErr result (holds self.new ≡ holds self.old) }
        ensures cause { HasCause (faults self.old) (faults self.new) (result ≡ Err FolderFault.Failed) };
}

impl From<AllocError> for ListFault {
    ghost use Rattle.bundle_folder.specs.declared.folder.ListFault.TheVariants as list_faults;

    ghost from_gives = { λ _ e. e ≡ list_faults.Memory };

    fn from(_: AllocError) -> ListFault {
        ListFault::Memory
    }
}

impl<T: Drop> From<AllocFailed<T>> for ListFault {
    ghost use Rattle.bundle_folder.specs.declared.folder.ListFault.TheVariants as list_faults;

    ghost from_gives = { λ _ e. e ≡ list_faults.Memory };

    fn from(_: AllocFailed<T>) -> ListFault {
        ListFault::Memory
    }
}

impl From<AllocError> for ReadFault {
    ghost use Rattle.bundle_folder.specs.declared.folder.ReadFault.TheVariants as read_faults;

    ghost from_gives = { λ _ e. e ≡ read_faults.Memory };

    fn from(_: AllocError) -> ReadFault {
        ReadFault::Memory
    }
}

impl From<AllocError> for WriteFault {
    ghost use Rattle.bundle_folder.specs.declared.folder.WriteFault.TheVariants as write_faults;

    ghost from_gives = { λ _ e. e ≡ write_faults.Memory };

    fn from(_: AllocError) -> WriteFault {
        WriteFault::Memory
    }
}

impl<T: Drop> From<AllocFailed<T>> for WriteFault {
    ghost use Rattle.bundle_folder.specs.declared.folder.WriteFault.TheVariants as write_faults;

    ghost from_gives = { λ _ e. e ≡ write_faults.Memory };

    fn from(_: AllocFailed<T>) -> WriteFault {
        WriteFault::Memory
    }
}
