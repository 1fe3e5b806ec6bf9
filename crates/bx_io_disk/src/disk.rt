//! The calls on the files of one folder.

ghost use Rattle.std.specs.Prelude.{◌≡◌, ◌≢◌, ◌<◌, ℕ, Bool, true, List, [], ◌∷◌, IfErr, IfOk, IsErr, OnOk, OnErr, length};
ghost use Rattle.std.specs.FinMap.{get};
ghost use Rattle.std.specs.IoError.{error_kind};
ghost use Rattle.std.specs.declared.io.ErrorKind.TheVariants.{AlreadyExists, NotFound};
ghost use Rattle.bx_io.specs.Causes.{HasCause};
ghost use Rattle.bx_io_disk.specs.Events.{Event};
ghost use Rattle.bx_io_disk.specs.Files.{Creates, Files, IsExcluded, IsFault, IsFaultBut, ListsFiles, Looks, Reads, Removes, Renames, Writes, HasNone, asked, is_created, is_excluded, is_seen, lock_event, looked, renamed_kind};
ghost use Rattle.bx_io_disk.specs.declared.kind.Kind.TheVariants as kinds;

use std::alloc::{AllocError, Global};
use std::io;

/// The greatest length of a file that counts as one: 256 MiB.
pub const FILE_LIMIT: usize = 268_435_456;

/// The files of one folder, by paths from it: plain files of at most [`FILE_LIMIT`] bytes. Links, folders, devices, pipes
/// and files above that are none. What the files hold is known, as of a disk in memory, or not, as of the system's, which
/// others may change at any moment. A call that fails is a fault, unless it was for want of memory, or the error is an
/// answer: that nothing is there, where a file is read or removed or a folder listed, and that the folder is there, where
/// one is made. No call waits for another process.
pub trait Disk: Drop {
    // Whether it is known what the files hold.
    ghost is_known: { Bool };

    // The bytes of each file by its path, where that is known.
    ghost files: { Self → Files };

    // The calls that look for a file, lock the folder, or change or sync a file or a folder, the newest first.
    ghost calls: { Self → List Event };

    // How often the disk has failed.
    ghost faults: { Self → ℕ };

    /// Another handle of the same files, which has the lock of this one.
    fn again(&self, alloc: Global) -> Result<Self, AllocError>
    where
        Self: Sized,
        ensures files { IfOk result (λ disk. files disk ≡ files self.now) }
        ensures calls { IfOk result (λ disk. calls disk ≡ []) }
        ensures faults { IfOk result (λ disk. faults disk ≡ 0) };

    /// Takes another handle of the same files back, and its lock, where this one has asked for none.
    fn join(&mut self, other: Self)
    where
        Self: Sized,
        ensures files { files self.new ≡ files self.old }
        ensures calls { calls self.new ≡ calls self.old }
        ensures faults { faults self.new ≡ faults self.old };

    /// Locks the folder as long as this handle is there: alone, or shared with all that lock it shared. The system is asked
    /// once, and what it answered is answered from then on, but where the folder is not there. Where another one has
    /// locked it in a way that excludes this one, the error is `WouldBlock`; where the folder is not there, `NotFound`.
    fn lock(&mut self, alloc: Global, alone: bool) -> io::Result<()>
        ensures files { files self.new ≡ files self.old }
        ensures calls { calls self.new ≡ lock_event alone result ∷ asked alone (calls self.old) }
        ensures stays { is_excluded (calls self.old) ≡ true → IsExcluded result }
        ensures missing { is_known ≡ true → IfErr result (λ e. error_kind e ≡ NotFound → HasNone (files self.old)) }
        ensures cause { HasCause (faults self.old) (faults self.new) (IsFault result) };

    /// Whether there is a file at the path. A link is none, wherever it leads.
    fn look(&mut self, alloc: Global, path: &str) -> io::Result<bool>
        ensures there { is_known ≡ true → Looks (files self.old) path.now result }
        ensures files { files self.new ≡ files self.old }
        ensures seen { IfOk result (λ is. calls self.new ≡ looked is path.now (calls self.old)) }
        ensures failed { OnErr result (calls self.new ≡ calls self.old) }
        ensures cause { HasCause (faults self.old) (faults self.new) (IsFault result) };

    /// The bytes of a file that was seen just now. What is opened is looked at once more.
    fn read(&mut self, alloc: Global, path: &str) -> io::Result<Vec<u8>>
        requires { is_seen path.now (calls self.old) ≡ true }
        ensures found { is_known ≡ true → Reads (files self.old) path.now result }
        ensures files { files self.new ≡ files self.old }
        ensures calls { calls self.new ≡ calls self.old }
        ensures cause { HasCause (faults self.old) (faults self.new) (IsFaultBut NotFound result) };

    /// Makes an empty file, where nothing is at the path, not even a link. Where something is the error is
    /// `AlreadyExists`. What is there is left alone.
    fn create(&mut self, alloc: Global, path: &str) -> io::Result<()>
        ensures created { is_known ≡ true → Creates (files self.old) (files self.new) path.now result }
        ensures made { OnOk result (calls self.new ≡ (kinds.Created, path.now, []) ∷ calls self.old) }
        ensures failed { OnErr result (calls self.new ≡ calls self.old) }
        ensures cause { HasCause (faults self.old) (faults self.new) (IsFault result) };

    /// Writes a file that was made just now. More than [`FILE_LIMIT`] bytes are an error.
    fn write(&mut self, alloc: Global, path: &str, bytes: &[u8]) -> io::Result<()>
        requires { is_created path.now (calls self.old) ≡ true }
        ensures written { is_known ≡ true → Writes (files self.old) (files self.new) path.now bytes.now result }
        ensures calls { calls self.new ≡ (kinds.Wrote, path.now, []) ∷ calls self.old }
        ensures large { FILE_LIMIT < length bytes.now → IsErr result }
        ensures cause { HasCause (faults self.old) (faults self.new) (IsFault result) };

    /// Waits until what lies at a path is stored: the bytes of a file, or which names a folder has. The path of
    /// the folder itself is empty. What is not there has nothing to store.
    fn sync(&mut self, alloc: Global, path: &str) -> io::Result<()>
        ensures files { files self.new ≡ files self.old }
        ensures synced { OnOk result (calls self.new ≡ (kinds.Synced, path.now, []) ∷ calls self.old) }
        ensures missing { IfErr result (λ e. error_kind e ≡ NotFound → calls self.new ≡ (kinds.Absent, path.now, []) ∷ calls self.old) }
        ensures failed { IfErr result (λ e. error_kind e ≢ NotFound → calls self.new ≡ calls self.old) }
        ensures cause { HasCause (faults self.old) (faults self.new) (IsFault result) };

    /// Gives a file another path, in place of what was there. At its own it is no more.
    fn rename(&mut self, alloc: Global, old: &str, path: &str) -> io::Result<()>
        ensures renamed { is_known ≡ true → Renames (files self.old) (files self.new) old.now path.now result }
        ensures calls { calls self.new ≡ (renamed_kind result, path.now, old.now) ∷ calls self.old }
        ensures cause { HasCause (faults self.old) (faults self.new) (IsFault result) };

    /// Removes a file.
    fn remove(&mut self, alloc: Global, path: &str) -> io::Result<()>
        ensures removed { is_known ≡ true → Removes (files self.old) (files self.new) path.now result }
        ensures calls { calls self.new ≡ (kinds.Removed, path.now, []) ∷ calls self.old }
        ensures cause { HasCause (faults self.old) (faults self.new) (IsFaultBut NotFound result) };

    /// Makes a folder. The path of the folder itself is empty.
    fn make_folder(&mut self, alloc: Global, path: &str) -> io::Result<()>
        ensures files { files self.new ≡ files self.old }
        ensures calls { calls self.new ≡ (kinds.Made, path.now, []) ∷ calls self.old }
        ensures cause { HasCause (faults self.old) (faults self.new) (IsFaultBut AlreadyExists result) };

    /// The names of the files in a folder, in any order. Files that lie deeper may be listed, too, by their
    /// paths from the folder. That the error is `NotFound` says that there is no folder, and not that a file of it went away
    /// meanwhile: that one is not listed.
    fn list(&mut self, alloc: Global, path: &str) -> io::Result<Vec<String>>
        ensures listed { is_known ≡ true → ListsFiles (files self.old) path.now result }
        ensures files { files self.new ≡ files self.old }
        ensures calls { calls self.new ≡ calls self.old }
        ensures cause { HasCause (faults self.old) (faults self.new) (IsFaultBut NotFound result) };
}
