//! The files of a folder of the system. Each method makes the calls of the system that its task needs, and notes one that
//! looks, locks, changes or syncs something, and one that failed.

ghost use Rattle.std.specs.Prelude.{◌≡◌, ◌≢◌, ◌↔◌, ◌<◌, ◌≤◌, [], ◌∷◌, IfErr, IfOk, IsErr, IsSome, IsTrue, OnOk, Some, false, length, true};
ghost use Rattle.std.specs.Fs.{IsFile, file_type, metadata_len};
ghost use Rattle.std.specs.IoError.{error_kind};
ghost use Rattle.std.specs.declared.io.ErrorKind.TheVariants.{NotFound, WouldBlock};
ghost use Rattle.bx_io.specs.Causes.{HasCause};
ghost use Rattle.bx_io_disk.specs.Events.{failures};
ghost use Rattle.bx_io_disk.specs.Files.{IsExcluded, IsFault, IsFaultBut, is_excluded, is_locked, lock_event, lock_fault};
ghost use Rattle.bx_io_disk.specs.declared.kind.Kind.TheVariants as kinds;

use bx_io_disk::{Disk, FILE_LIMIT, Kind, Record};
use std::alloc::{AllocError, Global};
use std::fs::{self, DirEntry, File, Metadata, OpenFile, OpenOptions, ReadDir, TryLockError};
use std::io::{self, ErrorKind, Read, Write};
use std::rt::Files;

/// The file of a folder that is locked. It is empty.
const LOCK: &str = "lock";

// A file that is open, by the system's path of it, or a folder, by its path from the folder.
#[derive(Drop)]
struct Opened {
    path: String,
    file: File,
}

/// A folder of the system. What its files hold is not known. It is locked by an advisory lock of the system on the file
/// `lock` in it, which ends with this handle or with the process.
#[derive(Drop)]
pub struct SystemDisk<R> {
    rt: R,
    folder: String,
    lock: Option<File>,
    is_alone: bool,
    refused: Option<ErrorKind>,
    // the file that was made last, until it is stored
    begun: Option<Opened>,
    // the system's path of the file that was stored last
    stored: Option<String>,
    // the two folders that were synced last
    newer: Option<Opened>,
    older: Option<Opened>,
    log: Record,
    failed: Record,
    ghost kept: { is_locked false log.events ≡ true → IsSome lock },
    ghost kept_alone: { is_locked true log.events ≡ true → is_alone ≡ true },
    ghost excluded: { is_excluded log.events ≡ true → refused ≡ Some WouldBlock },
}

// Notes that a call failed, unless for want of memory, or with the error that is an answer.
fn note_fault<X>(failed: &mut Record, done: &io::Result<X>, answer: ErrorKind)
    ensures { HasCause (failures failed.old.events) (failures failed.new.events) (IsFaultBut answer done.now) }
{
    if let Err(error) = done {
        let kind = error.kind();
        if kind != answer && kind != ErrorKind::OutOfMemory {
            *failed = Record::noted(failed, &Kind::Failed, &[], &[]);
        }
    }
}

// The system's path of a path from the folder.
fn path_of(alloc: Global, folder: &str, path: &str) -> Result<String, AllocError> {
    let length = folder.len().saturating_add(path.len()).saturating_add(1);
    let mut full = String::with_capacity(alloc, length)?;
    full.push_str(folder)?;
    full.push_str("/")?;
    full.push_str(path)?;
    Ok(full)
}

// Whether what the system found counts as a file.
fn is_counted(found: &Metadata) -> bool
    ensures { IsTrue result ↔ (IsFile (file_type found.now) × (metadata_len found.now ≤ FILE_LIMIT)) }
{
    found.is_file() && found.len() <= FILE_LIMIT as u64
}

// Whether a file is at the system's path.
fn look_at<R: Files>(rt: &R, path: &str) -> io::Result<bool> {
    match fs::symlink_metadata(rt, path) {
        Ok(found) => Ok(is_counted(&found)),
        Err(error) if error.kind() == ErrorKind::NotFound => Ok(false),
        Err(error) => Err(error),
    }
}

// The bytes of an open file, or that there are too many.
fn read_open<F: Read + Drop>(alloc: Global, file: F) -> io::Result<Vec<u8>>
    ensures { IfOk result (λ bytes. length bytes.items ≤ FILE_LIMIT) }
{
    let mut bytes = Vec::new(alloc);
    let mut front = file.take(FILE_LIMIT as u64 + 1);
    front.read_to_end(&mut bytes)?;
    if bytes.len() > FILE_LIMIT {
        return Err(io::Error::from(ErrorKind::NotFound));
    }
    Ok(bytes)
}

// The bytes of the file at the system's path. What is no file is not there.
fn read_file<R: Files>(rt: &R, alloc: Global, path: &str) -> io::Result<Vec<u8>>
    ensures { IfOk result (λ bytes. length bytes.items ≤ FILE_LIMIT) }
{
    let file = File::open(rt, path)?;
    if !is_counted(&file.metadata()?) {
        return Err(io::Error::from(ErrorKind::NotFound));
    }
    read_open(alloc, file)
}

// Makes an empty file at the system's path, where nothing is.
fn create_file<R: Files<File = File>>(rt: &R, path: &str) -> io::Result<File> {
    OpenOptions::new()
        .write(true)
        .create_new(true)
        .open(rt, path)
}

// Writes the file that was made, and gives it back.
fn write_begun(begun: Option<Opened>, bytes: &[u8]) -> io::Result<Opened>
    ensures { FILE_LIMIT < length bytes.now → IsErr result }
{
    if bytes.len() > FILE_LIMIT {
        return Err(io::Error::from(ErrorKind::FileTooLarge));
    }
    match begun {
        Some(made) => {
            let mut made = made;
            made.file.write_all(bytes)?;
            Ok(made)
        }
        None => Err(io::Error::from(ErrorKind::NotFound)),
    }
}

// Whether a system's path of this folder is that of a path from it.
fn is_at(full: &str, folder: &str, path: &str) -> bool {
    let length = folder.len().saturating_add(path.len()).saturating_add(1);
    full.len() == length && full.as_bytes().ends_with(path.as_bytes())
}

// Takes the file that was made, if it is the one at this path from the folder.
fn take_at(begun: &mut Option<Opened>, folder: &str, path: &str) -> Option<Opened> {
    match begun.take() {
        Some(made) => {
            if is_at(made.path.as_str(), folder, path) {
                Some(made)
            } else {
                *begun = Some(made);
                None
            }
        }
        None => None,
    }
}

// Gives the file at one of the system's paths the other one. A folder there that is empty is no file, and makes way; one that
// holds something stays, and the renaming fails.
fn rename_over<R: Files>(rt: &R, old: &str, path: &str) -> io::Result<()> {
    match fs::rename(rt, old, path) {
        Err(error) if error.kind() == ErrorKind::IsADirectory => {
            let _ = fs::remove_dir(rt, path);
            fs::rename(rt, old, path)
        }
        renamed => renamed,
    }
}

// The system's path of a path from the folder: that of the file that was stored last, if it lies there.
fn path_at(
    alloc: Global,
    stored: Option<String>,
    folder: &str,
    path: &str,
) -> Result<String, AllocError> {
    match stored {
        Some(full) if is_at(full.as_str(), folder, path) => Ok(full),
        _ => path_of(alloc, folder, path),
    }
}

// The system's path of what another path from the folder begins with, as a part of the system's path of that.
fn path_within<'a>(full: &'a str, old: &str, path: &str) -> Option<&'a str> {
    if !old.as_bytes().starts_with(path.as_bytes()) {
        return None;
    }
    let more = old.len().saturating_sub(path.len());
    full.get(..full.len().saturating_sub(more))
}

// Gives the file at one path from the folder another one.
fn rename_file<R: Files>(
    alloc: Global,
    rt: &R,
    stored: Option<String>,
    folder: &str,
    old: &str,
    path: &str,
) -> io::Result<()> {
    let full = path_at(alloc, stored, folder, old)?;
    if let Some(path) = path_within(full.as_str(), old, path) {
        return rename_over(rt, full.as_str(), path);
    }
    let path = path_of(alloc, folder, path)?;
    rename_over(rt, full.as_str(), path.as_str())
}

// Waits until the file that was made is stored, and closes it. Its path is kept.
fn sync_made(made: Opened, stored: &mut Option<String>) -> io::Result<Option<Opened>> {
    let Opened { path, file } = made;
    file.sync_all()?;
    *stored = Some(path);
    Ok(None)
}

// Waits until what is open is stored, if it is what lies at this path.
fn sync_open(open: &Option<Opened>, path: &str) -> Option<io::Result<()>> {
    match open {
        Some(opened) => {
            if opened.path.as_str() == path {
                Some(opened.file.sync_all())
            } else {
                None
            }
        }
        None => None,
    }
}

// Waits until what lies at a path from the folder is stored. Only files and folders are opened. A folder stays open.
fn sync_path<R: Files<File = File>>(
    alloc: Global,
    rt: &R,
    folder: &str,
    path: &str,
) -> io::Result<Option<Opened>> {
    let full = path_of(alloc, folder, path)?;
    let found = fs::metadata(rt, full.as_str())?;
    if !found.is_dir() && !found.is_file() {
        return Err(io::Error::from(ErrorKind::NotADirectory));
    }
    let file = File::open(rt, full.as_str())?;
    file.sync_all()?;
    if found.is_dir() {
        let path = String::from_str(alloc, path)?;
        Ok(Some(Opened { path, file }))
    } else {
        Ok(None)
    }
}

// The same, by one of two folders that are open, if it is one of them.
fn sync_folder<R: Files<File = File>>(
    alloc: Global,
    rt: &R,
    newer: &Option<Opened>,
    older: &Option<Opened>,
    folder: &str,
    path: &str,
) -> io::Result<Option<Opened>> {
    if let Some(done) = sync_open(newer, path) {
        done?;
        return Ok(None);
    }
    if let Some(done) = sync_open(older, path) {
        done?;
        return Ok(None);
    }
    sync_path(alloc, rt, folder, path)
}

// Opens the file that is locked, which is there. What is no plain file is not opened.
fn open_there<R: Files<File = File>>(rt: &R, path: &str) -> io::Result<File> {
    if fs::symlink_metadata(rt, path)?.is_file() {
        File::open(rt, path)
    } else {
        Err(io::Error::from(ErrorKind::InvalidInput))
    }
}

// Makes the file that is locked, or opens it where it is there. So one call tells that the folder is missing.
fn open_lock<R: Files<File = File>>(rt: &R, path: &str) -> io::Result<File> {
    match create_file(rt, path) {
        Err(error) if error.kind() == ErrorKind::AlreadyExists => open_there(rt, path),
        made => made,
    }
}

// Locks an open file, without waiting.
fn try_lock(file: &File, alone: bool) -> io::Result<()> {
    let done = if alone {
        file.try_lock()
    } else {
        file.try_lock_shared()
    };
    match done {
        Ok(()) => Ok(()),
        Err(TryLockError::WouldBlock) => Err(io::Error::from(ErrorKind::WouldBlock)),
        Err(TryLockError::Error(error)) => Err(error),
    }
}

// Opens and locks the file at the system's path.
fn lock_file<R: Files<File = File>>(rt: &R, path: &str, alone: bool) -> io::Result<File> {
    let file = open_lock(rt, path)?;
    try_lock(&file, alone)?;
    Ok(file)
}

impl<R: Files<File = File> + AllocGlobal + Clone + Drop> SystemDisk<R> {
    /// The folder at this path, which need not be there.
    pub fn new(rt: R, folder: String) -> SystemDisk<R>
        ensures calls { ⟦<SystemDisk<R> as Disk>⟧.calls result ≡ [] }
        ensures faults { ⟦<SystemDisk<R> as Disk>⟧.faults result ≡ 0 }
    {
        SystemDisk {
            rt,
            folder,
            lock: None,
            is_alone: false,
            refused: None,
            begun: None,
            stored: None,
            newer: None,
            older: None,
            log: Record::new(),
            failed: Record::new(),
        }
    }

    // Asks the system for the lock, and keeps what it answered.
    fn ask(&mut self, alloc: Global, alone: bool) -> io::Result<()>
        ensures log { self.new.log ≡ self.old.log }
        ensures failed { self.new.failed ≡ self.old.failed }
        ensures held { OnOk result (IsSome self.new.lock) }
        ensures alone { OnOk result (alone ≡ true → self.new.is_alone ≡ true) }
        ensures refused { IfErr result (λ e. error_kind e ≡ WouldBlock → self.new.refused ≡ Some WouldBlock) }
        ensures stays { self.old.refused ≡ Some WouldBlock → IsExcluded result }
    {
        if let Some(kind) = self.refused {
            return Err(io::Error::from(kind));
        }
        if self.lock.is_some() {
            if alone && !self.is_alone {
                self.refused = Some(ErrorKind::WouldBlock);
                return Err(io::Error::from(ErrorKind::WouldBlock));
            }
            return Ok(());
        }
        let path = path_of(alloc, self.folder.as_str(), LOCK)?;
        match lock_file(&self.rt, path.as_str(), alone) {
            Ok(file) => {
                self.lock = Some(file);
                self.is_alone = alone;
                Ok(())
            }
            Err(error) => {
                let kind = error.kind();
                if kind != ErrorKind::NotFound && kind != ErrorKind::OutOfMemory {
                    self.refused = Some(kind);
                }
                Err(error)
            }
        }
    }

    // Locks the folder, as others may do too.
    fn lock_shared(&mut self, alloc: Global) -> io::Result<()>
        ensures calls { self.new.log.events ≡ lock_event false result ∷ self.old.log.events }
        ensures stays { is_excluded self.old.log.events ≡ true → IsExcluded result }
        ensures cause { HasCause (failures self.old.failed.events) (failures self.new.failed.events) (IsFault result) }
    {
        let done = self.ask(alloc, false);
        note_fault(&mut self.failed, &done, ErrorKind::OutOfMemory);
        match done {
            Ok(()) => {
                self.log = Record::noted(&self.log, &Kind::Shared, &[], &[]);
                Ok(())
            }
            Err(error) => {
                self.log = Record::noted(&self.log, &kind_of_fault(error.kind()), &[], &[]);
                Err(error)
            }
        }
    }

    // Locks the folder alone.
    fn lock_alone(&mut self, alloc: Global) -> io::Result<()>
        ensures calls { self.new.log.events
            ≡ lock_event true result ∷ (kinds.Asked, [], []) ∷ self.old.log.events }
        ensures stays { is_excluded self.old.log.events ≡ true → IsExcluded result }
        ensures cause { HasCause (failures self.old.failed.events) (failures self.new.failed.events) (IsFault result) }
    {
        self.log = Record::noted(&self.log, &Kind::Asked, &[], &[]);
        let done = self.ask(alloc, true);
        note_fault(&mut self.failed, &done, ErrorKind::OutOfMemory);
        match done {
            Ok(()) => {
                self.log = Record::noted(&self.log, &Kind::Alone, &[], &[]);
                Ok(())
            }
            Err(error) => {
                self.log = Record::noted(&self.log, &kind_of_fault(error.kind()), &[], &[]);
                Err(error)
            }
        }
    }
}

// What is noted of a wish for the lock that failed.
fn kind_of_fault(kind: ErrorKind) -> Kind
    ensures { result ≡ lock_fault kind }
{
    match kind {
        ErrorKind::WouldBlock => Kind::Excluded,
        _ => Kind::Failed,
    }
}

// The error of an entry of a folder. That an entry is not there does not say that the folder is not.
fn entry_fault(error: io::Error) -> io::Error
    ensures { error_kind result ≢ NotFound }
{
    if error.kind() == ErrorKind::NotFound {
        return io::Error::from(ErrorKind::Other);
    }
    error
}

// Adds the name of an entry of a folder, if it is that of a file. What is no text is no name, and what is gone by now is no
// file.
fn add_file<R: Files + Drop>(
    alloc: Global,
    entry: io::Result<DirEntry<R>>,
    files: &mut Vec<String>,
) -> io::Result<()>
    ensures { IfErr result (λ e. error_kind e ≢ NotFound) }
{
    let entry = match entry {
        Ok(entry) => entry,
        Err(error) if error.kind() == ErrorKind::InvalidFilename => return Ok(()),
        Err(error) => return Err(entry_fault(error)),
    };
    match entry.metadata() {
        Ok(found) if is_counted(&found) => {
            files.push(String::from_str(alloc, entry.file_name())?)?;
            Ok(())
        }
        Ok(_) => Ok(()),
        Err(error) if error.kind() == ErrorKind::NotFound => Ok(()),
        Err(error) => Err(error),
    }
}

// The names of the files among the entries of a folder, which is there.
fn files_among<R: Files + AllocGlobal + Clone + Drop>(
    alloc: Global,
    entries: ReadDir<R>,
) -> io::Result<Vec<String>>
    ensures { IfErr result (λ e. error_kind e ≢ NotFound) }
{
    let mut files = Vec::new(alloc);
    'entries: for entry in entries {
        add_file(alloc, entry, &mut files)?;
    }
    Ok(files)
}

// The names of the files in the folder at the system's path.
fn list_files<R: Files + AllocGlobal + Clone + Drop>(
    rt: &R,
    alloc: Global,
    path: &str,
) -> io::Result<Vec<String>> {
    let entries = fs::read_dir(rt, path)?;
    files_among(alloc, entries)
}

impl<R: Files<File = File> + AllocGlobal + Clone + Drop> Disk for SystemDisk<R> {
    ghost use Rattle.std.specs.Prelude.{false};
    ghost use Rattle.std.specs.FinMap.{empty};

    ghost is_known = { false };

    ghost files = { λ _. empty };

    ghost calls = { λ d. d.log.events };

    ghost faults = { λ d. failures d.failed.events };

    fn again(&self, alloc: Global) -> Result<SystemDisk<R>, AllocError> {
        // Where the system gives no second handle, this one keeps the lock, and the other one has none.
        let lock = match &self.lock {
            Some(file) => file.try_clone().ok(),
            None => None,
        };
        let is_alone = self.is_alone && lock.is_some();
        let refused = if self.lock.is_some() && lock.is_none() && self.refused.is_none() {
            Some(ErrorKind::Other)
        } else {
            self.refused
        };
        Ok(SystemDisk {
            rt: self.rt.clone()?,
            folder: String::from_str(alloc, self.folder.as_str())?,
            lock,
            is_alone,
            refused,
            begun: None,
            stored: None,
            newer: None,
            older: None,
            log: Record::new(),
            failed: Record::new(),
        })
    }

    fn join(&mut self, other: SystemDisk<R>) {
        if self.lock.is_some() || self.refused.is_some() {
            return;
        }
        let SystemDisk {
            rt: _,
            folder: _,
            lock,
            is_alone,
            refused,
            begun: _,
            stored: _,
            newer: _,
            older: _,
            log: _,
            failed: _,
        } = other;
        self.is_alone = is_alone;
        self.refused = refused;
        self.lock = lock;
    }

    fn lock(&mut self, alloc: Global, alone: bool) -> io::Result<()> {
        if alone {
            self.lock_alone(alloc)
        } else {
            self.lock_shared(alloc)
        }
    }

    fn look(&mut self, alloc: Global, path: &str) -> io::Result<bool> {
        let full = path_of(alloc, self.folder.as_str(), path)?;
        let done = look_at(&self.rt, full.as_str());
        note_fault(&mut self.failed, &done, ErrorKind::OutOfMemory);
        if done? {
            self.log = Record::noted(&self.log, &Kind::Seen, path.as_bytes(), &[]);
            Ok(true)
        } else {
            Ok(false)
        }
    }

    fn read(&mut self, alloc: Global, path: &str) -> io::Result<Vec<u8>> {
        let path = path_of(alloc, self.folder.as_str(), path)?;
        let done = read_file(&self.rt, alloc, path.as_str());
        note_fault(&mut self.failed, &done, ErrorKind::NotFound);
        done
    }

    fn create(&mut self, alloc: Global, path: &str) -> io::Result<()> {
        let full = path_of(alloc, self.folder.as_str(), path)?;
        let done = create_file(&self.rt, full.as_str());
        note_fault(&mut self.failed, &done, ErrorKind::OutOfMemory);
        self.begun = Some(Opened {
            path: full,
            file: done?,
        });
        self.log = Record::noted(&self.log, &Kind::Created, path.as_bytes(), &[]);
        Ok(())
    }

    fn write(&mut self, _alloc: Global, path: &str, bytes: &[u8]) -> io::Result<()> {
        self.log = Record::noted(&self.log, &Kind::Wrote, path.as_bytes(), &[]);
        let done = write_begun(self.begun.take(), bytes);
        note_fault(&mut self.failed, &done, ErrorKind::OutOfMemory);
        self.begun = Some(done?);
        Ok(())
    }

    fn sync(&mut self, alloc: Global, path: &str) -> io::Result<()> {
        let done = match take_at(&mut self.begun, self.folder.as_str(), path) {
            Some(made) => sync_made(made, &mut self.stored),
            None => sync_folder(
                alloc,
                &self.rt,
                &self.newer,
                &self.older,
                self.folder.as_str(),
                path,
            ),
        };
        note_fault(&mut self.failed, &done, ErrorKind::OutOfMemory);
        match done {
            Ok(folder) => {
                if folder.is_some() {
                    self.older = self.newer.take();
                    self.newer = folder;
                }
                self.log = Record::noted(&self.log, &Kind::Synced, path.as_bytes(), &[]);
                Ok(())
            }
            Err(error) => {
                if error.kind() == ErrorKind::NotFound {
                    self.log = Record::noted(&self.log, &Kind::Absent, path.as_bytes(), &[]);
                }
                Err(error)
            }
        }
    }

    fn rename(&mut self, alloc: Global, old: &str, path: &str) -> io::Result<()> {
        self.begun = None;
        let done = rename_file(
            alloc,
            &self.rt,
            self.stored.take(),
            self.folder.as_str(),
            old,
            path,
        );
        note_fault(&mut self.failed, &done, ErrorKind::OutOfMemory);
        match done {
            Ok(()) => {
                self.log = Record::noted(
                    &self.log,
                    &Kind::Renamed,
                    path.as_bytes(),
                    old.as_bytes(),
                );
                Ok(())
            }
            Err(error) => {
                self.log = Record::noted(&self.log, &Kind::Tried, path.as_bytes(), old.as_bytes());
                Err(error)
            }
        }
    }

    fn remove(&mut self, alloc: Global, path: &str) -> io::Result<()> {
        self.log = Record::noted(&self.log, &Kind::Removed, path.as_bytes(), &[]);
        self.begun = None;
        let path = path_of(alloc, self.folder.as_str(), path)?;
        let done = fs::remove_file(&self.rt, path.as_str());
        note_fault(&mut self.failed, &done, ErrorKind::NotFound);
        done
    }

    fn make_folder(&mut self, alloc: Global, path: &str) -> io::Result<()> {
        self.log = Record::noted(&self.log, &Kind::Made, path.as_bytes(), &[]);
        self.newer = None;
        self.older = None;
        let path = path_of(alloc, self.folder.as_str(), path)?;
        let done = fs::create_dir(&self.rt, path.as_str());
        note_fault(&mut self.failed, &done, ErrorKind::AlreadyExists);
        done
    }

    fn list(&mut self, alloc: Global, path: &str) -> io::Result<Vec<String>> {
        let path = path_of(alloc, self.folder.as_str(), path)?;
        let done = list_files(&self.rt, alloc, path.as_str());
        note_fault(&mut self.failed, &done, ErrorKind::NotFound);
        done
    }
}
