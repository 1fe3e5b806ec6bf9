//! A folder of the system.

ghost use Rattle.std.specs.Prelude.{◌≡◌, None, IfOk};

use bundle_folder::{
    Entry, Folder, FolderFault, Kind, ListFault, ReadFault, WriteFault, is_left_out,
};
use bx_io::one_more;
use bx_tree::{MAX_FILE_BYTES, MAX_PATH_BYTES, Path};
use std::alloc::{AllocError, Global};
use std::fs::{self, DirEntry, File, FileType, OpenFile};
use std::io::{self, ErrorKind, Read, Write};
use std::rt::Files;

/// A folder of the system. What it holds is not known. Links are seen as links, and not followed; only the
/// folder itself may be reached through one. Each error of the system is a fault, and raises the count by
/// one, up to the greatest `u64`.
#[derive(Drop)]
pub struct SystemFolder<R, W> {
    rt: R,
    folder: String,
    terminal: Option<W>,
    faults: u64,
}

// What a walk through the folder has found: entries, and the places of directories that are still to be
// listed.
#[derive(Drop)]
struct Walk {
    entries: Vec<Entry>,
    pending: Vec<String>,
}

// How many bytes of a path are shown on a terminal, so that its line is not broken.
const SHOWN: usize = 60;

fn kind_of(found: FileType) -> Kind {
    if found.is_file() {
        Kind::File
    } else {
        Kind::Other
    }
}

// The name of a place for the system.
fn system_path(alloc: Global, folder: &str, place: &str) -> Result<String, AllocError> {
    match place {
        "." => String::from_str(alloc, folder),
        below => format!(in alloc; "{folder}/{below}"),
    }
}

// The place of a name in a directory.
fn place_in(alloc: Global, dir: &str, name: &str) -> Result<String, AllocError> {
    match dir {
        "." => String::from_str(alloc, name),
        above => format!(in alloc; "{above}/{name}"),
    }
}

// Adds an entry of a directory to a walk. A directory whose place is too long for a path is added as a thing,
// and what lies in it is not looked at.
fn add_entry<R: Files>(
    alloc: Global,
    dir: &str,
    left_out: &[&str],
    entry: &DirEntry<R>,
    walk: &mut Walk,
) -> io::Result<()> {
    let place = place_in(alloc, dir, entry.file_name())?;
    if is_left_out(left_out, place.as_str()) {
        return Ok(());
    }
    let found = entry.file_type()?;
    if found.is_dir() && place.len() <= MAX_PATH_BYTES {
        walk.pending.push(place)?;
    } else {
        walk.entries.push(Entry {
            place,
            kind: kind_of(found),
        })?;
    }
    Ok(())
}

// Adds what lies directly in a directory to a walk.
fn add_directory<R: Files + AllocGlobal + Clone + Drop>(
    rt: &R,
    alloc: Global,
    folder: &str,
    dir: &str,
    left_out: &[&str],
    walk: &mut Walk,
) -> io::Result<()> {
    'entries: for entry in fs::read_dir(rt, system_path(alloc, folder, dir)?.as_str())? {
        add_entry(alloc, dir, left_out, &entry?, walk)?;
    }
    Ok(())
}

// Why a directory was not listed. The error of a name that is not text has no code of the system.
fn list_fault(error: io::Error, dir: String) -> ListFault {
    match error.kind() {
        ErrorKind::InvalidFilename if error.raw_os_error().is_none() => ListFault::NoText(dir),
        ErrorKind::OutOfMemory => ListFault::Memory,
        _ => ListFault::Failed(dir),
    }
}

// All that lies in a folder, by place.
fn walk_through<R: Files + AllocGlobal + Clone + Drop>(
    rt: &R,
    alloc: Global,
    folder: &str,
    left_out: &[&str],
) -> Result<Vec<Entry>, ListFault> {
    let mut walk = Walk {
        entries: Vec::new(alloc),
        pending: Vec::new(alloc),
    };
    walk.pending.push(String::from_str(alloc, ".")?)?;
    'directories: for _ in 0..u64::MAX {
        let Some(dir) = walk.pending.pop() else {
            break;
        };
        if let Err(error) = add_directory(rt, alloc, folder, dir.as_str(), left_out, &mut walk) {
            return Err(list_fault(error, dir));
        }
    }
    walk.entries
        .sort_unstable_by(|one, other| one.place.as_str().cmp(other.place.as_str()));
    Ok(walk.entries)
}

// The bytes of a file, or one more than a file may have.
fn read_of<R: Files>(rt: &R, alloc: Global, path: &str) -> io::Result<Vec<u8>> {
    let mut file = File::open(rt, path)?.take(MAX_FILE_BYTES as u64 + 1);
    let mut bytes = Vec::new(alloc);
    file.read_to_end(&mut bytes)?;
    Ok(bytes)
}

// What lies at a path of the system; a link is not followed.
#[derive(Clone, Copy, Debug, PartialEq, Eq)]
enum Seen {
    Nothing,
    Directory,
    Thing,
}

fn look_at<R: Files>(rt: &R, path: &str) -> io::Result<Seen> {
    match fs::symlink_metadata(rt, path) {
        Ok(found) if found.is_dir() => Ok(Seen::Directory),
        Ok(_) => Ok(Seen::Thing),
        Err(error) if error.kind() == ErrorKind::NotFound => Ok(Seen::Nothing),
        Err(error) => Err(error),
    }
}

// Whether a file can be made at a path below a folder.
fn is_free_at<R: Files>(rt: &R, folder: &str, path: &str) -> io::Result<bool> {
    'bytes: for end in 0..path.len() {
        if end > folder.len() && path.as_bytes()[end] == b'/' {
            match look_at(rt, path.get(..end).unwrap_or(folder))? {
                Seen::Nothing => return Ok(true),
                Seen::Directory => (),
                Seen::Thing => return Ok(false),
            }
        }
    }
    Ok(matches!(look_at(rt, path)?, Seen::Nothing))
}

// Makes a directory, unless one is there.
fn make_directory<R: Files>(rt: &R, path: &str) -> io::Result<()> {
    match fs::create_dir(rt, path) {
        Err(error) if error.kind() == ErrorKind::AlreadyExists => Ok(()),
        made => made,
    }
}

// Makes the directories above a path, from the folder down.
fn make_above<R: Files>(rt: &R, folder: &str, path: &str) -> io::Result<()> {
    'bytes: for end in folder.len()..path.len() {
        if path.as_bytes()[end] == b'/' {
            make_directory(rt, path.get(..end).unwrap_or(folder))?;
        }
    }
    Ok(())
}

// Makes a file. One that was begun and cannot be written whole is removed again.
fn write_of<R: Files>(rt: &R, path: &str, bytes: &[u8]) -> io::Result<()> {
    let mut file = File::create_new(rt, path)?;
    let written = file.write_all(bytes);
    if written.is_err() {
        let _ = fs::remove_file(rt, path);
    }
    written
}

// Removes a file, a link, or a directory with all that is in it, if it is there.
fn remove_of<R: Files + AllocGlobal>(rt: &R, path: &str) -> io::Result<()> {
    match look_at(rt, path)? {
        Seen::Nothing => Ok(()),
        Seen::Directory => fs::remove_dir_all(rt, path),
        Seen::Thing => fs::remove_file(rt, path),
    }
}

// Names a file on a terminal, in place of the one before.
fn show<W: Write>(terminal: &mut Option<W>, action: &str, path: &Path) {
    if let Some(terminal) = terminal {
        let text = path.text();
        let start = text.len().saturating_sub(SHOWN);
        for part in ["\r\x1b[K", action, text.get(start..).unwrap_or(text)] {
            let _ = terminal.write_all(part.as_bytes());
        }
    }
}

impl<R: Files + AllocGlobal + Clone + Drop, W: Write + Drop> SystemFolder<R, W> {
    /// The folder of this name. Where there is a terminal, each file is named on it while it is read or made,
    /// in one line that is written over.
    pub fn new(
        rt: &R,
        alloc: Global,
        folder: &str,
        terminal: Option<W>,
    ) -> Result<SystemFolder<R, W>, AllocError>
        ensures holds { IfOk result (λ folder. ⟦<SystemFolder<R, W> as Folder>⟧.holds folder ≡ None) }
        ensures faults { IfOk result (λ folder. ⟦<SystemFolder<R, W> as Folder>⟧.faults folder ≡ 0) }
    {
        Ok(SystemFolder {
            rt: rt.clone()?,
            folder: String::from_str(alloc, folder)?,
            terminal,
            faults: 0,
        })
    }

    /// Takes the name of a file from the terminal.
    pub fn hide(&mut self) {
        if let Some(terminal) = &mut self.terminal {
            let _ = terminal.write_all(b"\r\x1b[K");
        }
    }

    // The name of a path for the system.
    fn path_of(&self, alloc: Global, path: &Path) -> Result<String, AllocError> {
        system_path(alloc, self.folder.as_str(), path.text())
    }
}

impl<R: Files + AllocGlobal + Clone + Drop, W: Write + Drop> Folder for SystemFolder<R, W> {
    ghost use Rattle.std.specs.Prelude.{None};

    ghost holds = { λ _. None };

    ghost faults = { λ f. f.faults };

    fn list(&mut self, alloc: Global, left_out: &[&str]) -> Result<Vec<Entry>, ListFault> {
        match walk_through(&self.rt, alloc, self.folder.as_str(), left_out) {
            Err(ListFault::Failed(dir)) => {
                self.faults = one_more(self.faults);
                Err(ListFault::Failed(dir))
            }
            listed => listed,
        }
    }

    fn read(&mut self, alloc: Global, path: &Path) -> Result<Vec<u8>, ReadFault> {
        show(&mut self.terminal, "reads ", path);
        let place = self.path_of(alloc, path)?;
        match read_of(&self.rt, alloc, place.as_str()) {
            Ok(bytes) if bytes.len() > MAX_FILE_BYTES => Err(ReadFault::TooLarge),
            Ok(bytes) => Ok(bytes),
            Err(error) if error.kind() == ErrorKind::OutOfMemory => Err(ReadFault::Memory),
            Err(_) => {
                self.faults = one_more(self.faults);
                Err(ReadFault::Failed)
            }
        }
    }

    fn is_free(&mut self, alloc: Global, path: &Path) -> Result<bool, FolderFault> {
        let Ok(place) = self.path_of(alloc, path) else {
            return Err(FolderFault::Memory);
        };
        match is_free_at(&self.rt, self.folder.as_str(), place.as_str()) {
            Ok(free) => Ok(free),
            Err(error) if error.kind() == ErrorKind::OutOfMemory => Err(FolderFault::Memory),
            Err(_) => {
                self.faults = one_more(self.faults);
                Err(FolderFault::Failed)
            }
        }
    }

    fn write_new(&mut self, alloc: Global, path: &Path, bytes: &[u8]) -> Result<(), WriteFault> {
        show(&mut self.terminal, "makes ", path);
        let place = self.path_of(alloc, path)?;
        let above = make_above(&self.rt, self.folder.as_str(), place.as_str());
        match above.and_then(|_| write_of(&self.rt, place.as_str(), bytes)) {
            Ok(()) => Ok(()),
            Err(error) => match error.kind() {
                ErrorKind::AlreadyExists | ErrorKind::NotADirectory => Err(WriteFault::Exists),
                ErrorKind::OutOfMemory => Err(WriteFault::Memory),
                _ => {
                    self.faults = one_more(self.faults);
                    Err(WriteFault::Failed)
                }
            },
        }
    }

    fn remove(&mut self, alloc: Global, path: &Path) -> Result<(), FolderFault> {
        let Ok(place) = self.path_of(alloc, path) else {
            return Err(FolderFault::Memory);
        };
        match remove_of(&self.rt, place.as_str()) {
            Ok(()) => Ok(()),
            Err(error) if error.kind() == ErrorKind::OutOfMemory => Err(FolderFault::Memory),
            Err(_) => {
                self.faults = one_more(self.faults);
                Err(FolderFault::Failed)
            }
        }
    }
}
