//! The files of a folder in memory.

ghost use Rattle.std.specs.Prelude.{◌≡◌, ◌<◌, ◌⊎◌, ◌||◌, ℕ, List, [], ◌∷◌, ◌++◌, IfErr, IfOk, IsErr, IsOk, Ok, OnErr, OnOk, bytes_eq, false, is_some, length};
ghost use Rattle.std.specs.FinMap.{empty, get};
ghost use Rattle.std.specs.IoError.{error_kind};
ghost use Rattle.std.specs.declared.io.ErrorKind.TheVariants.{AlreadyExists, FileTooLarge, NotFound, OutOfMemory};
ghost use Rattle.bx_io.specs.Causes.{HasCause};
ghost use Rattle.bx_io.specs.Stored.{holdings_of};
ghost use Rattle.bx_io_disk.specs.Events.{failures};
ghost use Rattle.bx_io_disk.specs.Files.{Creates, IsFault, Reads, Removes, Renames, Writes, asked, is_among, is_excluded, lock_event, looked, path_in, renamed_kind};
ghost use Rattle.bx_io_disk.specs.declared.kind.Kind.TheVariants as kinds;

use crate::disk::{Disk, FILE_LIMIT};
use crate::kind::Kind;
use crate::record::Record;
use std::alloc::{AllocError, Global};
use std::collections::BTreeMap;
use std::io::{self, ErrorKind};

/// The files of a folder in memory. Folders in it need not be made, a listing has all files below a folder, and nobody
/// else locks it. Its faults are three: a file is to be made where one is, or written with more than [`FILE_LIMIT`] bytes,
/// or renamed where there is none.
#[derive(Drop)]
pub struct MemDisk {
    map: BTreeMap<String, Vec<u8>>,
    log: Record,
    failed: Record,
    ghost alone: { is_excluded log.events ≡ false },
}

impl MemDisk {
    /// A folder without files.
    pub fn new(alloc: Global) -> MemDisk
        ensures files { ⟦<MemDisk as Disk>⟧.files result ≡ empty }
        ensures calls { ⟦<MemDisk as Disk>⟧.calls result ≡ [] }
        ensures faults { ⟦<MemDisk as Disk>⟧.faults result ≡ 0 }
    {
        MemDisk {
            map: BTreeMap::new(alloc),
            log: Record::new(),
            failed: Record::new(),
        }
    }
}

// Notes a fault, and gives its error.
fn fault(failed: &mut Record, kind: ErrorKind) -> io::Error
    ensures kind { error_kind result ≡ kind }
    ensures noted { failed.new ≡ record failed.old { events = (kinds.Failed, [], []) ∷ failed.old.events } }
{
    *failed = Record::noted(failed, &Kind::Failed, &[], &[]);
    io::Error::from(kind)
}

// Adds the path of a file from a folder, if it lies in that.
fn add_below(alloc: Global, inside: &str, file: &str, names: &mut Vec<String>) -> io::Result<()>
    ensures added { OnOk result ((q : List ℕ)
        → is_among q names.new.items ≡ (is_among q names.old.items || bytes_eq (inside.now ++ q) file.now)) }
    ensures fault { IfErr result (λ e. error_kind e ≡ OutOfMemory) }
{
    let Some(name) = file.strip_prefix(inside) else {
        return Ok(());
    };
    names.push(String::from_str(alloc, name)?)?;
    Ok(())
}

impl Disk for MemDisk {
    ghost use Rattle.std.specs.Prelude.{true};

    ghost is_known = { true };

    ghost files = { λ d. holdings_of d.map };

    ghost calls = { λ d. d.log.events };

    ghost faults = { λ d. failures d.failed.events };

    fn again(&self, _alloc: Global) -> Result<MemDisk, AllocError> {
        Ok(MemDisk {
            map: self.map.clone()?,
            log: Record::new(),
            failed: Record::new(),
        })
    }

    fn join(&mut self, _other: MemDisk)
        ensures { self.new ≡ self.old }
    {}

    fn lock(&mut self, _alloc: Global, alone: bool) -> io::Result<()>
        ensures done { result ≡ Ok tt }
        ensures files { self.new.map ≡ self.old.map }
        ensures calls { self.new.log.events ≡ lock_event alone result ∷ asked alone self.old.log.events }
        ensures stays { is_excluded self.old.log.events ≡ false }
        ensures no_fault { self.new.failed ≡ self.old.failed }
    {
        if alone {
            self.log = Record::noted(&self.log, &Kind::Asked, &[], &[]);
            self.log = Record::noted(&self.log, &Kind::Alone, &[], &[]);
            Ok(())
        } else {
            self.log = Record::noted(&self.log, &Kind::Shared, &[], &[]);
            Ok(())
        }
    }

    fn look(&mut self, _alloc: Global, path: &str) -> io::Result<bool>
        ensures there { IfOk result (λ is. is ≡ is_some (get (holdings_of self.old.map) path.now)) }
        ensures done { IsOk result }
        ensures files { self.new.map ≡ self.old.map }
        ensures calls { IfOk result (λ is. self.new.log.events ≡ looked is path.now self.old.log.events) }
        ensures no_fault { self.new.failed ≡ self.old.failed }
    {
        if self.map.get(path).is_some() {
            self.log = Record::noted(&self.log, &Kind::Seen, path.as_bytes(), &[]);
            Ok(true)
        } else {
            Ok(false)
        }
    }

    fn read(&mut self, alloc: Global, path: &str) -> io::Result<Vec<u8>>
        ensures found { Reads (holdings_of self.old.map) path.now result }
        ensures same { self.new ≡ self.old }
        ensures fault { IfErr result (λ e. (error_kind e ≡ NotFound) ⊎ (error_kind e ≡ OutOfMemory)) }
    {
        match self.map.get(path) {
            Some(bytes) => Ok(bytes.to_vec(alloc)?),
            None => Err(io::Error::from(ErrorKind::NotFound)),
        }
    }

    fn create(&mut self, alloc: Global, path: &str) -> io::Result<()>
        ensures created { Creates (holdings_of self.old.map) (holdings_of self.new.map) path.now result }
        ensures made { OnOk result (self.new.log.events ≡ (kinds.Created, path.now, []) ∷ self.old.log.events) }
        ensures failed { OnErr result (self.new.log.events ≡ self.old.log.events) }
        ensures fault { IfErr result (λ e. (error_kind e ≡ AlreadyExists) ⊎ (error_kind e ≡ OutOfMemory)) }
        ensures cause { HasCause (failures self.old.failed.events) (failures self.new.failed.events) (IsFault result) }
    {
        let key = String::from_str(alloc, path)?;
        if self.map.get(path).is_some() {
            return Err(fault(&mut self.failed, ErrorKind::AlreadyExists));
        }
        self.map.insert(key, Vec::new(alloc))?;
        self.log = Record::noted(&self.log, &Kind::Created, path.as_bytes(), &[]);
        Ok(())
    }

    fn write(&mut self, alloc: Global, path: &str, bytes: &[u8]) -> io::Result<()>
        ensures written { Writes (holdings_of self.old.map) (holdings_of self.new.map) path.now bytes.now result }
        ensures calls { self.new.log.events ≡ (kinds.Wrote, path.now, []) ∷ self.old.log.events }
        ensures large { FILE_LIMIT < length bytes.now → IsErr result }
        ensures fault { IfErr result (λ e. (error_kind e ≡ FileTooLarge) ⊎ (error_kind e ≡ OutOfMemory)) }
        ensures cause { HasCause (failures self.old.failed.events) (failures self.new.failed.events) (IsFault result) }
    {
        self.log = Record::noted(&self.log, &Kind::Wrote, path.as_bytes(), &[]);
        if bytes.len() > FILE_LIMIT {
            return Err(fault(&mut self.failed, ErrorKind::FileTooLarge));
        }
        let key = String::from_str(alloc, path)?;
        self.map.insert(key, bytes.to_vec(alloc)?)?;
        Ok(())
    }

    fn sync(&mut self, _alloc: Global, path: &str) -> io::Result<()>
        ensures done { IsOk result }
        ensures files { self.new.map ≡ self.old.map }
        ensures calls { self.new.log.events ≡ (kinds.Synced, path.now, []) ∷ self.old.log.events }
        ensures no_fault { self.new.failed ≡ self.old.failed }
    {
        self.log = Record::noted(&self.log, &Kind::Synced, path.as_bytes(), &[]);
        Ok(())
    }

    fn rename(&mut self, alloc: Global, old: &str, path: &str) -> io::Result<()>
        ensures renamed { Renames (holdings_of self.old.map) (holdings_of self.new.map) old.now path.now result }
        ensures calls { self.new.log.events ≡ (renamed_kind result, path.now, old.now) ∷ self.old.log.events }
        ensures fault { IfErr result (λ e. (error_kind e ≡ NotFound) ⊎ (error_kind e ≡ OutOfMemory)) }
        ensures cause { HasCause (failures self.old.failed.events) (failures self.new.failed.events) (IsFault result) }
    {
        let renamed = Record::noted(&self.log, &Kind::Renamed, path.as_bytes(), old.as_bytes());
        self.log = Record::noted(&self.log, &Kind::Tried, path.as_bytes(), old.as_bytes());
        let key = String::from_str(alloc, path)?;
        let Some(bytes) = self.map.get(old) else {
            return Err(fault(&mut self.failed, ErrorKind::NotFound));
        };
        let bytes = bytes.to_vec(alloc)?;
        self.map.insert(key, bytes)?;
        self.log = renamed;
        if old != path {
            self.map.remove(old);
        }
        Ok(())
    }

    fn remove(&mut self, _alloc: Global, path: &str) -> io::Result<()>
        ensures removed { Removes (holdings_of self.old.map) (holdings_of self.new.map) path.now result }
        ensures calls { self.new.log.events ≡ (kinds.Removed, path.now, []) ∷ self.old.log.events }
        ensures fault { IfErr result (λ e. error_kind e ≡ NotFound) }
        ensures no_fault { self.new.failed ≡ self.old.failed }
    {
        self.log = Record::noted(&self.log, &Kind::Removed, path.as_bytes(), &[]);
        if self.map.get(path).is_none() {
            return Err(io::Error::from(ErrorKind::NotFound));
        }
        self.map.remove(path);
        Ok(())
    }

    fn make_folder(&mut self, _alloc: Global, path: &str) -> io::Result<()>
        ensures done { IsOk result }
        ensures files { self.new.map ≡ self.old.map }
        ensures calls { self.new.log.events ≡ (kinds.Made, path.now, []) ∷ self.old.log.events }
        ensures no_fault { self.new.failed ≡ self.old.failed }
    {
        self.log = Record::noted(&self.log, &Kind::Made, path.as_bytes(), &[]);
        Ok(())
    }

    fn list(&mut self, alloc: Global, path: &str) -> io::Result<Vec<String>>
        ensures listed { IfOk result (λ names. (q : List ℕ)
            → is_among q names.items ≡ is_some (get (holdings_of self.old.map) (path_in path.now q))) }
        ensures same { self.new ≡ self.old }
        ensures fault { IfErr result (λ e. error_kind e ≡ OutOfMemory) }
    {
        let inside = format!(in alloc; "{path}/")?;
        let mut names = Vec::new(alloc);
        for file in self.map.keys() {
            add_below(alloc, inside.as_str(), file.as_str(), &mut names)?;
        }
        Ok(names)
    }
}
