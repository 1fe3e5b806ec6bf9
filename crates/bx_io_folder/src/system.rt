//! A folder with the record of what it answered.

ghost use Rattle.std.specs.Prelude.{◌≡◌, ◌≢◌, ◌<◌, ℕ, List, [], ◌∷◌, ◌&&◌, true, Err, IfOk, IsErr, IsSome, None, OnOk, Some, length};
ghost use Rattle.std.specs.FinMap.{get};
ghost use Rattle.bx_io.specs.Answers.{ListsNames};
ghost use Rattle.bx_io.specs.Causes.{HasCause};
ghost use Rattle.bx_io.specs.Holdings.{AreNames, Holdings, Put, Drop};
ghost use Rattle.bx_io.specs.Names.{IsName};
ghost use Rattle.bx_io_disk.specs.Answers.{alone_event, change_event, event_for, got_of, listed_event, listed_of, put_of};
ghost use Rattle.bx_io_disk.specs.Events.{alone_of, failures};
ghost use Rattle.bx_io_folder.specs.NamedFiles.{IsLeft, told_at};
ghost use Rattle.bx_io_folder.specs.Order.{OwnsNoMore};
ghost use Rattle.bx_io_disk.specs.Files.{Reads, is_excluded};
ghost use Rattle.bx_io_folder.specs.Named.{ToldNames, ToldNames-prop};
ghost use Rattle.bx_io_disk.specs.Telling.{told, tells};
ghost use Rattle.bx_io_disk.specs.declared.kind.Kind.TheVariants as kinds;

use crate::ordered::OrderedDisk;
use bx_io::{Got, Listed, PutFault, one_more};
use bx_io_disk::{Disk, FILE_LIMIT, Kind, Record};
use std::alloc::{AllocError, Global};
use std::io::{self, ErrorKind};

/// A folder, the record of what it answered and what was changed, and the count of faults, which is that of the
/// record. Where it is known what the files of the folder hold, the record tells just that.
#[derive(Drop)]
pub struct System<D: Disk> {
    disk: OrderedDisk<D>,
    pub log: Record,
    pub faults: u64,
    ghost counted: { faults ≡ failures log.events },
    ghost agrees: { (name : List ℕ) → D.is_known ≡ true → IsName name
        → told_at (told log.held log.events log.closed) name ≡ Some (get (D.files disk.disk) name) },
    ghost telling: { D.is_known ≡ true → IsSome (told log.held log.events log.closed) },
    ghost named: { ToldNames (told log.held log.events log.closed) } by { ToldNames-prop _ },
    ghost alone: { alone_of log.events ≡ true → disk.alone ≡ true },
}

// Notes that a change failed.
fn refused(log: &mut Record, faults: &mut u64, name: &str, error: io::Error) -> PutFault
    requires counted { faults.old ≡ failures log.old.events }
    ensures answer { Err result ≡ put_of (Err error) }
    ensures noted { log.new ≡ record log.old {
      events = change_event (Put name.now []) (Err result) ∷ log.old.events;
    } }
    ensures counted { faults.new ≡ failures log.new.events }
    ensures cause { HasCause faults.old faults.new (result ≡ PutFault.Failed) }
    ensures no_fault { result ≢ PutFault.Failed → faults.new ≡ faults.old }
{
    if error.kind() == ErrorKind::OutOfMemory {
        *log = Record::noted(log, &Kind::Memory, name.as_bytes(), &[]);
        PutFault::Memory
    } else {
        *log = Record::noted(log, &Kind::Failed, name.as_bytes(), &[]);
        *faults = one_more(*faults);
        PutFault::Failed
    }
}

// Notes what became of a put.
fn was_put(
    log: &mut Record,
    faults: &mut u64,
    name: &str,
    bytes: &[u8],
    done: io::Result<()>,
) -> Result<(), PutFault>
    requires counted { faults.old ≡ failures log.old.events }
    ensures answer { result ≡ put_of done }
    ensures noted { log.new ≡ record log.old {
      events = change_event (Put name.now bytes.now) result ∷ log.old.events;
    } }
    ensures counted { faults.new ≡ failures log.new.events }
    ensures cause { HasCause faults.old faults.new (result ≡ Err PutFault.Failed) }
    ensures no_fault { result ≢ Err PutFault.Failed → faults.new ≡ faults.old }
{
    match done {
        Ok(()) => {
            *log = Record::noted(log, &Kind::Put, name.as_bytes(), bytes);
            Ok(())
        }
        Err(error) => Err(refused(log, faults, name, error)),
    }
}

// Notes what became of a drop.
fn was_dropped(
    log: &mut Record,
    faults: &mut u64,
    name: &str,
    done: io::Result<()>,
) -> Result<(), PutFault>
    requires counted { faults.old ≡ failures log.old.events }
    ensures answer { result ≡ put_of done }
    ensures noted { log.new ≡ record log.old {
      events = change_event (Drop name.now) result ∷ log.old.events;
    } }
    ensures counted { faults.new ≡ failures log.new.events }
    ensures cause { HasCause faults.old faults.new (result ≡ Err PutFault.Failed) }
    ensures no_fault { result ≢ Err PutFault.Failed → faults.new ≡ faults.old }
{
    match done {
        Ok(()) => {
            *log = Record::noted(log, &Kind::Dropped, name.as_bytes(), &[]);
            Ok(())
        }
        Err(error) => Err(refused(log, faults, name, error)),
    }
}

// Notes what became of the wish to work alone.
fn was_asked(log: &mut Record, faults: &mut u64, done: io::Result<()>) -> Result<(), PutFault>
    requires counted { faults.old ≡ failures log.old.events }
    ensures answer { result ≡ put_of done }
    ensures noted { log.new ≡ record log.old { events = alone_event result ∷ log.old.events } }
    ensures counted { faults.new ≡ failures log.new.events }
    ensures cause { HasCause faults.old faults.new (result ≡ Err PutFault.Failed) }
    ensures no_fault { result ≢ Err PutFault.Failed → faults.new ≡ faults.old }
{
    match done {
        Ok(()) => {
            *log = Record::noted(log, &Kind::Alone, &[], &[]);
            Ok(())
        }
        Err(error) => Err(refused(log, faults, "", error)),
    }
}

// Answers with the names of a folder, or with what a listing that failed comes to.
fn listing(done: io::Result<Vec<String>>) -> Listed
    ensures { result ≡ listed_of done }
{
    match done {
        Ok(names) => Listed::Names(names),
        Err(error) if error.kind() == ErrorKind::OutOfMemory => Listed::Memory,
        Err(_) => Listed::Failed,
    }
}

// Notes what became of a listing.
fn was_listed(log: &mut Record, faults: &mut u64, done: io::Result<Vec<String>>) -> Listed
    requires counted { faults.old ≡ failures log.old.events }
    requires names { IfOk done (λ names. ListsNames (Listed.Names names)) }
    ensures answer { result ≡ listed_of done }
    ensures noted { log.new ≡ record log.old { events = listed_event result ∷ log.old.events } }
    ensures names { ListsNames result }
    ensures counted { faults.new ≡ failures log.new.events }
    ensures cause { HasCause faults.old faults.new (result ≡ Listed.Failed) }
    ensures no_fault { result ≢ Listed.Failed → faults.new ≡ faults.old }
{
    let answer = listing(done);
    *log = Record::listed(log, &answer);
    if matches!(answer, Listed::Failed) {
        *faults = one_more(*faults);
    }
    answer
}

impl<D: Disk> System<D> {
    /// The folder of this disk, of which nothing was asked yet.
    pub(crate) fn new(disk: D) -> System<D>
        ghost held: { Holdings }
        requires unused { D.calls disk ≡ [] }
        requires names { AreNames held }
        requires agrees { D.is_known ≡ true → (name : List ℕ) → IsName name
            → get held name ≡ get (D.files disk) name }
        ensures held { result.log.held ≡ held }
        ensures events { result.log.events ≡ [] }
        ensures closed { result.log.closed ≡ true }
        ensures faults { result.faults ≡ 0 }
    {
        System {
            disk: OrderedDisk::new(disk),
            log: Record::new(),
            faults: 0,
        }
    }

    // Notes what a read of a name gave.
    fn answered(&mut self, name: &str, done: io::Result<Vec<u8>>) -> Got
        requires is_name { IsName name.now }
        requires found { D.is_known ≡ true → Reads (D.files self.old.disk.disk) name.now done }
        ensures answer { result ≡ got_of done }
        ensures noted { self.new.log ≡ record self.old.log {
          events = event_for name.now result ∷ self.old.log.events;
        } }
        ensures disk { self.new.disk ≡ self.old.disk }
        ensures cause { HasCause self.old.faults self.new.faults (result ≡ Got.Failed) }
        ensures no_fault { result ≢ Got.Failed → self.new.faults ≡ self.old.faults }
    {
        match done {
            Ok(bytes) => {
                self.log = Record::noted(
                    &self.log,
                    &Kind::Found,
                    name.as_bytes(),
                    bytes.as_slice(),
                );
                Got::Found(bytes)
            }
            Err(error) => match error.kind() {
                ErrorKind::NotFound => {
                    self.log = Record::noted(&self.log, &Kind::Absent, name.as_bytes(), &[]);
                    Got::None
                }
                ErrorKind::OutOfMemory => {
                    self.log = Record::noted(&self.log, &Kind::Memory, name.as_bytes(), &[]);
                    Got::Memory
                }
                _ => {
                    self.log = Record::noted(&self.log, &Kind::Failed, name.as_bytes(), &[]);
                    self.faults = one_more(self.faults);
                    Got::Failed
                }
            },
        }
    }

    /// Works alone from here on.
    pub(crate) fn alone(&mut self, alloc: Global) -> Result<(), PutFault>
        ensures noted { self.new.log ≡ record self.old.log { events = alone_event result ∷ self.old.log.events } }
        ensures cleared { D.is_known ≡ true → OnOk result ((path : List ℕ) → IsLeft path
            → get (D.files self.new.disk.disk) path ≡ None) }
        ensures excluded { is_excluded (D.calls self.old.disk.disk) ≡ true → result ≡ Err PutFault.Failed }
        ensures cause { HasCause self.old.faults self.new.faults (result ≡ Err PutFault.Failed) }
        ensures no_fault { result ≢ Err PutFault.Failed → self.new.faults ≡ self.old.faults }
        ensures disk { HasCause (D.faults self.old.disk.disk) (D.faults self.new.disk.disk) (result ≡ Err PutFault.Failed) }
    {
        let done = self.disk.work_alone(alloc);
        was_asked(&mut self.log, &mut self.faults, done)
    }

    /// The answer for a name.
    pub(crate) fn get(&mut self, alloc: Global, name: &str) -> Got
        requires { IsName name.now }
        ensures noted { self.new.log ≡ record self.old.log {
          events = event_for name.now result ∷ self.old.log.events;
        } }
        ensures cause { HasCause self.old.faults self.new.faults (result ≡ Got.Failed) }
        ensures no_fault { result ≢ Got.Failed → self.new.faults ≡ self.old.faults }
        ensures excluded { is_excluded (D.calls self.old.disk.disk) ≡ true → result ≡ Got.Failed }
        ensures disk { HasCause (D.faults self.old.disk.disk) (D.faults self.new.disk.disk) (result ≡ Got.Failed) }
    {
        let done = self.disk.get(alloc, name);
        self.answered(name, done)
    }

    /// Puts bytes under a name.
    pub(crate) fn put(&mut self, alloc: Global, name: &str, bytes: &[u8]) -> Result<(), PutFault>
        requires { IsName name.now }
        ensures noted { self.new.log ≡ record self.old.log {
          events = change_event (Put name.now bytes.now) result ∷ self.old.log.events;
        } }
        ensures cause { HasCause self.old.faults self.new.faults (result ≡ Err PutFault.Failed) }
        ensures no_fault { result ≢ Err PutFault.Failed → self.new.faults ≡ self.old.faults }
        ensures left { OwnsNoMore (D.calls self.old.disk.disk) (D.calls self.new.disk.disk) }
        ensures large { FILE_LIMIT < length bytes.now → IsErr result }
        ensures excluded { is_excluded (D.calls self.old.disk.disk) ≡ true → result ≡ Err PutFault.Failed }
        ensures disk { HasCause (D.faults self.old.disk.disk) (D.faults self.new.disk.disk) (result ≡ Err PutFault.Failed) }
    {
        let done = self.disk.put(alloc, name, bytes);
        was_put(&mut self.log, &mut self.faults, name, bytes, done)
    }

    /// Drops a name. Where nothing is there, nothing is there afterwards.
    pub(crate) fn drop_name(&mut self, alloc: Global, name: &str) -> Result<(), PutFault>
        requires { IsName name.now }
        ensures noted { self.new.log ≡ record self.old.log {
          events = change_event (Drop name.now) result ∷ self.old.log.events;
        } }
        ensures cause { HasCause self.old.faults self.new.faults (result ≡ Err PutFault.Failed) }
        ensures no_fault { result ≢ Err PutFault.Failed → self.new.faults ≡ self.old.faults }
        ensures excluded { is_excluded (D.calls self.old.disk.disk) ≡ true → result ≡ Err PutFault.Failed }
        ensures disk { HasCause (D.faults self.old.disk.disk) (D.faults self.new.disk.disk) (result ≡ Err PutFault.Failed) }
    {
        let done = self.disk.drop_name(alloc, name);
        was_dropped(&mut self.log, &mut self.faults, name, done)
    }

    /// All names.
    pub(crate) fn names(&mut self, alloc: Global) -> Listed
        ensures noted { self.new.log ≡ record self.old.log {
          events = listed_event result ∷ self.old.log.events;
        } }
        ensures names { ListsNames result }
        ensures cause { HasCause self.old.faults self.new.faults (result ≡ Listed.Failed) }
        ensures no_fault { result ≢ Listed.Failed → self.new.faults ≡ self.old.faults }
        ensures excluded { is_excluded (D.calls self.old.disk.disk) ≡ true → result ≡ Listed.Failed }
        ensures disk { HasCause (D.faults self.old.disk.disk) (D.faults self.new.disk.disk) (result ≡ Listed.Failed) }
    {
        let done = self.disk.names(alloc);
        was_listed(&mut self.log, &mut self.faults, done)
    }

    /// Takes another one back: joins its record, and keeps the lock of its folder.
    pub(crate) fn join(&mut self, other: System<D>)
        ensures log { self.new.log ≡ record self.old.log {
          closed = tells (told other.log.held other.log.events other.log.closed)
              && self.old.log.closed;
        } }
        ensures faults { self.new.faults ≡ self.old.faults }
    {
        self.log = Record::joined(&self.log, &other.log);
        self.disk.join(other.into_disk());
    }

    // The files of the folder alone.
    fn into_disk(self) -> OrderedDisk<D> {
        let System {
            disk,
            log: _,
            faults: _,
        } = self;
        disk
    }

    /// The same folder, with a count of faults of its own.
    pub(crate) fn again(&self, alloc: Global) -> Result<System<D>, AllocError>
        ensures log { IfOk result (λ system. system.log ≡ record self.now.log {
          events = (kinds.Started, [], []) ∷ self.now.log.events;
        }) }
        ensures faults { IfOk result (λ system. system.faults ≡ 0) }
    {
        Ok(System {
            disk: self.disk.again(alloc)?,
            log: Record::noted(&self.log, &Kind::Started, &[], &[]),
            faults: 0,
        })
    }
}
