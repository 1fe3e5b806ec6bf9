//! Puts and drops of names in a folder, in an order that a loss of power cannot turn round.

ghost use Rattle.std.specs.Prelude.{◌≡◌, ◌≢◌, ◌<◌, ◌≤◌, ◌||◌, ◌↔◌, ◌++◌, IfErr, IfSome, IsErr, IsTrue, ℕ, List, bytes_eq, length, true, false, [], None, Ok, OnErr, OnOk, IfOk, codes, slice_index, string_bytes, take};
ghost use Rattle.std.specs.FinMap.{get};
ghost use Rattle.std.specs.Fmt.{decimal};
ghost use Rattle.std.specs.IoError.{error_kind};
ghost use Rattle.std.specs.declared.io.ErrorKind.TheVariants.{AlreadyExists, NotFound, OutOfMemory, WouldBlock};
ghost use Rattle.bx_io.specs.Causes.{HasCause};
ghost use Rattle.bx_io.specs.Names.{IsName};
ghost use Rattle.bx_io_folder.specs.NamedFiles.{AreTaken, BeginsAt, Clears, Drops, IsEnding, IsBegun, IsLeft, Places, Puts, SameNames, SameOthers, AreAllNames, ListsHeld, has_file, is_below, begun_at, place_ending};
ghost use Rattle.bx_io_disk.specs.Files.{Creates, HasNone, IsExcluded, IsFault, IsFaultBut, Reads, Removes, Renames, Writes, is_among, is_created, is_excluded, is_locked};
ghost use Rattle.bx_io_folder.specs.Order.{blob_letter, entry_letter, is_after, is_durable, is_ready, is_stored, unsynced, has_folders, GoesOn, OwnsBut, OwnsNoMore, asks_alone, is_own, may_change};
ghost use Rattle.bx_io.specs.Answers.{ListsNames};
ghost use Rattle.bx_io.specs.declared.keeper.Listed.TheVariants as listed;

use bx_io::{NAME_LENGTH, is_name};
use bx_io_disk::{Disk, FILE_LIMIT};
use std::alloc::{AllocError, Global};
use std::io::{self, ErrorKind};

/// How many puts of one name may be under way at the same time.
pub const PLACES: u64 = 64;

// The most bytes that follow a name where a file is begun.
const LONGEST_ENDING: usize = 7;

/// The files of a folder, with what has to be synced before the next change: the folder of the contents before an
/// entry that follows them; that of the entries before a list, and before a content is dropped; and before a file
/// gets its name the folders in which one was made. At first each of them has to be, as another process may have
/// stopped in the midst of its changes. Nothing is changed but under the lock of the folder, which is alone or shared.
#[derive(Drop)]
pub struct OrderedDisk<D: Disk> {
    disk: D,
    blobs: bool,
    entries: bool,
    folders: bool,
    alone: bool,
    ghost durable: { is_durable (D.calls disk) ≡ true },
    ghost blobs_known: { unsynced blob_letter (D.calls disk) ≡ true → blobs ≡ true },
    ghost entries_known: { unsynced entry_letter (D.calls disk) ≡ true → entries ≡ true },
    ghost folders_known: { folders ≡ false → has_folders (D.calls disk) ≡ true },
    ghost asked: { asks_alone (D.calls disk) ≡ alone },
}

// The first letter of a name, which is that of its kind.
fn letter_of(name: &str) -> u8
    requires { IsName name.now }
    ensures { result ≡ slice_index name.now 0 }
{
    let bytes = name.as_bytes();
    bytes[0]
}

// Adds a number to a text.
fn push_number(alloc: Global, text: &mut String, number: u64) -> Result<(), AllocError>
    ensures { OnOk result (string_bytes text.new ≡ string_bytes text.old ++ decimal number) }
{
    if number == 0 {
        return text.push_str("0");
    }
    text.push_str(format!(in alloc; "{number}")?.as_str())
}

// Where the file of a name may be begun.
fn begun_path(alloc: Global, name: &str, place: u64) -> Result<String, AllocError>
    requires { IsName name.now }
    ensures at { IfOk result (λ begun. string_bytes begun ≡ begun_at name.now place) }
    ensures begun { IfOk result (λ begun. IsBegun (string_bytes begun)) }
{
    let mut begun = String::with_capacity(alloc, NAME_LENGTH + LONGEST_ENDING)?;
    begun.push_str(name)?;
    begun.push_str(".new-")?;
    push_number(alloc, &mut begun, place)?;
    Ok(begun)
}

// Whether this is what follows a name where a file is begun, now or before there were places.
fn is_ending(alloc: Global, text: &[u8]) -> Result<bool, AllocError>
    ensures { IfOk result (λ is. IsTrue is ↔ IsEnding text.now) }
{
    if text == b".new".as_slice() {
        return Ok(true);
    }
    'endings: for place in 0..PLACES {
        let ending = format!(in alloc; ".new-{place}")?;
        if text == ending.as_bytes() {
            return Ok(true);
        }
    }
    Ok(false)
}

// Whether a put that was stopped may have left a file at this path.
fn is_left(alloc: Global, path: &str) -> Result<bool, AllocError>
    ensures { IfOk result (λ is. IsTrue is ↔ IsLeft path.now) }
{
    let bytes = path.as_bytes();
    if bytes.len() < NAME_LENGTH || !is_name(&bytes[..NAME_LENGTH]) {
        return Ok(false);
    }
    is_ending(alloc, &bytes[NAME_LENGTH..])
}

// Whether a folder may be read that could not be locked, by the error of the lock: one that is not there, and one in which
// nothing can be made, unless it is to be this handle's alone.
fn is_readable(kind: ErrorKind, alone: bool) -> bool
    ensures excluded { IsTrue result → kind ≢ WouldBlock }
    ensures missing { kind ≡ NotFound → IsTrue result }
{
    kind == ErrorKind::NotFound
        || (!alone && kind != ErrorKind::WouldBlock && kind != ErrorKind::OutOfMemory)
}

// Adds a name, if it is one.
fn add_name(names: &mut Vec<String>, name: String) -> io::Result<()>
    requires { AreAllNames names.old.items }
    ensures names { AreAllNames names.new.items }
    ensures added { OnOk result ((q : List ℕ) → IsName q
        → is_among q names.new.items ≡ (is_among q names.old.items || bytes_eq q (string_bytes name))) }
    ensures fault { IfErr result (λ e. error_kind e ≡ OutOfMemory) }
{
    if is_name(name.as_bytes()) {
        names.push(name)?;
    }
    Ok(())
}

// Adds the names among the files of the folder of a kind.
fn add_files(alloc: Global, kind: &str, files: &[String], names: &mut Vec<String>) -> io::Result<()>
    requires { AreAllNames names.old.items }
    ensures names { AreAllNames names.new.items }
    ensures added { OnOk result ((q : List ℕ) → IsName q
        → is_among q names.new.items ≡ (is_among q names.old.items || is_below kind.now q files.now)) }
    ensures fault { IfErr result (λ e. error_kind e ≡ OutOfMemory) }
{
    'files: for file in files {
        add_name(names, format!(in alloc; "{kind}/{file}")?)?;
    }
    Ok(())
}

// Names in order, each once.
fn in_order(names: Vec<String>) -> Vec<String>
    requires { AreAllNames names.items }
    ensures names { ListsNames (listed.Names result) }
    ensures same { (q : List ℕ) → is_among q result.items ≡ is_among q names.items }
{
    let mut names = names;
    names.sort_unstable();
    names.dedup();
    names
}

impl<D: Disk> OrderedDisk<D> {
    /// The files of this folder, of which anything may wait to be stored.
    pub(crate) fn new(disk: D) -> OrderedDisk<D>
        requires { D.calls disk ≡ [] }
        ensures { result.disk ≡ disk }
    {
        OrderedDisk {
            disk,
            blobs: true,
            entries: true,
            folders: true,
            alone: false,
        }
    }

    /// Another handle of the same files.
    pub(crate) fn again(&self, alloc: Global) -> Result<OrderedDisk<D>, AllocError>
        ensures { IfOk result (λ ordered. D.files ordered.disk ≡ D.files self.now.disk) }
    {
        Ok(OrderedDisk::new(self.disk.again(alloc)?))
    }

    /// Takes another handle of the same files back.
    pub(crate) fn join(&mut self, other: OrderedDisk<D>)
        ensures files { D.files self.new.disk ≡ D.files self.old.disk }
        ensures calls { D.calls self.new.disk ≡ D.calls self.old.disk }
        ensures faults { D.faults self.new.disk ≡ D.faults self.old.disk }
        ensures alone { self.new.alone ≡ self.old.alone }
    {
        self.disk.join(other.into_disk());
    }

    // The handle of the disk alone.
    fn into_disk(self) -> D {
        let OrderedDisk {
            disk,
            blobs: _,
            entries: _,
            folders: _,
            alone: _,
        } = self;
        disk
    }

    // Asks for the lock as was asked.
    fn ask(&mut self, alloc: Global) -> io::Result<()>
        ensures held { OnOk result (may_change (D.calls self.new.disk) ≡ true) }
        ensures missing { D.is_known ≡ true → IfErr result (λ e. error_kind e ≡ NotFound → HasNone (D.files self.old.disk)) }
        ensures files { D.files self.new.disk ≡ D.files self.old.disk }
        ensures own { (path : List ℕ) → is_own path (D.calls self.new.disk) ≡ is_own path (D.calls self.old.disk) }
        ensures alone { self.new.alone ≡ self.old.alone }
        ensures excluded { is_excluded (D.calls self.new.disk) ≡ true → IsExcluded result }
        ensures stays { is_excluded (D.calls self.old.disk) ≡ true → IsExcluded result }
        ensures cause { HasCause (D.faults self.old.disk) (D.faults self.new.disk) (IsFault result) }
    {
        self.disk.lock(alloc, self.alone)
    }

    // Locks the folder as was asked. Answers whether it is there.
    fn lock(&mut self, alloc: Global) -> io::Result<bool>
        ensures held { result ≡ Ok true → may_change (D.calls self.new.disk) ≡ true }
        ensures missing { D.is_known ≡ true → result ≡ Ok false → HasNone (D.files self.old.disk) }
        ensures files { D.files self.new.disk ≡ D.files self.old.disk }
        ensures own { (path : List ℕ) → is_own path (D.calls self.new.disk) ≡ is_own path (D.calls self.old.disk) }
        ensures alone { self.new.alone ≡ self.old.alone }
        ensures excluded { is_excluded (D.calls self.new.disk) ≡ true → IsExcluded result }
        ensures stays { is_excluded (D.calls self.old.disk) ≡ true → IsExcluded result }
        ensures cause { HasCause (D.faults self.old.disk) (D.faults self.new.disk) (IsFault result) }
    {
        match self.ask(alloc) {
            Ok(()) => Ok(true),
            Err(error) if error.kind() == ErrorKind::NotFound => Ok(false),
            Err(error) => Err(error),
        }
    }

    // Locks the folder before something is read, and answers whether it is there. Where there is no lock, but nobody excludes
    // this handle, it is read without.
    fn enter(&mut self, alloc: Global) -> io::Result<bool>
        ensures missing { D.is_known ≡ true → result ≡ Ok false → HasNone (D.files self.old.disk) }
        ensures files { D.files self.new.disk ≡ D.files self.old.disk }
        ensures alone { self.new.alone ≡ self.old.alone }
        ensures there { IfErr result (λ e. error_kind e ≢ NotFound) }
        ensures excluded { is_excluded (D.calls self.new.disk) ≡ true → IsExcluded result }
        ensures stays { is_excluded (D.calls self.old.disk) ≡ true → IsExcluded result }
        ensures cause { HasCause (D.faults self.old.disk) (D.faults self.new.disk) (IsFault result) }
    {
        match self.lock(alloc) {
            Err(error) if is_readable(error.kind(), self.alone) => Ok(true),
            locked => locked,
        }
    }

    /// The bytes of the file of a name.
    pub(crate) fn get(&mut self, alloc: Global, name: &str) -> io::Result<Vec<u8>>
        ensures found { D.is_known ≡ true → Reads (D.files self.old.disk) name.now result }
        ensures files { D.files self.new.disk ≡ D.files self.old.disk }
        ensures alone { self.new.alone ≡ self.old.alone }
        ensures excluded { is_excluded (D.calls self.old.disk) ≡ true → IsExcluded result }
        ensures cause { HasCause (D.faults self.old.disk) (D.faults self.new.disk) (IsFaultBut NotFound result) }
    {
        if self.enter(alloc)? && self.disk.look(alloc, name)? {
            self.disk.read(alloc, name)
        } else {
            Err(io::Error::from(ErrorKind::NotFound))
        }
    }

    // Syncs the folder of the contents, if something may have been changed there. One that is not there needs none.
    fn sync_blobs(&mut self, alloc: Global) -> io::Result<()>
        ensures synced { OnOk result (unsynced blob_letter (D.calls self.new.disk) ≡ false) }
        ensures goes_on { GoesOn (D.calls self.old.disk) (D.calls self.new.disk) }
        ensures files { D.files self.new.disk ≡ D.files self.old.disk }
        ensures alone { self.new.alone ≡ self.old.alone }
        ensures cause { HasCause (D.faults self.old.disk) (D.faults self.new.disk) (IsFault result) }
    {
        if !self.blobs {
            return Ok(());
        }
        match self.disk.sync(alloc, "b") {
            Ok(()) => {
                self.blobs = false;
                Ok(())
            }
            Err(error) if error.kind() == ErrorKind::NotFound => {
                self.blobs = false;
                Ok(())
            }
            failed => failed,
        }
    }

    // Syncs the folder of the entries, if something may have been changed there. One that is not there needs none.
    fn sync_entries(&mut self, alloc: Global) -> io::Result<()>
        ensures synced { OnOk result (unsynced entry_letter (D.calls self.new.disk) ≡ false) }
        ensures goes_on { GoesOn (D.calls self.old.disk) (D.calls self.new.disk) }
        ensures files { D.files self.new.disk ≡ D.files self.old.disk }
        ensures alone { self.new.alone ≡ self.old.alone }
        ensures cause { HasCause (D.faults self.old.disk) (D.faults self.new.disk) (IsFault result) }
    {
        if !self.entries {
            return Ok(());
        }
        match self.disk.sync(alloc, "e") {
            Ok(()) => {
                self.entries = false;
                Ok(())
            }
            Err(error) if error.kind() == ErrorKind::NotFound => {
                self.entries = false;
                Ok(())
            }
            failed => failed,
        }
    }

    // Syncs what has to be stored before the file of a name is put.
    fn settle(&mut self, alloc: Global, name: &str) -> io::Result<()>
        requires { IsName name.now }
        ensures ready { OnOk result (is_ready name.now (D.calls self.new.disk) ≡ true) }
        ensures goes_on { GoesOn (D.calls self.old.disk) (D.calls self.new.disk) }
        ensures files { D.files self.new.disk ≡ D.files self.old.disk }
        ensures alone { self.new.alone ≡ self.old.alone }
        ensures cause { HasCause (D.faults self.old.disk) (D.faults self.new.disk) (IsFault result) }
    {
        match letter_of(name) {
            b'e' => self.sync_blobs(alloc),
            b'w' => self.sync_entries(alloc),
            _ => Ok(()),
        }
    }

    // Makes a folder, unless it is there. It is stored before the next file gets its name.
    fn make_folder(&mut self, alloc: Global, path: &str) -> io::Result<()>
        ensures goes_on { GoesOn (D.calls self.old.disk) (D.calls self.new.disk) }
        ensures files { D.files self.new.disk ≡ D.files self.old.disk }
        ensures alone { self.new.alone ≡ self.old.alone }
        ensures kind { IfErr result (λ e. error_kind e ≢ AlreadyExists) }
        ensures cause { HasCause (D.faults self.old.disk) (D.faults self.new.disk) (IsFault result) }
    {
        self.folders = true;
        match self.disk.make_folder(alloc, path) {
            Err(error) if error.kind() == ErrorKind::AlreadyExists => Ok(()),
            made => made,
        }
    }

    // Makes the folder, and in it the folder of the kind of a name.
    fn make_folders(&mut self, alloc: Global, name: &str) -> io::Result<()>
        ensures goes_on { GoesOn (D.calls self.old.disk) (D.calls self.new.disk) }
        ensures files { D.files self.new.disk ≡ D.files self.old.disk }
        ensures alone { self.new.alone ≡ self.old.alone }
        ensures kind { IfErr result (λ e. error_kind e ≢ AlreadyExists) }
        ensures cause { HasCause (D.faults self.old.disk) (D.faults self.new.disk) (IsFault result) }
    {
        self.make_folder(alloc, "")?;
        self.make_folder(alloc, name.get(..1).unwrap_or(""))
    }

    // Locks the folder before something is changed, and makes it where it is missing.
    fn hold(&mut self, alloc: Global) -> io::Result<()>
        ensures held { OnOk result (may_change (D.calls self.new.disk) ≡ true) }
        ensures files { D.files self.new.disk ≡ D.files self.old.disk }
        ensures own { (path : List ℕ) → is_own path (D.calls self.new.disk) ≡ is_own path (D.calls self.old.disk) }
        ensures alone { self.new.alone ≡ self.old.alone }
        ensures stays { is_excluded (D.calls self.old.disk) ≡ true → IsExcluded result }
        ensures cause { HasCause (D.faults self.old.disk) (D.faults self.new.disk) (IsFault result) }
    {
        if self.lock(alloc)? {
            return Ok(());
        }
        self.make_folder(alloc, "")?;
        self.ask(alloc)
    }

    // Syncs the folders in which a folder was made, if one may have been.
    fn sync_folders(&mut self, alloc: Global) -> io::Result<()>
        ensures synced { OnOk result (has_folders (D.calls self.new.disk) ≡ true) }
        ensures goes_on { GoesOn (D.calls self.old.disk) (D.calls self.new.disk) }
        ensures files { D.files self.new.disk ≡ D.files self.old.disk }
        ensures alone { self.new.alone ≡ self.old.alone }
        ensures cause { HasCause (D.faults self.old.disk) (D.faults self.new.disk) (IsFault result) }
    {
        if self.folders {
            self.disk.sync(alloc, "..")?;
            self.disk.sync(alloc, "")?;
            self.folders = false;
        }
        Ok(())
    }

    // Makes an empty file at a place of a name, and the folders for it where they are missing.
    fn make(&mut self, alloc: Global, name: &str, begun: &str) -> io::Result<()>
        requires begun { IsBegun begun.now }
        requires locked { may_change (D.calls self.old.disk) ≡ true }
        ensures created { D.is_known ≡ true
            → Creates (D.files self.old.disk) (D.files self.new.disk) begun.now result }
        ensures made { OnOk result (is_created begun.now (D.calls self.new.disk) ≡ true) }
        ensures own { OwnsBut begun.now (D.calls self.old.disk) (D.calls self.new.disk) }
        ensures failed { OnErr result (GoesOn (D.calls self.old.disk) (D.calls self.new.disk)) }
        ensures locked { may_change (D.calls self.new.disk) ≡ true }
        ensures ready { (path : List ℕ) → is_ready path (D.calls self.old.disk) ≡ true
            → is_ready path (D.calls self.new.disk) ≡ true }
        ensures alone { self.new.alone ≡ self.old.alone }
        ensures cause { HasCause (D.faults self.old.disk) (D.faults self.new.disk) (IsFault result) }
    {
        match self.disk.create(alloc, begun) {
            Err(error) if error.kind() == ErrorKind::NotFound => {
                self.make_folders(alloc, name)?;
                self.disk.create(alloc, begun)
            }
            made => made,
        }
    }

    // Makes an empty file at a place of a name. Answers whether nothing was there.
    fn try_place(&mut self, alloc: Global, name: &str, begun: &str) -> io::Result<bool>
        requires begun { IsBegun begun.now }
        requires locked { may_change (D.calls self.old.disk) ≡ true }
        ensures placed { D.is_known ≡ true
            → IfOk result (Places (D.files self.old.disk) (D.files self.new.disk) begun.now) }
        ensures same { D.is_known ≡ true → OnErr result (D.files self.new.disk ≡ D.files self.old.disk) }
        ensures made { result ≡ Ok true → is_created begun.now (D.calls self.new.disk) ≡ true }
        ensures own { OwnsBut begun.now (D.calls self.old.disk) (D.calls self.new.disk) }
        ensures failed { result ≢ Ok true → GoesOn (D.calls self.old.disk) (D.calls self.new.disk) }
        ensures locked { may_change (D.calls self.new.disk) ≡ true }
        ensures ready { (path : List ℕ) → is_ready path (D.calls self.old.disk) ≡ true
            → is_ready path (D.calls self.new.disk) ≡ true }
        ensures alone { self.new.alone ≡ self.old.alone }
        ensures cause { HasCause (D.faults self.old.disk) (D.faults self.new.disk) (IsFault result) }
        ensures taken { HasCause (D.faults self.old.disk) (D.faults self.new.disk) (result ≡ Ok false) }
    {
        match self.make(alloc, name, begun) {
            Ok(()) => Ok(true),
            Err(error) if error.kind() == ErrorKind::AlreadyExists => Ok(false),
            Err(error) => Err(error),
        }
    }

    // Makes an empty file at the first place of a name where nothing is. Answers its path, unless each place is taken.
    fn begin(&mut self, alloc: Global, name: &str) -> io::Result<Option<String>>
        requires is_name { IsName name.now }
        requires locked { may_change (D.calls self.old.disk) ≡ true }
        ensures begins { D.is_known ≡ true → IfOk result (λ begun. IfSome begun (λ path.
            BeginsAt (D.files self.old.disk) (D.files self.new.disk) name.now (string_bytes path))) }
        ensures full { D.is_known ≡ true → result ≡ Ok None → AreTaken (D.files self.old.disk) name.now PLACES }
        ensures same { D.is_known ≡ true → SameNames (D.files self.old.disk) (D.files self.new.disk) }
        ensures begun { IfOk result (λ begun. IfSome begun (λ path. IsBegun (string_bytes path))) }
        ensures created { IfOk result (λ begun. IfSome begun (λ path.
            is_created (string_bytes path) (D.calls self.new.disk) ≡ true)) }
        ensures own { IfOk result (λ begun. IfSome begun (λ path.
            OwnsBut (string_bytes path) (D.calls self.old.disk) (D.calls self.new.disk))) }
        ensures none { result ≡ Ok None → GoesOn (D.calls self.old.disk) (D.calls self.new.disk) }
        ensures failed { OnErr result (GoesOn (D.calls self.old.disk) (D.calls self.new.disk)) }
        ensures locked { may_change (D.calls self.new.disk) ≡ true }
        ensures ready { (path : List ℕ) → is_ready path (D.calls self.old.disk) ≡ true
            → is_ready path (D.calls self.new.disk) ≡ true }
        ensures alone { self.new.alone ≡ self.old.alone }
        ensures cause { HasCause (D.faults self.old.disk) (D.faults self.new.disk) (IsFault result) }
        ensures taken { HasCause (D.faults self.old.disk) (D.faults self.new.disk) (result ≡ Ok None) }
    {
        'places: for place in 0..PLACES {
            let begun = begun_path(alloc, name, place)?;
            if self.try_place(alloc, name, begun.as_str())? {
                return Ok(Some(begun));
            }
        }
        Ok(None)
    }

    // Writes a file that was made, and waits until its bytes are stored, and the folders that were made.
    fn store(&mut self, alloc: Global, begun: &str, bytes: &[u8]) -> io::Result<()>
        requires begun { IsBegun begun.now }
        requires created { is_created begun.now (D.calls self.old.disk) ≡ true }
        requires locked { may_change (D.calls self.old.disk) ≡ true }
        ensures written { D.is_known ≡ true
            → Writes (D.files self.old.disk) (D.files self.new.disk) begun.now bytes.now result }
        ensures stored { OnOk result (is_stored begun.now (D.calls self.new.disk) ≡ true) }
        ensures folders { OnOk result (has_folders (D.calls self.new.disk) ≡ true) }
        ensures goes_on { GoesOn (D.calls self.old.disk) (D.calls self.new.disk) }
        ensures alone { self.new.alone ≡ self.old.alone }
        ensures large { FILE_LIMIT < length bytes.now → IsErr result }
        ensures cause { HasCause (D.faults self.old.disk) (D.faults self.new.disk) (IsFault result) }
    {
        self.disk.write(alloc, begun, bytes)?;
        self.sync_folders(alloc)?;
        self.disk.sync(alloc, begun)?;
        Ok(())
    }

    // Removes a file that was begun.
    fn give_up(&mut self, alloc: Global, begun: &str)
        requires begun { IsBegun begun.now }
        requires own { is_own begun.now (D.calls self.old.disk) ≡ true }
        requires locked { may_change (D.calls self.old.disk) ≡ true }
        ensures names { D.is_known ≡ true → SameNames (D.files self.old.disk) (D.files self.new.disk) }
        ensures gone { is_own begun.now (D.calls self.new.disk) ≡ false }
        ensures own { OwnsBut begun.now (D.calls self.old.disk) (D.calls self.new.disk) }
        ensures alone { self.new.alone ≡ self.old.alone }
        ensures later { D.faults self.old.disk ≤ D.faults self.new.disk }
    {
        let _ = self.disk.remove(alloc, begun);
    }

    // Gives a file that was begun its name.
    fn finish(&mut self, alloc: Global, begun: &str, name: &str) -> io::Result<()>
        requires is_name { IsName name.now }
        requires own { is_own begun.now (D.calls self.old.disk) ≡ true }
        requires locked { may_change (D.calls self.old.disk) ≡ true }
        requires stored { is_stored begun.now (D.calls self.old.disk) ≡ true }
        requires ready { is_ready name.now (D.calls self.old.disk) ≡ true }
        requires folders { has_folders (D.calls self.old.disk) ≡ true }
        ensures renamed { D.is_known ≡ true
            → Renames (D.files self.old.disk) (D.files self.new.disk) begun.now name.now result }
        ensures gone { OnOk result (is_own begun.now (D.calls self.new.disk) ≡ false) }
        ensures kept { OnErr result (is_own begun.now (D.calls self.new.disk) ≡ true) }
        ensures own { OwnsBut begun.now (D.calls self.old.disk) (D.calls self.new.disk) }
        ensures locked { may_change (D.calls self.new.disk) ≡ true }
        ensures alone { self.new.alone ≡ self.old.alone }
        ensures cause { HasCause (D.faults self.old.disk) (D.faults self.new.disk) (IsFault result) }
    {
        let letter = letter_of(name);
        let done = self.disk.rename(alloc, begun, name);
        self.blobs = self.blobs || letter == b'b';
        self.entries = self.entries || letter == b'e';
        done
    }

    // Writes a file that was made, and gives it its name.
    fn fill(&mut self, alloc: Global, begun: &str, name: &str, bytes: &[u8]) -> io::Result<()>
        requires is_name { IsName name.now }
        requires begun { IsBegun begun.now }
        requires created { is_created begun.now (D.calls self.old.disk) ≡ true }
        requires locked { may_change (D.calls self.old.disk) ≡ true }
        requires ready { is_ready name.now (D.calls self.old.disk) ≡ true }
        ensures put { D.is_known ≡ true
            → Puts (D.files self.old.disk) (D.files self.new.disk) name.now bytes.now result }
        ensures gone { OnOk result (is_own begun.now (D.calls self.new.disk) ≡ false) }
        ensures kept { OnErr result (is_own begun.now (D.calls self.new.disk) ≡ true) }
        ensures own { OwnsBut begun.now (D.calls self.old.disk) (D.calls self.new.disk) }
        ensures locked { may_change (D.calls self.new.disk) ≡ true }
        ensures alone { self.new.alone ≡ self.old.alone }
        ensures large { FILE_LIMIT < length bytes.now → IsErr result }
        ensures cause { HasCause (D.faults self.old.disk) (D.faults self.new.disk) (IsFault result) }
    {
        self.store(alloc, begun, bytes)?;
        self.finish(alloc, begun, name)
    }

    // Writes a file that was made, and gives it its name; where that fails it is removed.
    fn complete(&mut self, alloc: Global, begun: &str, name: &str, bytes: &[u8]) -> io::Result<()>
        requires is_name { IsName name.now }
        requires begun { IsBegun begun.now }
        requires created { is_created begun.now (D.calls self.old.disk) ≡ true }
        requires locked { may_change (D.calls self.old.disk) ≡ true }
        requires ready { is_ready name.now (D.calls self.old.disk) ≡ true }
        ensures put { D.is_known ≡ true
            → Puts (D.files self.old.disk) (D.files self.new.disk) name.now bytes.now result }
        ensures gone { is_own begun.now (D.calls self.new.disk) ≡ false }
        ensures own { OwnsBut begun.now (D.calls self.old.disk) (D.calls self.new.disk) }
        ensures alone { self.new.alone ≡ self.old.alone }
        ensures large { FILE_LIMIT < length bytes.now → IsErr result }
        ensures cause { HasCause (D.faults self.old.disk) (D.faults self.new.disk) (IsFault result) }
    {
        match self.fill(alloc, begun, name, bytes) {
            Ok(()) => Ok(()),
            Err(error) => {
                self.give_up(alloc, begun);
                Err(error)
            }
        }
    }

    /// Puts bytes under a name. They are written and stored beside it before they get it, in a file that no other process
    /// writes, so a stop at any moment leaves the old bytes or the new ones.
    pub(crate) fn put(&mut self, alloc: Global, name: &str, bytes: &[u8]) -> io::Result<()>
        requires { IsName name.now }
        ensures put { D.is_known ≡ true
            → Puts (D.files self.old.disk) (D.files self.new.disk) name.now bytes.now result }
        ensures left { OwnsNoMore (D.calls self.old.disk) (D.calls self.new.disk) }
        ensures alone { self.new.alone ≡ self.old.alone }
        ensures large { FILE_LIMIT < length bytes.now → IsErr result }
        ensures excluded { is_excluded (D.calls self.old.disk) ≡ true → IsExcluded result }
        ensures cause { HasCause (D.faults self.old.disk) (D.faults self.new.disk) (IsFault result) }
    {
        self.hold(alloc)?;
        self.settle(alloc, name)?;
        match self.begin(alloc, name)? {
            Some(begun) => self.complete(alloc, begun.as_str(), name, bytes),
            None => Err(io::Error::from(ErrorKind::AlreadyExists)),
        }
    }

    // Removes the file of a name.
    fn remove(&mut self, alloc: Global, name: &str) -> io::Result<()>
        requires is_name { IsName name.now }
        requires locked { may_change (D.calls self.old.disk) ≡ true }
        requires ready { is_after blob_letter entry_letter name.now (D.calls self.old.disk) ≡ true }
        ensures removed { D.is_known ≡ true → Removes (D.files self.old.disk) (D.files self.new.disk) name.now result }
        ensures left { OwnsNoMore (D.calls self.old.disk) (D.calls self.new.disk) }
        ensures alone { self.new.alone ≡ self.old.alone }
        ensures cause { HasCause (D.faults self.old.disk) (D.faults self.new.disk) (IsFaultBut NotFound result) }
    {
        let letter = letter_of(name);
        let done = self.disk.remove(alloc, name);
        self.blobs = self.blobs || letter == b'b';
        self.entries = self.entries || letter == b'e';
        done
    }

    // Syncs what has to be stored before the file of a name is removed.
    fn settle_drop(&mut self, alloc: Global, name: &str) -> io::Result<()>
        requires { IsName name.now }
        ensures ready { OnOk result
            (is_after blob_letter entry_letter name.now (D.calls self.new.disk) ≡ true) }
        ensures goes_on { GoesOn (D.calls self.old.disk) (D.calls self.new.disk) }
        ensures files { D.files self.new.disk ≡ D.files self.old.disk }
        ensures alone { self.new.alone ≡ self.old.alone }
        ensures cause { HasCause (D.faults self.old.disk) (D.faults self.new.disk) (IsFault result) }
    {
        if letter_of(name) == b'b' {
            self.sync_entries(alloc)
        } else {
            Ok(())
        }
    }

    // Removes the file of a name, if there is one.
    fn remove_there(&mut self, alloc: Global, name: &str) -> io::Result<()>
        requires is_name { IsName name.now }
        requires locked { may_change (D.calls self.old.disk) ≡ true }
        ensures dropped { D.is_known ≡ true → Drops (D.files self.old.disk) (D.files self.new.disk) name.now result }
        ensures alone { self.new.alone ≡ self.old.alone }
        ensures cause { HasCause (D.faults self.old.disk) (D.faults self.new.disk) (IsFault result) }
    {
        self.settle_drop(alloc, name)?;
        match self.remove(alloc, name) {
            Err(error) if error.kind() == ErrorKind::NotFound => Ok(()),
            removed => removed,
        }
    }

    /// Drops a name. Where there is no file, there is none afterwards.
    pub(crate) fn drop_name(&mut self, alloc: Global, name: &str) -> io::Result<()>
        requires { IsName name.now }
        ensures dropped { D.is_known ≡ true → Drops (D.files self.old.disk) (D.files self.new.disk) name.now result }
        ensures alone { self.new.alone ≡ self.old.alone }
        ensures excluded { is_excluded (D.calls self.old.disk) ≡ true → IsExcluded result }
        ensures cause { HasCause (D.faults self.old.disk) (D.faults self.new.disk) (IsFault result) }
    {
        if self.lock(alloc)? {
            self.remove_there(alloc, name)
        } else {
            Ok(())
        }
    }

    // Adds the names of a kind.
    fn add_names(&mut self, alloc: Global, kind: &str, names: &mut Vec<String>) -> io::Result<()>
        requires kind { length kind.now ≡ 1 }
        requires names { AreAllNames names.old.items }
        ensures names { AreAllNames names.new.items }
        ensures listed { D.is_known ≡ true → OnOk result ((q : List ℕ) → IsName q
            → is_among q names.new.items
            ≡ (is_among q names.old.items || has_file kind.now (D.files self.old.disk) q)) }
        ensures files { D.files self.new.disk ≡ D.files self.old.disk }
        ensures alone { self.new.alone ≡ self.old.alone }
        ensures cause { HasCause (D.faults self.old.disk) (D.faults self.new.disk) (IsFault result) }
    {
        match self.disk.list(alloc, kind) {
            Ok(files) => add_files(alloc, kind, &files, names),
            Err(error) if error.kind() == ErrorKind::NotFound => Ok(()),
            Err(error) => Err(error),
        }
    }

    /// The names of all files of names, in order, each once.
    pub(crate) fn names(&mut self, alloc: Global) -> io::Result<Vec<String>>
        ensures names { IfOk result (λ names. ListsNames (listed.Names names)) }
        ensures listed { D.is_known ≡ true
            → IfOk result (λ names. ListsHeld (D.files self.old.disk) names.items) }
        ensures files { D.files self.new.disk ≡ D.files self.old.disk }
        ensures alone { self.new.alone ≡ self.old.alone }
        ensures excluded { is_excluded (D.calls self.old.disk) ≡ true → IsExcluded result }
        ensures cause { HasCause (D.faults self.old.disk) (D.faults self.new.disk) (IsFault result) }
    {
        self.enter(alloc)?;
        let mut names = Vec::new(alloc);
        self.add_names(alloc, "b", &mut names)?;
        self.add_names(alloc, "e", &mut names)?;
        self.add_names(alloc, "w", &mut names)?;
        Ok(in_order(names))
    }

    // Removes the file at a path where a put that was stopped may have left one.
    fn clear_file(&mut self, alloc: Global, path: &str) -> io::Result<()>
        requires { is_locked true (D.calls self.old.disk) ≡ true }
        ensures clears { D.is_known ≡ true → Clears (D.files self.old.disk) (D.files self.new.disk) }
        ensures cleared { D.is_known ≡ true → OnOk result (IsLeft path.now → get (D.files self.new.disk) path.now ≡ None) }
        ensures locked { is_locked true (D.calls self.new.disk) ≡ true }
        ensures alone { self.new.alone ≡ self.old.alone }
        ensures cause { HasCause (D.faults self.old.disk) (D.faults self.new.disk) (IsFault result) }
    {
        if !is_left(alloc, path)? {
            return Ok(());
        }
        match self.disk.remove(alloc, path) {
            Err(error) if error.kind() == ErrorKind::NotFound => Ok(()),
            cleared => cleared,
        }
    }

    // Removes what puts that were stopped may have left among the files of the folder of a kind.
    fn clear_files(&mut self, alloc: Global, kind: &str, files: &[String]) -> io::Result<()>
        requires { is_locked true (D.calls self.old.disk) ≡ true }
        ensures clears { D.is_known ≡ true → Clears (D.files self.old.disk) (D.files self.new.disk) }
        ensures cleared { D.is_known ≡ true → OnOk result ((path : List ℕ) → IsLeft path
            → is_below kind.now path files.now ≡ true → get (D.files self.new.disk) path ≡ None) }
        ensures locked { is_locked true (D.calls self.new.disk) ≡ true }
        ensures alone { self.new.alone ≡ self.old.alone }
        ensures cause { HasCause (D.faults self.old.disk) (D.faults self.new.disk) (IsFault result) }
    {
        'files: for file in files {
            let path = format!(in alloc; "{kind}/{file}")?;
            self.clear_file(alloc, path.as_str())?;
        }
        Ok(())
    }

    // Removes what puts that were stopped may have left in the folder of a kind.
    fn clear_kind(&mut self, alloc: Global, kind: &str) -> io::Result<()>
        requires kind { length kind.now ≡ 1 }
        requires locked { is_locked true (D.calls self.old.disk) ≡ true }
        ensures clears { D.is_known ≡ true → Clears (D.files self.old.disk) (D.files self.new.disk) }
        ensures cleared { D.is_known ≡ true → OnOk result ((path : List ℕ) → IsLeft path
            → take 1 path ≡ kind.now → get (D.files self.new.disk) path ≡ None) }
        ensures locked { is_locked true (D.calls self.new.disk) ≡ true }
        ensures alone { self.new.alone ≡ self.old.alone }
        ensures cause { HasCause (D.faults self.old.disk) (D.faults self.new.disk) (IsFault result) }
    {
        match self.disk.list(alloc, kind) {
            Ok(files) => self.clear_files(alloc, kind, &files),
            Err(error) if error.kind() == ErrorKind::NotFound => Ok(()),
            Err(error) => Err(error),
        }
    }

    // Removes what puts that were stopped may have left.
    fn clear(&mut self, alloc: Global) -> io::Result<()>
        requires { is_locked true (D.calls self.old.disk) ≡ true }
        ensures clears { D.is_known ≡ true → Clears (D.files self.old.disk) (D.files self.new.disk) }
        ensures cleared { D.is_known ≡ true → OnOk result ((path : List ℕ) → IsLeft path
            → get (D.files self.new.disk) path ≡ None) }
        ensures alone { self.new.alone ≡ self.old.alone }
        ensures cause { HasCause (D.faults self.old.disk) (D.faults self.new.disk) (IsFault result) }
    {
        self.clear_kind(alloc, "b")?;
        self.clear_kind(alloc, "e")?;
        self.clear_kind(alloc, "w")
    }

    // Asks for the lock alone, from here on.
    fn ask_alone(&mut self, alloc: Global) -> io::Result<()>
        ensures held { OnOk result (is_locked true (D.calls self.new.disk) ≡ true) }
        ensures missing { D.is_known ≡ true → IfErr result (λ e. error_kind e ≡ NotFound → HasNone (D.files self.old.disk)) }
        ensures files { D.files self.new.disk ≡ D.files self.old.disk }
        ensures alone { self.new.alone ≡ true }
        ensures stays { is_excluded (D.calls self.old.disk) ≡ true → IsExcluded result }
        ensures cause { HasCause (D.faults self.old.disk) (D.faults self.new.disk) (IsFault result) }
    {
        let done = self.disk.lock(alloc, true);
        self.alone = true;
        done
    }

    // Locks the folder alone, from here on. Answers whether it is there.
    fn lock_alone(&mut self, alloc: Global) -> io::Result<bool>
        ensures held { result ≡ Ok true → is_locked true (D.calls self.new.disk) ≡ true }
        ensures missing { D.is_known ≡ true → result ≡ Ok false → HasNone (D.files self.old.disk) }
        ensures files { D.files self.new.disk ≡ D.files self.old.disk }
        ensures alone { self.new.alone ≡ true }
        ensures stays { is_excluded (D.calls self.old.disk) ≡ true → IsExcluded result }
        ensures cause { HasCause (D.faults self.old.disk) (D.faults self.new.disk) (IsFault result) }
    {
        match self.ask_alone(alloc) {
            Ok(()) => Ok(true),
            Err(error) if error.kind() == ErrorKind::NotFound => Ok(false),
            Err(error) => Err(error),
        }
    }

    /// Works alone from here on, and removes what puts that were stopped may have left.
    pub(crate) fn work_alone(&mut self, alloc: Global) -> io::Result<()>
        ensures clears { D.is_known ≡ true → Clears (D.files self.old.disk) (D.files self.new.disk) }
        ensures cleared { D.is_known ≡ true → OnOk result ((path : List ℕ) → IsLeft path
            → get (D.files self.new.disk) path ≡ None) }
        ensures alone { self.new.alone ≡ true }
        ensures excluded { is_excluded (D.calls self.old.disk) ≡ true → IsExcluded result }
        ensures cause { HasCause (D.faults self.old.disk) (D.faults self.new.disk) (IsFault result) }
    {
        if self.lock_alone(alloc)? {
            self.clear(alloc)
        } else {
            Ok(())
        }
    }
}
