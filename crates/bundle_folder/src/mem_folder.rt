//! A folder in memory whose calls fail as its maker asked.

ghost use Rattle.std.specs.Prelude.{◌≡◌, ◌↔◌, ◌++◌, ◌∷◌, [], IsTrue, Some, IfOk, OnOk, OnErr, string_bytes};
ghost use Rattle.bx_io.specs.Causes.{HasCause};
ghost use Rattle.std.specs.Prelude.{Contains, IfSome, filter, not};
ghost use Rattle.bundle_folder.specs.Answers.{ListsNodes, kind_of};
ghost use Rattle.bundle_folder.specs.Folders.{File, IsFolder, IsFree, Nodes, without};
ghost use Rattle.bundle_folder.specs.Places.{is_within as within};
ghost use Rattle.bundle_folder.specs.Stored.{node_of, placed as placed_node, stored};
ghost use Rattle.bx_tree.specs.Lent.{texts_now};

use crate::folder::{Entry, Folder, FolderFault, Kind, ListFault, ReadFault, WriteFault};
use crate::places::{is_apart, is_left_out, is_outside};
use bx_tree::{MAX_FILE_BYTES, Memory, Path};
use std::alloc::Global;
use std::marker::Model;

/// What lies at a place of a folder in memory.
#[derive(Drop)]
pub enum Thing {
    /// A file with these bytes.
    File(Vec<u8>),
    /// Neither a file nor a directory.
    Other,
}

/// A thing at its place: the names from the folder down, joined by `/`.
#[derive(Drop)]
pub struct Placed {
    /// The place.
    pub place: String,
    /// What lies there.
    pub thing: Thing,
}

/// A folder in memory. Its calls are numbered together, and fail as its maker asked.
#[derive(Drop)]
pub struct MemFolder {
    things: Vec<Placed>,
    failing: Vec<u64>,
    calls: u64,
    faults: u64,
}

impl Model for MemFolder {
    ghost use Rattle.bundle_folder.specs.Stored.{Scripted, scripted_code, stored};

    ghost Value = { Scripted };

    ghost coded = { scripted_code };

    ghost view = { λ f. record {
      nodes = stored f.things.items;
      failing = f.failing.items;
      calls = f.calls;
      faults = f.faults;
    } };

    ghost use Rattle.bundle_folder.specs.Folders.{IsFolder};

    ghost invariant = { λ f. IsFolder (stored f.things.items) };
}

// Whether a file can be made at a place beside these things.
fn is_free_among(things: &[Placed], place: &str) -> bool
    ensures { IsTrue result ↔ IsFree (stored things.now) place.now }
{
    if place == "." {
        return false;
    }
    'things: for placed in things {
        if !is_apart(place, placed.place.as_str()) {
            return false;
        }
    }
    true
}

// Takes away what lies at a place and below it.
fn remove_within(things: &mut Vec<Placed>, top: &str)
    ensures { things.new.items
        ≡ filter (λ placed. not (within (string_bytes placed.place) top.now)) things.old.items }
{
    things.retain(|placed| is_outside(placed.place.as_str(), top));
}

impl MemFolder {
    /// A folder with nothing in it. The calls whose numbers, from 1, are in `failing` fail.
    pub fn new(alloc: Global, failing: Vec<u64>) -> MemFolder
        ensures whole { result ≡ record { nodes = []; failing = failing.items; calls = 0; faults = 0 } }
        ensures holds { ⟦<MemFolder as Folder>⟧.holds result ≡ Some [] }
        ensures faults { ⟦<MemFolder as Folder>⟧.faults result ≡ 0 }
    {
        MemFolder {
            things: Vec::new(alloc),
            failing,
            calls: 0,
            faults: 0,
        }
    }

    /// Whether something can be put at a place, as for [`Folder::is_free`]. This is no numbered call.
    pub fn can_put(&self, place: &str) -> bool
        ensures { IsTrue result ↔ IsFree self.now.nodes place.now }
    {
        is_free_among(&self.things, place)
    }

    /// Puts a thing at a place where that can be done. This is no numbered call.
    pub fn put(&mut self, placed: Placed) -> Result<(), Memory>
        requires { IsFree self.old.nodes (string_bytes placed.place) }
        ensures made { OnOk result (self.new
            ≡ record self.old { nodes = self.old.nodes ++ stored (placed ∷ []) }) }
        ensures refused { OnErr result (self.new ≡ self.old) }
    {
        self.things.push(placed)?;
        Ok(())
    }

    /// All that the folder holds.
    pub fn things(&self) -> &[Placed]
        ensures { stored result.now ≡ self.now.nodes }
    {
        self.things.as_slice()
    }

    /// How many calls failed.
    pub fn faults(&self) -> u64
        ensures { result ≡ self.now.faults }
    {
        self.faults
    }

    fn entries(&self, alloc: Global, left_out: &[&str]) -> Result<Vec<Entry>, Memory>
        ensures folder { IsFolder self.now.nodes }
        ensures listed { IfOk result
            (λ entries. ListsNodes (texts_now left_out.now) self.now.nodes entries.items) }
    {
        entries_of(alloc, &self.things, left_out)
    }

    // Takes away what lies at a place and below it.
    fn take_away(&mut self, top: &str)
        ensures nodes { self.new.nodes ≡ without top.now self.old.nodes }
        ensures faults { self.new.faults ≡ self.old.faults }
    {
        remove_within(&mut self.things, top);
    }

    // Counts the next call, and says whether it fails.
    fn next_fails(&mut self) -> bool
        ensures nodes { self.new.nodes ≡ self.old.nodes }
        ensures cause { HasCause self.old.faults self.new.faults (IsTrue result) }
    {
        let due = self.calls < u64::MAX && self.failing.contains(&(self.calls + 1));
        self.calls = self.calls.saturating_add(1);
        if due {
            self.faults = self.faults.saturating_add(1);
        }
        due
    }
}

impl Thing {
    fn kind(&self) -> Kind
        ensures { result ≡ kind_of (node_of self.now) }
    {
        match self {
            Thing::File(_) => Kind::File,
            Thing::Other => Kind::Other,
        }
    }
}

// Adds the entry of a thing, unless it is left out.
fn add_entry(
    alloc: Global,
    entries: &mut Vec<Entry>,
    placed: &Placed,
    left_out: &[&str],
) -> Result<(), Memory>
    ensures { (nodes : Nodes) → ListsNodes (texts_now left_out.now) nodes entries.old.items
        → OnOk result (ListsNodes (texts_now left_out.now)
        (nodes ++ placed_node placed.now ∷ []) entries.new.items) }
{
    let text = placed.place.as_str();
    if is_left_out(left_out, text) {
        return Ok(());
    }
    let place = String::from_str(alloc, text)?;
    let kind = placed.thing.kind();
    entries.push(Entry { place, kind })?;
    Ok(())
}

fn entries_of(alloc: Global, things: &[Placed], left_out: &[&str]) -> Result<Vec<Entry>, Memory>
    ensures { IfOk result
        (λ entries. ListsNodes (texts_now left_out.now) (stored things.now) entries.items) }
{
    let mut entries = Vec::new(alloc);
    'things: for placed in things {
        add_entry(alloc, &mut entries, placed, left_out)?;
    }
    Ok(entries)
}

// The bytes of a thing, if it is the file at a place.
fn file_in<'a>(placed: &'a Placed, place: &str) -> Option<&'a Vec<u8>>
    ensures { IfSome result
        (λ bytes. placed_node placed.entry.now ≡ (place.now, File bytes.now.items)) }
{
    let Thing::File(bytes) = &placed.thing else {
        return None;
    };
    if placed.place.as_str() == place {
        Some(bytes)
    } else {
        None
    }
}

// The bytes of the file at a place.
fn file_at<'a>(things: &'a [Placed], place: &str) -> Option<&'a Vec<u8>>
    ensures { IfSome result
        (λ bytes. Contains (stored things.entry.now) (place.now, File bytes.now.items)) }
{
    'things: for placed in things {
        if let Some(bytes) = file_in(placed, place) {
            return Some(bytes);
        }
    }
    None
}

impl Folder for MemFolder {
    ghost use Rattle.std.specs.Prelude.{Some};

    ghost holds = { λ f. Some f.nodes };

    ghost faults = { λ f. f.faults };

    fn list(&mut self, alloc: Global, left_out: &[&str]) -> Result<Vec<Entry>, ListFault> {
        if self.next_fails() {
            return Err(ListFault::Failed(String::from_str(alloc, ".")?));
        }
        Ok(self.entries(alloc, left_out)?)
    }

    fn read(&mut self, alloc: Global, path: &Path) -> Result<Vec<u8>, ReadFault> {
        if self.next_fails() {
            return Err(ReadFault::Failed);
        }
        let Some(bytes) = file_at(&self.things, path.text()) else {
            self.faults = self.faults.saturating_add(1);
            return Err(ReadFault::Failed);
        };
        if bytes.len() > MAX_FILE_BYTES {
            return Err(ReadFault::TooLarge);
        }
        Ok(bytes.to_vec(alloc)?)
    }

    fn is_free(&mut self, _alloc: Global, path: &Path) -> Result<bool, FolderFault> {
        if self.next_fails() {
            return Err(FolderFault::Failed);
        }
        Ok(self.can_put(path.text()))
    }

    fn write_new(&mut self, alloc: Global, path: &Path, bytes: &[u8]) -> Result<(), WriteFault> {
        if self.next_fails() {
            return Err(WriteFault::Failed);
        }
        let place = path.text();
        if !self.can_put(place) {
            return Err(WriteFault::Exists);
        }
        self.put(Placed {
            place: String::from_str(alloc, place)?,
            thing: Thing::File(bytes.to_vec(alloc)?),
        })?;
        Ok(())
    }

    fn remove(&mut self, _alloc: Global, path: &Path) -> Result<(), FolderFault> {
        if self.next_fails() {
            return Err(FolderFault::Failed);
        }
        self.take_away(path.text());
        Ok(())
    }
}
