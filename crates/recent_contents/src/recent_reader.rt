//! Readers that remember.
ghost use Rattle.std.specs.Prelude.{◌≡◌, ◌<◌, [], All, IfOk, IfSome, Option, length, string_bytes};
ghost use Rattle.bx_io.specs.Causes.{CanRise, IsWithin};
ghost use Rattle.bx_io.specs.Holdings.{Holdings};
ghost use Rattle.recent_contents.specs.Recalls.{IsHeldIn, Tells};

use bx_io::{Got, KeepReader};
use std::alloc::{AllocError, Global};

// How many contents are remembered at most, and how many bytes of them.
const MOST_CONTENTS: usize = 32;

const MOST_BYTES: usize = 1 << 20;

// A content, by its name.
#[derive(Drop)]
struct Recent {
    name: String,
    bytes: Vec<u8>,
}

// Contents that are remembered, and how many bytes they have together.
#[derive(Drop)]
struct Memory {
    recent: Vec<Recent>,
    bytes: usize,
}

/// A reader that remembers contents that it found: what is under names that begin with `b`, up to 32 of them and 1 MiB in all.
/// Where one more is too many, all are forgotten. For what is remembered the reader that it is made of is not asked.
#[derive(Drop)]
pub struct RecentReader<R: KeepReader> {
    reader: R,
    memory: Memory,
    ghost recalls: { All (IsHeldIn (R.held reader)) memory.recent.items },
    ghost asked: { 0 < length memory.recent.items
        → IsWithin (R.bound reader) (R.faults reader) × CanRise (R.bound reader) (R.faults reader) },
}

// Whether a name is that of a content.
fn is_content(name: &str) -> bool {
    match name.as_bytes().first() {
        Some(letter) => *letter == b'b',
        None => false,
    }
}

// A content with its name, copied.
fn copied(alloc: Global, name: &str, bytes: &[u8]) -> Result<Recent, AllocError>
    ensures name { IfOk result (λ r. string_bytes r.name ≡ name.now) }
    ensures bytes { IfOk result (λ r. r.bytes.items ≡ bytes.now) }
{
    Ok(Recent {
        name: String::from_str(alloc, name)?,
        bytes: Vec::from_slice(alloc, bytes)?,
    })
}

impl Memory {
    // Nothing is remembered.
    fn new(alloc: Global) -> Memory
        ensures { result.recent.items ≡ [] }
    {
        Memory {
            recent: Vec::new(alloc),
            bytes: 0,
        }
    }

    // What is remembered of a name.
    fn find(&self, name: &str) -> Option<&Recent>
        ensures there { IfSome result (λ r. string_bytes r.now.name ≡ name.now) }
        ensures some { IfSome result (λ r. 0 < length self.now.recent.items) }
        ensures held { (told : Option Holdings) → All (IsHeldIn told) self.now.recent.items
            → IfSome result (λ r. IsHeldIn told r.now) }
    {
        'recent: for one in self.recent.as_slice() {
            if one.name.as_str() == name {
                return Some(one);
            }
        }
        None
    }

    // Forgets all, where one more content of so many bytes is too many.
    fn make_room(&mut self, alloc: Global, more: usize)
        ensures { (told : Option Holdings) → All (IsHeldIn told) self.old.recent.items
            → All (IsHeldIn told) self.new.recent.items }
    {
        let bytes = self.bytes.saturating_add(more);
        if self.recent.len() >= MOST_CONTENTS || bytes > MOST_BYTES {
            self.recent = Vec::new(alloc);
            self.bytes = 0;
        }
    }

    fn add(&mut self, alloc: Global, name: &str, bytes: &[u8]) -> Result<(), AllocError>
        ensures { (told : Option Holdings) → All (IsHeldIn told) self.old.recent.items
            → Tells told name.now bytes.now → All (IsHeldIn told) self.new.recent.items }
    {
        let one = copied(alloc, name, bytes)?;
        self.recent.push(one)?;
        self.bytes = self.bytes.saturating_add(bytes.len());
        Ok(())
    }

    // Remembers what was found under a name, if it is that of a content, which is not too long, and there is memory for it.
    fn remember(&mut self, alloc: Global, name: &str, bytes: &[u8])
        ensures { (told : Option Holdings) → All (IsHeldIn told) self.old.recent.items
            → Tells told name.now bytes.now → All (IsHeldIn told) self.new.recent.items }
    {
        if !is_content(name) || bytes.len() > MOST_BYTES {
            return;
        }
        self.make_room(alloc, bytes.len());
        let _ = self.add(alloc, name, bytes);
    }
}

impl<R: KeepReader> RecentReader<R> {
    /// A reader that remembers nothing yet.
    pub fn new(alloc: Global, reader: R) -> RecentReader<R>
        ensures { result.reader ≡ reader }
    {
        RecentReader {
            reader,
            memory: Memory::new(alloc),
        }
    }

    /// The reader that it is made of.
    pub fn into_reader(self) -> R
        ensures { result ≡ self.reader }
    {
        let RecentReader { reader, .. } = self;
        reader
    }
}

impl<R: KeepReader> KeepReader for RecentReader<R> {
    ghost held = { λ r. R.held r.reader };

    ghost faults = { λ r. R.faults r.reader };

    ghost bound = { λ r. R.bound r.reader };

    fn get(&mut self, alloc: Global, name: &str) -> Got {
        if let Some(one) = self.memory.find(name) {
            return match Vec::from_slice(alloc, one.bytes.as_slice()) {
                Ok(bytes) => Got::Found(bytes),
                Err(_) => Got::Memory,
            };
        }
        let got = self.reader.get(alloc, name);
        if let Got::Found(bytes) = &got {
            self.memory.remember(alloc, name, bytes.as_slice());
        }
        got
    }
}
