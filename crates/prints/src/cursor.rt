//! A cursor over a text that is being parsed.
ghost use Rattle.std.specs.Prelude.{◌≡◌, ◌↔◌, [], None, Some, MatchOption, IsTrue};
ghost use Rattle.std.specs.Option.{option_copied};
ghost use Rattle.observed.specs.Texts.{after_prefix, named_path};
ghost use Rattle.prints.specs.Lines.{begins as begins_with};
ghost use Rattle.prints.specs.Parts.{bytes_at, counted_at, digest_at, named_digest, named_number};
ghost use Rattle.prints.specs.Parts.{number_at, odd_start, part_at, path_at};
ghost use Rattle.prints.specs.Reading.{Ends, Gives, Takes, TakesPart, TakesWord, one_word as one_of_words};

use crate::fault::PrintFault;
use bx_digest::Digest;
use bx_tree::{Path, PathFault, Text, split_once};
use std::alloc::Global;
use std::marker::Model;
use std::str;

/// A cursor over a text that is being parsed. Contracts see it as the bytes that are left.
#[derive(Drop)]
pub struct Cursor<'a> {
    bytes: &'a [u8],
}

impl<'a> Model for Cursor<'a> {
    ghost use Rattle.std.specs.Prelude.{List, ℕ};

    ghost Value = { List ℕ };

    ghost view = { λ r. r.bytes.now };
}

/// What follows a word, if the text begins with it.
pub fn after_word<'a>(word: &[u8], text: &'a [u8]) -> Option<&'a [u8]>
    ensures { option_copied result ≡ after_prefix word.now text.entry.now }
{
    text.strip_prefix(word)
}

// The parts of a text before and after the first such byte.
fn cut_at(text: &[u8], byte: u8) -> Option<(&[u8], &[u8])>
    ensures { MatchOption result
        (part_at byte text.now ≡ None)
        (λ parts. part_at byte text.now ≡ Some (parts.0.now, parts.1.now)) }
{
    split_once(text, byte)
}

/// The path that a text stands for, the root for `.`.
pub fn path_of(alloc: Global, text: &[u8]) -> Result<Path, PrintFault>
    ensures { Gives result (named_path text.now) }
{
    if text == b".".as_slice() {
        return Ok(Path::root(alloc)?);
    }
    match Path::read(alloc, text) {
        Ok(path) => Ok(path),
        Err(PathFault::BadPath) => Err(PrintFault::BadPrint),
        Err(PathFault::Memory) => Err(PrintFault::Memory),
    }
}

/// The digest that has a text of 64 digits.
pub fn digest_of(text: &[u8]) -> Result<Digest, PrintFault>
    ensures { Gives result (named_digest text.now) }
{
    match Digest::from_hex(text) {
        Ok(digest) => {
            let _bytes = digest.bytes();
            Ok(digest)
        }
        Err(_) => Err(PrintFault::BadPrint),
    }
}

// Whether a text begins with a plus, or with a zero before something else.
fn has_odd_start(text: &[u8]) -> bool
    ensures { result ≡ odd_start text.now }
{
    match text.split_first() {
        Some((first, rest)) => *first == b'+' || (*first == b'0' && !rest.is_empty()),
        None => false,
    }
}

fn number_of(text: &[u8]) -> Result<u64, PrintFault>
    ensures { Gives result (named_number text.now) }
{
    let Ok(digits) = str::from_utf8(text) else {
        return Err(PrintFault::BadPrint);
    };
    if has_odd_start(text) {
        return Err(PrintFault::BadPrint);
    }
    match digits.parse::<u64>() {
        Ok(number) => Ok(number),
        Err(_) => Err(PrintFault::BadPrint),
    }
}

impl<'a> Cursor<'a> {
    /// All of a text.
    pub fn of(text: &'a [u8]) -> Cursor<'a>
        ensures { result ≡ text.now }
    {
        Cursor { bytes: text }
    }

    /// Whether nothing is left.
    pub fn is_empty(&self) -> bool
        ensures { IsTrue result ↔ (self.now ≡ []) }
    {
        self.bytes.is_empty()
    }

    /// Whether a word comes next.
    pub fn begins(&self, word: &[u8]) -> bool
        ensures { result ≡ begins_with word.now self.now }
    {
        after_word(word, self.bytes).is_some()
    }

    /// Reads a word.
    pub fn word(&mut self, word: &[u8]) -> Result<(), PrintFault>
        ensures { TakesWord result self.new (after_prefix word.now self.old) }
    {
        match after_word(word, self.bytes) {
            Some(rest) => {
                self.bytes = rest;
                Ok(())
            }
            None => Err(PrintFault::BadPrint),
        }
    }

    /// Reads one of two words: whether it is the first.
    pub fn one_word(&mut self, first: &[u8], second: &[u8]) -> Result<bool, PrintFault>
        ensures { Takes result self.new (one_of_words first.now second.now self.old) }
    {
        if let Some(rest) = after_word(first, self.bytes) {
            self.bytes = rest;
            return Ok(true);
        }
        match after_word(second, self.bytes) {
            Some(rest) => {
                self.bytes = rest;
                Ok(false)
            }
            None => Err(PrintFault::BadPrint),
        }
    }

    /// Reads the bytes before the first such byte, and that byte.
    pub fn part(&mut self, end: u8) -> Result<&'a [u8], PrintFault>
        ensures { TakesPart result self.new (part_at end self.old) }
    {
        match cut_at(self.bytes, end) {
            Some((part, rest)) => {
                self.bytes = rest;
                Ok(part)
            }
            None => Err(PrintFault::BadPrint),
        }
    }

    /// Reads a path that ends before the given byte, and that byte.
    pub fn path(&mut self, alloc: Global, end: u8) -> Result<Path, PrintFault>
        ensures { Takes result self.new (path_at end self.old) }
    {
        let part = self.part(end)?;
        path_of(alloc, part)
    }

    /// Reads a digest that ends before the given byte, and that byte.
    pub fn digest(&mut self, end: u8) -> Result<Digest, PrintFault>
        ensures { Takes result self.new (digest_at end self.old) }
    {
        let part = self.part(end)?;
        digest_of(part)
    }

    /// Reads a number that ends before the given byte, and that byte.
    pub fn number(&mut self, end: u8) -> Result<u64, PrintFault>
        ensures { Takes result self.new (number_at end self.old) }
    {
        let part = self.part(end)?;
        number_of(part)
    }

    // Reads that many bytes, and the given byte after them.
    fn bytes(&mut self, alloc: Global, count: u64, end: u8) -> Result<Text, PrintFault>
        ensures { Takes result self.new (bytes_at count end self.old) }
    {
        let count = count as usize;
        if self.bytes.len() <= count || self.bytes[count] != end {
            return Err(PrintFault::BadPrint);
        }
        let text = Text::new(alloc, Vec::from_slice(alloc, &self.bytes[..count])?)?;
        self.bytes = &self.bytes[count + 1..];
        Ok(text)
    }

    /// Reads counted bytes, and the given byte after them.
    pub fn counted(&mut self, alloc: Global, end: u8) -> Result<Text, PrintFault>
        ensures { Takes result self.new (counted_at end self.old) }
    {
        let count = self.number(b' ')?;
        self.bytes(alloc, count, end)
    }

    /// That nothing is left.
    #[tactic(auto, using(std::proofs::lemmas::List::nil_from_length))]
    pub fn end(&self) -> Result<(), PrintFault>
        ensures { Ends result self.now }
    {
        match self.bytes.split_first() {
            Some(_) => Err(PrintFault::BadPrint),
            None => Ok(()),
        }
    }
}
