//! The content of a register.
ghost use Rattle.std.specs.Prelude.{◌≡◌, ◌++◌, [], IfOk, OnOk, drop};
ghost use Rattle.tool_run.specs.Values.{split_parts};

use crate::values::{split, tail};
use bx_digest::Blob;
use bx_tree::Text;
use std::alloc::{AllocError, Global};
use std::marker::Model;
use std::mem;

// Bytes that a register owns, or those of a text or of a file, from a place on, which it shares.
#[derive(Drop)]
enum Backing {
    Owned(Vec<u8>),
    Shared(Text, usize),
    File(Blob, usize),
}

/// The bytes in a register. Contracts see them as their list.
#[derive(Drop)]
pub struct Content {
    kept: Backing,
}

impl Model for Content {
    ghost use Rattle.std.specs.Prelude.{List, ℕ};

    ghost Value = { List ℕ };

    ghost use Rattle.tool_run.specs.Contents.{kept_bytes};

    ghost view = { λ c. kept_bytes c.kept };
}

// One text after another.
#[inline(never)]
fn both(alloc: Global, first: &[u8], second: &[u8]) -> Result<Vec<u8>, AllocError>
    ensures { IfOk result (λ bytes. bytes.items ≡ first.now ++ second.now) }
{
    let mut bytes = Vec::from_slice(alloc, first)?;
    bytes.extend_from_slice(second)?;
    Ok(bytes)
}

// The place a number of bytes after another, or the end.
fn later(bytes: &[u8], start: usize, count: usize) -> usize
    ensures { drop result bytes.now ≡ drop count (drop start bytes.now) }
{
    if count < tail(bytes, start).len() {
        start + count
    } else {
        bytes.len()
    }
}

impl Content {
    pub(crate) fn empty(alloc: Global) -> Content
        ensures { result ≡ [] }
    {
        Content::of(Vec::new(alloc))
    }

    pub(crate) fn of(bytes: Vec<u8>) -> Content
        ensures { result ≡ bytes.items }
    {
        Content {
            kept: Backing::Owned(bytes),
        }
    }

    pub(crate) fn of_text(text: Text) -> Content
        ensures { result ≡ text }
    {
        Content {
            kept: Backing::Shared(text, 0),
        }
    }

    pub(crate) fn of_file(blob: Blob) -> Content
        ensures { result ≡ blob }
    {
        Content {
            kept: Backing::File(blob, 0),
        }
    }

    // One text after another.
    pub(crate) fn of_both(alloc: Global, first: &[u8], second: &[u8]) -> Result<Content, AllocError>
        ensures { IfOk result (λ content. content ≡ first.now ++ second.now) }
    {
        Ok(Content::of(both(alloc, first, second)?))
    }

    #[inline(always)]
    pub(crate) fn bytes(&self) -> &[u8]
        ensures { result.now ≡ self.now }
    {
        match &self.kept {
            Backing::Owned(bytes) => bytes.as_slice(),
            Backing::Shared(text, start) => tail(text.bytes(), *start),
            Backing::File(blob, start) => tail(blob.bytes(), *start),
        }
    }

    // Lets others share the bytes.
    fn settle(&mut self, alloc: Global) -> Result<(), AllocError>
        ensures { OnOk result (self.new ≡ self.old) }
    {
        if let Backing::Owned(bytes) = &mut self.kept {
            let bytes = mem::replace(bytes, Vec::new(alloc));
            self.kept = Backing::Shared(Text::new(alloc, bytes)?, 0);
        }
        Ok(())
    }

    // The bytes once more, copied where they are owned.
    fn duplicate(&self, alloc: Global) -> Result<Content, AllocError>
        ensures { IfOk result (λ content. content ≡ self.now) }
    {
        let kept = match &self.kept {
            Backing::Owned(bytes) => Backing::Owned(Vec::from_slice(alloc, bytes.as_slice())?),
            Backing::Shared(text, start) => Backing::Shared(text.share()?, *start),
            Backing::File(blob, start) => Backing::File(blob.share()?, *start),
        };
        Ok(Content { kept })
    }

    // The bytes once more, shared.
    pub(crate) fn share(&mut self, alloc: Global) -> Result<Content, AllocError>
        ensures content { IfOk result (λ content. content ≡ self.old) }
        ensures same { OnOk result (self.new ≡ self.old) }
    {
        self.settle(alloc)?;
        self.duplicate(alloc)
    }

    // The bytes without their first ones, shared.
    pub(crate) fn without(self, alloc: Global, count: usize) -> Result<Content, AllocError>
        ensures { IfOk result (λ content. content ≡ drop count self) }
    {
        let kept = match self.kept {
            Backing::Owned(bytes) => Backing::Shared(Text::new(alloc, bytes)?, count),
            Backing::Shared(text, start) => {
                let start = later(text.bytes(), start, count);
                Backing::Shared(text, start)
            }
            Backing::File(blob, start) => {
                let start = later(blob.bytes(), start, count);
                Backing::File(blob, start)
            }
        };
        Ok(Content { kept })
    }

    // What precedes the first place of some bytes, copied, and what follows them there, shared.
    pub(crate) fn cut(self, alloc: Global, by: &[u8]) -> Result<(Content, Content), AllocError>
        ensures { IfOk result (λ parts. parts ≡ split_parts by.now self) }
    {
        let bytes = self.bytes();
        let (before, after) = split(bytes, by);
        let start = bytes.len() - after.len();
        let before = Content::of(Vec::from_slice(alloc, before)?);
        Ok((before, self.without(alloc, start)?))
    }

    // The bytes as those of a file, hashed only if they are not all those of one.
    pub(crate) fn blob(&self, alloc: Global) -> Result<Blob, AllocError>
        ensures { IfOk result (λ blob. blob ≡ self.now) }
    {
        if let Backing::File(blob, 0) = &self.kept {
            return blob.share();
        }
        Blob::new(alloc, Vec::from_slice(alloc, self.bytes())?)
    }

    // Adds bytes at the end, in place where the bytes are owned.
    #[inline(always)]
    pub(crate) fn add(&mut self, alloc: Global, more: &[u8]) -> Result<(), AllocError>
        ensures { OnOk result (self.new ≡ self.old ++ more.now) }
    {
        if let Backing::Owned(bytes) = &mut self.kept {
            if more.len() == 1 {
                bytes.push(more[0])?;
            } else {
                bytes.extend_from_slice(more)?;
            }
            return Ok(());
        }
        self.kept = Backing::Owned(both(alloc, self.bytes(), more)?);
        Ok(())
    }
}
