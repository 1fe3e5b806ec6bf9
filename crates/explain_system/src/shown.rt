//! Texts of users as they are shown: in one line, in printable characters of ASCII.

use bx_tree::{Memory, Path};
use std::alloc::{AllocError, Global};

/// Lines that are made, piece by piece. It is noted where memory runs out, and then there is no text of them.
#[derive(Drop)]
pub(crate) struct Lines {
    text: Vec<u8>,
    full: bool,
}

impl Lines {
    pub(crate) fn new(alloc: Global) -> Lines {
        Lines {
            text: Vec::new(alloc),
            full: false,
        }
    }

    /// Notes that memory ran out.
    pub(crate) fn fail(&mut self) {
        self.full = true;
    }

    pub(crate) fn byte(&mut self, byte: u8) {
        if self.text.push(byte).is_err() {
            self.fail();
        }
    }

    pub(crate) fn add(&mut self, words: &str) {
        if self.text.extend_from_slice(words.as_bytes()).is_err() {
            self.fail();
        }
    }

    /// Adds a text that was just made.
    pub(crate) fn made(&mut self, text: Result<String, Memory>) {
        match text {
            Ok(text) => self.add(text.as_str()),
            Err(_) => self.fail(),
        }
    }

    /// Adds a text, with `?` for each byte that is no printable character of ASCII.
    pub(crate) fn shown(&mut self, bytes: &[u8]) {
        'bytes: for byte in bytes {
            match byte {
                32..=126 => self.byte(*byte),
                _ => self.byte(b'?'),
            }
        }
    }

    /// Adds a text in quotes.
    pub(crate) fn quoted(&mut self, bytes: &[u8]) {
        self.byte(b'"');
        self.shown(bytes);
        self.byte(b'"');
    }

    pub(crate) fn path(&mut self, path: &Path) {
        self.add(path.text());
    }

    /// Ends a line.
    pub(crate) fn end_line(&mut self) {
        self.byte(b'\n');
    }

    /// The text of the lines.
    pub(crate) fn end(self) -> Result<Vec<u8>, Memory> {
        if self.full {
            return Err(AllocError);
        }
        Ok(self.text)
    }
}
