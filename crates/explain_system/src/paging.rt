//! The graph as a page.

use crate::picture::add_picture;
use crate::report::PipEnd;
use crate::sections::add_sections;
use bx_tree::{Memory, Path, Text};
use html_page::{Attr, Piece, Tag, render};
use pip_graph::{Ended, kind_word};
use pip_model::{OutDir, PipKind, Plan};
use std::alloc::{AllocError, Global};

/// The most pips of which all are shown in a picture.
const MOST_SHOWN: usize = 2000;

/// A page that is made, piece by piece. It is noted where memory runs out, and then there is no text of it.
#[derive(Drop)]
pub(crate) struct Page {
    alloc: Global,
    pieces: Vec<Piece>,
    full: bool,
}

impl Page {
    pub(crate) fn new(alloc: Global) -> Page {
        Page {
            alloc,
            pieces: Vec::new(alloc),
            full: false,
        }
    }

    fn add(&mut self, piece: Piece) {
        if self.pieces.push(piece).is_err() {
            self.full = true;
        }
    }

    fn shared(&self, bytes: &[u8]) -> Result<Text, Memory> {
        Text::new(self.alloc, Vec::from_slice(self.alloc, bytes)?)
    }

    pub(crate) fn open(&mut self, tag: Tag) {
        self.add(Piece::Open(tag));
    }

    pub(crate) fn open_with(&mut self, tag: Tag, attr: Attr, value: &str) {
        match self.shared(value.as_bytes()) {
            Ok(value) => self.add(Piece::OpenWith(tag, attr, value)),
            Err(_) => self.full = true,
        }
    }

    /// Opens an element with an attribute whose value was just made.
    pub(crate) fn open_made(&mut self, tag: Tag, attr: Attr, value: Result<String, Memory>) {
        match value {
            Ok(value) => self.open_with(tag, attr, value.as_str()),
            Err(_) => self.full = true,
        }
    }

    pub(crate) fn close(&mut self, tag: Tag) {
        self.add(Piece::Close(tag));
    }

    pub(crate) fn text(&mut self, bytes: &[u8]) {
        match self.shared(bytes) {
            Ok(text) => self.add(Piece::Text(text)),
            Err(_) => self.full = true,
        }
    }

    /// A text that was just made.
    pub(crate) fn made(&mut self, text: Result<String, Memory>) {
        match text {
            Ok(text) => self.text(text.as_bytes()),
            Err(_) => self.full = true,
        }
    }

    /// An element that has a text and nothing else.
    pub(crate) fn element(&mut self, tag: Tag, bytes: &[u8]) {
        self.open(tag);
        self.text(bytes);
        self.close(tag);
    }

    /// A link to the section of a pip, with its number as text.
    pub(crate) fn link(&mut self, number: usize) {
        let alloc = self.alloc;
        self.open_made(Tag::Link, Attr::Href, format!(in alloc; "#p{number}"));
        self.made(format!(in alloc; "{number}"));
        self.close(Tag::Link);
    }

    /// The text of the page.
    fn end(self) -> Result<Vec<u8>, Memory> {
        if self.full {
            return Err(AllocError);
        }
        render(self.alloc, self.pieces.as_slice())
    }
}

/// The class of a pip that ended so: it gives it its colour.
pub(crate) fn class_of(ends: &[PipEnd], number: usize) -> &'static str {
    match ends.get(number) {
        Some(end) => match end.ended {
            Ended::Succeeded => "ok",
            Ended::Failed => "bad",
            Ended::Skipped => "skip",
        },
        None => "plain",
    }
}

fn add_path(page: &mut Page, path: &Path, end: &str) {
    page.open(Tag::Paragraph);
    page.text(path.text().as_bytes());
    page.text(end.as_bytes());
    page.close(Tag::Paragraph);
}

fn add_files(page: &mut Page, paths: &[Path]) {
    'paths: for path in paths {
        add_path(page, path, "");
    }
}

fn add_dirs(page: &mut Page, dirs: &[OutDir]) {
    'dirs: for dir in dirs {
        add_path(page, &dir.path, if dir.shared { "/ (shared)" } else { "/" });
    }
}

/// The outputs of a pip, a paragraph each.
pub(crate) fn add_outputs(page: &mut Page, kind: &PipKind) {
    match kind {
        PipKind::Process(process) => {
            add_files(page, process.outs.paths());
            if let Some(console) = &process.console {
                add_path(page, console, " (console)");
            }
            add_dirs(page, process.outdirs.dirs())
        }
        PipKind::Copy(copy) => add_path(page, &copy.to, ""),
        PipKind::Write(write) => add_path(page, &write.to, ""),
        PipKind::Seal(seal) => add_path(page, &seal.root, "/"),
    }
}

fn add_head_row(page: &mut Page, with_ends: bool) {
    page.open(Tag::Row);
    page.element(Tag::HeadCell, b"pip");
    page.element(Tag::HeadCell, b"kind");
    page.element(Tag::HeadCell, b"outputs");
    if with_ends {
        page.element(Tag::HeadCell, b"end");
    }
    page.close(Tag::Row);
}

fn add_row(page: &mut Page, number: usize, kind: &PipKind, ends: &[PipEnd]) {
    page.open_with(Tag::Row, Attr::Class, class_of(ends, number));
    page.open(Tag::Cell);
    page.link(number);
    page.close(Tag::Cell);
    page.element(Tag::Cell, kind_word(kind).as_bytes());
    page.open(Tag::Cell);
    add_outputs(page, kind);
    page.close(Tag::Cell);
    if let Some(end) = ends.get(number) {
        page.element(Tag::Cell, &end.sentence);
    }
    page.close(Tag::Row);
}

fn add_table(page: &mut Page, plan: &Plan, ends: &[PipEnd]) {
    page.open(Tag::Table);
    add_head_row(page, !ends.is_empty());
    'pips: for (number, pip) in plan.pips().iter().enumerate() {
        add_row(page, number, &pip.kind, ends);
    }
    page.close(Tag::Table);
}

/// The graph of a plan as an HTML page, with how its pips ended, if that is known.
pub fn graph_page(alloc: Global, plan: &Plan, ends: &[PipEnd]) -> Result<Vec<u8>, Memory> {
    let mut page = Page::new(alloc);
    let count = plan.pips().len();
    page.open(Tag::Heading);
    page.made(format!(in alloc; "{count} pips"));
    page.close(Tag::Heading);
    if count <= MOST_SHOWN {
        add_picture(alloc, &mut page, plan, ends)?;
    }
    add_table(&mut page, plan, ends);
    add_sections(alloc, &mut page, plan, ends)?;
    page.end()
}
