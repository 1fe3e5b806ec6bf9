//! Asks of the source tree, with the digests of their answers.
ghost use Rattle.std.specs.Prelude.{◌≡◌, ◌++◌, ◌||◌, OnOk};
ghost use Rattle.prints.specs.Reading.{Takes};
ghost use Rattle.bx_tree.specs.Paths.{IsPath};
ghost use Rattle.bx_digest.specs.Digests.{IsDigest};
ghost use Rattle.bx_path.specs.Globbing.{IsPattern};
ghost use Rattle.graph_texts.specs.Asks.{IsAskLine, IsTreeAsk, ask_at, ask_line, ask_with, asks_at, glob_part};
ghost use Rattle.graph_texts.specs.Asks.{globbed_at, is_ask, pattern_at, words_of};
ghost use Rattle.graph_texts.specs.PartForms.{ask_form, ask_seen, no_ask};

use bx_digest::Digest;
use bx_path::Pattern;
use bx_tree::Path;
use dscript_sdk_calls::TreeAsk;
use prints::{Cursor, Line, PrintFault, append_digest, append_path, read_lines};
use std::alloc::{AllocError, Global};
use std::marker::Model;

/// What was asked of the source tree, with the digest of the listing that was answered.
#[derive(Drop)]
pub struct AskLine {
    pub ask: TreeAsk,
    pub listing: Digest,
}

/// Asks in the order of the calls. Contracts see them as a list.
#[derive(Drop)]
pub struct AskLines {
    lines: Vec<AskLine>,
}

impl Model for AskLines {
    ghost use Rattle.std.specs.Prelude.{List};
    ghost use Rattle.graph_texts.specs.declared.asks.AskLine.{AskLine};

    ghost Value = { List AskLine };

    ghost view = { λ a. a.lines.items };
}

impl AskLines {
    /// These asks.
    pub fn of(lines: Vec<AskLine>) -> AskLines
        ensures { result ≡ lines.items }
    {
        AskLines { lines }
    }

    /// The asks, in order.
    pub fn lines(&self) -> &[AskLine]
        ensures { result.now ≡ self.now }
    {
        self.lines.as_slice()
    }
}

// Adds a directory, a pattern and a digest.
fn append_glob(
    alloc: Global,
    text: &mut Vec<u8>,
    dir: &Path,
    pattern: &Pattern,
    listing: &Digest,
) -> Result<(), AllocError>
    ensures text { OnOk result
        (text.new.items ≡ text.old.items ++ glob_part dir.now pattern.now listing.now) }
    ensures dir { OnOk result (IsPath dir.now) }
    ensures pattern { OnOk result (IsPattern pattern.now) }
    ensures listing { OnOk result (IsDigest listing.now) }
{
    append_path(text, dir, b' ')?;
    text.extend_from_slice(pattern.text())?;
    text.push(b' ')?;
    append_digest(alloc, text, listing, b'\n')
}

// Adds the line of an ask.
fn append_ask(
    alloc: Global,
    text: &mut Vec<u8>,
    ask: &TreeAsk,
    listing: &Digest,
) -> Result<(), AllocError>
    ensures text { OnOk result (text.new.items ≡ text.old.items ++ words_of ask.now listing.now) }
    ensures line { OnOk result (IsAskLine (ask_with ask.now listing.now)) }
{
    match ask {
        TreeAsk::Glob(dir, pattern) => {
            text.extend_from_slice(b"glob ")?;
            append_glob(alloc, text, dir, pattern, listing)?;
            Ok(())
        }
        TreeAsk::GlobDeep(dir, pattern) => {
            text.extend_from_slice(b"globr ")?;
            append_glob(alloc, text, dir, pattern, listing)?;
            Ok(())
        }
        TreeAsk::Below(dir) => {
            text.extend_from_slice(b"below ")?;
            append_path(text, dir, b' ')?;
            append_digest(alloc, text, listing, b'\n')?;
            Ok(())
        }
    }
}

// What is known of each ask.
fn has_ask(ask: &TreeAsk)
    ensures { IsTreeAsk ask.now }
{
    match ask {
        TreeAsk::Glob(dir, pattern) => {
            let _dir = dir.text();
            let _pattern = pattern.text();
        }
        TreeAsk::GlobDeep(dir, pattern) => {
            let _dir = dir.text();
            let _pattern = pattern.text();
        }
        TreeAsk::Below(dir) => {
            let _dir = dir.text();
        }
    }
}

fn read_pattern(alloc: Global, cursor: &mut Cursor) -> Result<Pattern, PrintFault>
    ensures { Takes result cursor.new (pattern_at cursor.old) }
{
    let text = cursor.part(b' ')?;
    match Pattern::of(alloc, text)? {
        Some(pattern) => Ok(pattern),
        None => Err(PrintFault::BadPrint),
    }
}

// Reads a directory, a pattern and a digest.
fn read_globbed(alloc: Global, cursor: &mut Cursor) -> Result<(Path, (Pattern, Digest)), PrintFault>
    ensures { Takes result cursor.new (globbed_at cursor.old) }
{
    let dir = cursor.path(alloc, b' ')?;
    let pattern = read_pattern(alloc, cursor)?;
    let listing = cursor.digest(b'\n')?;
    Ok((dir, (pattern, listing)))
}

// Reads the line of an ask.
#[tactic(auto, using(crate::proofs::Words::passes), unfolding(crate::specs::Asks::ask_at))]
fn read_ask(alloc: Global, cursor: &mut Cursor) -> Result<AskLine, PrintFault>
    ensures { Takes result cursor.new (ask_at cursor.old) }
{
    if cursor.begins(b"glob ") {
        cursor.word(b"glob ")?;
        let (dir, (pattern, listing)) = read_globbed(alloc, cursor)?;
        let ask = TreeAsk::Glob(dir, pattern);
        return Ok(AskLine { ask, listing });
    }
    if cursor.begins(b"globr ") {
        cursor.word(b"globr ")?;
        let (dir, (pattern, listing)) = read_globbed(alloc, cursor)?;
        let ask = TreeAsk::GlobDeep(dir, pattern);
        return Ok(AskLine { ask, listing });
    }
    cursor.word(b"below ")?;
    let dir = cursor.path(alloc, b' ')?;
    let listing = cursor.digest(b'\n')?;
    let ask = TreeAsk::Below(dir);
    Ok(AskLine { ask, listing })
}

// The kind of line that says an ask.
pub(crate) struct AskKind;

impl Line<AskLine, AskLine> for AskKind {
    ghost says = { λ a. a };

    ghost line = { ask_line };

    ghost line_at = { ask_at };

    ghost starts = { is_ask };

    ghost Fits = { IsAskLine };

    ghost form = { ask_form };

    ghost seen = { ask_seen };

    ghost none = { no_ask };

    fn append(alloc: Global, text: &mut Vec<u8>, value: &AskLine) -> Result<(), AllocError> {
        append_ask(alloc, text, &value.ask, &value.listing)
    }

    fn has_line(value: &AskLine) {
        let _listing = value.listing.bytes();
        has_ask(&value.ask);
    }

    fn is_next(cursor: &Cursor) -> bool {
        cursor.begins(b"glob ") || cursor.begins(b"globr ") || cursor.begins(b"below ")
    }

    fn read(alloc: Global, cursor: &mut Cursor) -> Result<AskLine, PrintFault> {
        read_ask(alloc, cursor)
    }
}

// Reads the lines of asks that come next.
#[tactic(auto, unfolding(crate::specs::Asks::asks_at))]
pub(crate) fn read_asks(alloc: Global, cursor: &mut Cursor) -> Result<AskLines, PrintFault>
    ensures { Takes result cursor.new (asks_at cursor.old) }
{
    let lines = read_lines::<AskLine, AskLine, AskKind>(alloc, cursor)?;
    Ok(AskLines::of(lines))
}
