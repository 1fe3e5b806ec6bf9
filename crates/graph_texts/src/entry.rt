//! Entries, and their texts.
ghost use Rattle.std.specs.Prelude.{◌≡◌, IfOk};
ghost use Rattle.prints.specs.Reading.{Gives};
ghost use Rattle.graph_texts.specs.Entries.{IsGraphEntry, ReadsEntry, graph_entry_text};
ghost use Rattle.graph_texts.specs.Entries.{GivesEntry, GivesSealed};

use crate::asks::{AskKind, AskLine, AskLines, read_asks};
use crate::pips::{append_pips, read_pips};
use bx_digest::Digest;
use memo_format::{FormatFault, seal, unseal};
use pip_model_types::PipList;
use prints::{Cursor, PrintFault, append_digest, append_lines};
use std::alloc::{AllocError, Global};

/// What evaluation asked of the source tree, with the digests of the answers, and the pips that it made, under the
/// digest of its key.
#[derive(Drop)]
pub struct GraphEntry {
    pub key: Digest,
    pub asks: AskLines,
    pub pips: PipList,
}

/// The text of the entry with this key, these asks and these pips.
pub fn write_graph_entry(
    alloc: Global,
    key: &Digest,
    asks: &[AskLine],
    pips: &PipList,
) -> Result<Vec<u8>, AllocError>
    ensures text { IfOk result (λ text. text.items
        ≡ graph_entry_text (record { key = key.now; asks = asks.now; pips = pips.now })) }
    ensures entry { IfOk result (λ text.
        IsGraphEntry (record { key = key.now; asks = asks.now; pips = pips.now })) }
{
    let mut text = Vec::from_slice(alloc, b"graph-entry 1\nkey ")?;
    append_digest(alloc, &mut text, key, b'\n')?;
    append_lines::<AskLine, AskLine, AskKind>(alloc, &mut text, asks)?;
    append_pips(alloc, &mut text, pips)?;
    seal(alloc, &mut text)?;
    Ok(text)
}

// The entry of a body.
fn in_body(alloc: Global, body: &[u8]) -> Result<GraphEntry, PrintFault>
    ensures { GivesEntry result body.now }
{
    let mut cursor = Cursor::of(body);
    cursor.word(b"graph-entry 1\nkey ")?;
    let key = cursor.digest(b'\n')?;
    let asks = read_asks(alloc, &mut cursor)?;
    let pips = read_pips(alloc, &mut cursor)?;
    cursor.end()?;
    Ok(GraphEntry { key, asks, pips })
}

// The entry of a text whose seal fits.
fn entry_in(alloc: Global, bytes: &[u8]) -> Result<GraphEntry, PrintFault>
    ensures { GivesSealed result bytes.now }
{
    let body = unseal(alloc, bytes)?;
    in_body(alloc, body)
}

/// The entry that has a text.
pub fn read_graph_entry(alloc: Global, bytes: &[u8]) -> Result<GraphEntry, FormatFault>
    ensures { ReadsEntry result bytes.now }
{
    match entry_in(alloc, bytes) {
        Ok(entry) => Ok(entry),
        Err(PrintFault::BadPrint) => Err(FormatFault::BadForm),
        Err(PrintFault::Memory) => Err(FormatFault::Memory),
    }
}
