//! The report of a build that is refused before a pip runs.
ghost use Rattle.std.specs.Prelude.{◌≡◌, ◌++◌, [], IfOk, OnOk};
ghost use Rattle.std.specs.Option.{option_map_or};
ghost use Rattle.build_report.specs.Refusals as texts;

use bx_tree::{Memory, Path, Text};
use dscript_program::Place;
use std::alloc::Global;

/// How many bytes of a message are shown.
pub const MAX_SHOWN_BYTES: usize = 200;

/// Why a build is refused. A kind is a word; docs/FORMATS.md has all kinds.
#[derive(Drop)]
pub enum Refusal {
    /// The input is refused.
    Input(Text),
    /// The specification is refused: the file in which the fault is, the message that the specification
    /// gave if it asked to be refused, and the place in the file for a text that cannot be read.
    Specification {
        kind: Text,
        file: Path,
        message: Option<Text>,
        place: Option<Place>,
    },
}

fn shown_byte(byte: u8) -> u8
    ensures { result ≡ texts.shown_byte byte }
{
    match byte {
        32..=126 => byte,
        _ => b'?',
    }
}

// The bytes of a message that are shown.
fn shown_part(message: &[u8]) -> &[u8]
    ensures { result.now ≡ texts.shown_part message.entry.now }
{
    if message.len() <= MAX_SHOWN_BYTES {
        return message;
    }
    &message[..MAX_SHOWN_BYTES]
}

fn add_shown(text: &mut Vec<u8>, bytes: &[u8]) -> Result<(), Memory>
    ensures { OnOk result (text.new.items ≡ text.old.items ++ texts.shown_bytes bytes.now) }
{
    'bytes: for byte in bytes {
        text.push(shown_byte(*byte))?;
    }
    Ok(())
}

// Adds the line with a message.
fn add_message(text: &mut Vec<u8>, message: &[u8]) -> Result<(), Memory>
    ensures { OnOk result (text.new.items ≡ text.old.items ++ texts.message_text message.now) }
{
    text.extend_from_slice(b"message ")?;
    add_shown(text, shown_part(message))?;
    text.push(b'\n')?;
    Ok(())
}

// Adds the line with a message, if there is one.
fn add_any_message(text: &mut Vec<u8>, message: &Option<Text>) -> Result<(), Memory>
    ensures { OnOk result
        (text.new.items ≡ text.old.items ++ option_map_or texts.message_text message.now []) }
{
    match message {
        Some(message) => add_message(text, message.bytes()),
        None => Ok(()),
    }
}

// Adds the line with a place, if there is one.
fn add_any_place(alloc: Global, text: &mut Vec<u8>, place: Option<Place>) -> Result<(), Memory>
    ensures { OnOk result
        (text.new.items ≡ text.old.items ++ option_map_or texts.place_text place []) }
{
    let Some(Place { line, column }) = place else {
        return Ok(());
    };
    let added = format!(in alloc; "at {line} {column}\n")?;
    text.extend_from_slice(added.as_bytes())
}

// The report of an input that is refused.
fn input_report(alloc: Global, kind: &Text) -> Result<Vec<u8>, Memory>
    ensures { IfOk result (λ text. text.items ≡ texts.input_text kind.now) }
{
    let mut text = Vec::from_slice(alloc, b"report 1\nverdict input-refused\nfault ")?;
    text.extend_from_slice(kind.bytes())?;
    text.push(b'\n')?;
    Ok(text)
}

// The lines of a report up to the one that names a fault with its file.
fn fault_lines(alloc: Global, kind: &Text, file: &Path) -> Result<Vec<u8>, Memory>
    ensures { IfOk result (λ text. text.items ≡ texts.fault_text kind.now file.now) }
{
    let mut text = Vec::from_slice(alloc, b"report 1\nverdict specification-refused\nfault ")?;
    text.extend_from_slice(kind.bytes())?;
    text.push(b' ')?;
    text.extend_from_slice(file.text().as_bytes())?;
    text.push(b'\n')?;
    Ok(text)
}

/// The report of a build that is refused. docs/FORMATS.md has its form.
pub fn refused_report(alloc: Global, fault: &Refusal) -> Result<Vec<u8>, Memory>
    ensures { IfOk result (λ text. text.items ≡ texts.refused_text fault.now) }
{
    match fault {
        Refusal::Input(kind) => input_report(alloc, kind),
        Refusal::Specification {
            kind,
            file,
            message,
            place,
        } => {
            let mut text = fault_lines(alloc, kind, file)?;
            add_any_message(&mut text, message)?;
            add_any_place(alloc, &mut text, *place)?;
            Ok(text)
        }
    }
}
