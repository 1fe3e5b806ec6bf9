//! Calls that write and copy files.
ghost use Rattle.std.specs.Prelude.{◌≡◌, Ok, map, IfOk, IfErr, OnErr, MatchResult};
ghost use Rattle.dscript_sdk_values.specs.Outcomes.{Refuses};
ghost use Rattle.dscript_sdk_pips.specs.States.{over_tree};
ghost use Rattle.dscript_sdk_pips.specs.CopyFile as copies;
ghost use Rattle.dscript_sdk_pips.specs.CopyFile.{copied_file, with_copy};
ghost use Rattle.dscript_sdk_pips.specs.WriteAllLines as lines;
ghost use Rattle.dscript_sdk_pips.specs.WriteAllLines.{whole_text};
ghost use Rattle.dscript_sdk_pips.specs.WriteAllText as texts;
ghost use Rattle.dscript_sdk_pips.specs.WriteAllText.{with_write};
ghost use Rattle.dscript_value.specs.Plain.{plain_of};

use crate::site::Site;
use crate::state::SdkState;
use bx_tree::{FileInput, Path, Text};
use dscript_sdk_values::{
    FromValue, MAX_TEXT_BYTES, SdkFault, first_argument, read_field, read_list_field, read_object,
    two_arguments,
};
use dscript_value::Value;
use pip_model_types::{CopyDesc, PipKind, WriteDesc};
use std::alloc::Global;

const LINES_FIELDS: [&[u8]; 2] = [b"outputPath", b"lines"];

const TEXT_FIELDS: [&[u8]; 2] = [b"outputPath", b"text"];

// A write pip, and its file.
fn add_write(state: &mut SdkState, site: &Site, written: WriteDesc) -> Result<Value, SdkFault>
    ensures answer { IfOk result (λ value.
        with_write site.now.file written (over_tree state.old) ≡ Ok (plain_of value, over_tree state.new)) }
    ensures fault { IfErr result (λ fault. Refuses fault (with_write site.now.file written (over_tree state.old))) }
    ensures unchanged { OnErr result (state.new ≡ state.old) }
    ensures sources { state.new.sources ≡ state.old.sources }
{
    let made = written.to.share()?;
    let number = state.add(site, PipKind::Write(written))?;
    Ok(Value::File(FileInput::Made(made, number)))
}

// The text that an argument asks for, with its path.
fn read_text_file(alloc: Global, args: &[Value]) -> Result<WriteDesc, SdkFault>
    ensures { MatchResult result
        (λ written. texts.written_text (map plain_of args.now) ≡ Ok written)
        (λ fault. Refuses fault (texts.written_text (map plain_of args.now))) }
{
    let fields = read_object(first_argument(args)?, &TEXT_FIELDS, &[])?;
    let to = read_field::<Path>(alloc, fields, b"outputPath")?;
    let text = read_field::<Text>(alloc, fields, b"text")?;
    Ok(WriteDesc { to, text })
}

/// A write pip with a text, and its file.
#[tactic(auto, unfolding(crate::specs::WriteAllText::write_all_text))]
pub fn write_all_text(
    alloc: Global,
    state: &mut SdkState,
    site: &Site,
    args: &[Value],
) -> Result<Value, SdkFault>
    ensures answer { IfOk result (λ value.
        texts.write_all_text site.now.file (map plain_of args.now) (over_tree state.old)
        ≡ Ok (plain_of value, over_tree state.new)) }
    ensures fault { IfErr result (λ fault.
        Refuses fault (texts.write_all_text site.now.file (map plain_of args.now) (over_tree state.old))) }
    ensures unchanged { OnErr result (state.new ≡ state.old) }
    ensures sources { state.new.sources ≡ state.old.sources }
{
    let written = read_text_file(alloc, args)?;
    add_write(state, site, written)
}

// Each line and a newline, unless they are too long together.
fn join_lines(alloc: Global, lines: &[Text]) -> Result<Text, SdkFault>
    ensures { MatchResult result
        (λ text. whole_text lines.now ≡ Ok text)
        (λ fault. Refuses fault (whole_text lines.now)) }
{
    let mut bytes = Vec::new(alloc);
    'lines: for line in lines {
        if bytes.len() > MAX_TEXT_BYTES {
            return Err(SdkFault::Range);
        }
        bytes.extend_from_slice(line.bytes())?;
        bytes.push(b'\n')?;
    }
    if bytes.len() > MAX_TEXT_BYTES {
        return Err(SdkFault::Range);
    }
    Ok(Text::new(alloc, bytes)?)
}

// The lines that an argument asks for as one text, with its path.
fn read_lines_file(alloc: Global, args: &[Value]) -> Result<WriteDesc, SdkFault>
    ensures { MatchResult result
        (λ written. lines.written_lines (map plain_of args.now) ≡ Ok written)
        (λ fault. Refuses fault (lines.written_lines (map plain_of args.now))) }
{
    let fields = read_object(first_argument(args)?, &LINES_FIELDS, &[])?;
    let to = read_field::<Path>(alloc, fields, b"outputPath")?;
    let lines = read_list_field::<Text>(alloc, fields, b"lines")?;
    let text = join_lines(alloc, lines.as_slice())?;
    Ok(WriteDesc { to, text })
}

/// A write pip with each line and a newline, and its file.
#[tactic(auto, unfolding(crate::specs::WriteAllLines::write_all_lines))]
pub fn write_all_lines(
    alloc: Global,
    state: &mut SdkState,
    site: &Site,
    args: &[Value],
) -> Result<Value, SdkFault>
    ensures answer { IfOk result (λ value.
        lines.write_all_lines site.now.file (map plain_of args.now) (over_tree state.old)
        ≡ Ok (plain_of value, over_tree state.new)) }
    ensures fault { IfErr result (λ fault.
        Refuses fault (lines.write_all_lines site.now.file (map plain_of args.now) (over_tree state.old))) }
    ensures unchanged { OnErr result (state.new ≡ state.old) }
    ensures sources { state.new.sources ≡ state.old.sources }
{
    let written = read_lines_file(alloc, args)?;
    add_write(state, site, written)
}

// The file that arguments ask to copy, with the path of the copy.
fn read_copy(alloc: Global, args: &[Value]) -> Result<CopyDesc, SdkFault>
    ensures { MatchResult result
        (λ copied. copied_file (map plain_of args.now) ≡ Ok copied)
        (λ fault. Refuses fault (copied_file (map plain_of args.now))) }
{
    let (from, to) = two_arguments(args)?;
    let from = FileInput::from_value(alloc, from)?;
    let to = Path::from_value(alloc, to)?;
    Ok(CopyDesc { from, to })
}

// A copy pip, and its file.
fn add_copy(state: &mut SdkState, site: &Site, copied: CopyDesc) -> Result<Value, SdkFault>
    ensures answer { IfOk result (λ value.
        with_copy site.now.file copied (over_tree state.old) ≡ Ok (plain_of value, over_tree state.new)) }
    ensures fault { IfErr result (λ fault. Refuses fault (with_copy site.now.file copied (over_tree state.old))) }
    ensures unchanged { OnErr result (state.new ≡ state.old) }
    ensures sources { state.new.sources ≡ state.old.sources }
{
    let made = copied.to.share()?;
    let number = state.add(site, PipKind::Copy(copied))?;
    Ok(Value::File(FileInput::Made(made, number)))
}

/// A copy pip, and its file.
#[tactic(auto, unfolding(crate::specs::CopyFile::copy_file))]
pub fn copy_file(
    alloc: Global,
    state: &mut SdkState,
    site: &Site,
    args: &[Value],
) -> Result<Value, SdkFault>
    ensures answer { IfOk result (λ value.
        copies.copy_file site.now.file (map plain_of args.now) (over_tree state.old) ≡ Ok (plain_of value, over_tree state.new)) }
    ensures fault { IfErr result (λ fault.
        Refuses fault (copies.copy_file site.now.file (map plain_of args.now) (over_tree state.old))) }
    ensures unchanged { OnErr result (state.new ≡ state.old) }
    ensures sources { state.new.sources ≡ state.old.sources }
{
    let copied = read_copy(alloc, args)?;
    add_copy(state, site, copied)
}
