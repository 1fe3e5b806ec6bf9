//! Whether an entry is honest.
ghost use Rattle.std.specs.Prelude.{◌≡◌, Err, IfOk, length};
ghost use Rattle.bx_io.specs.Holdings.{Keeps, held_in};
ghost use Rattle.memo_format.specs.Found.{output_lines};
ghost use Rattle.pip_model_types.specs.Made.{made_files};
ghost use Rattle.prints.specs.Processes.{IsWeak, without_pips};
ghost use Rattle.two_phase.specs.Calls.{KeeperCall};
ghost use Rattle.two_phase_meaning.specs.Honest.{HonestEntry};
ghost use Rattle.cache_care_check.specs.Judging.{AreFilesOf, IsFileOf, KeepsTexts};
ghost use Rattle.cache_care_check.specs.Known.{AreRight, TellsWhether};

use crate::describing::{answers_of, desc_of};
use crate::fault::CareFault;
use crate::known::KnownContents;
use crate::running::files_of_run;
use crate::texts::{EntryTexts, texts_of};
use bx_io::Keeper;
use memo_format::{Entry, OutputLine};
use pip_model_types::{Made, MadeFile};
use std::alloc::Global;

// Whether an output is this file, and its content is held, byte by byte.
fn is_file<K: Keeper>(
    alloc: Global,
    keeper: &mut K,
    contents: &mut KnownContents,
    output: &OutputLine,
    file: &MadeFile,
) -> Result<bool, CareFault>
    requires { AreRight (held_in (K.known keeper.old)) contents.old }
    ensures same { IfOk result (TellsWhether (held_in (K.known keeper.new))
        (λ S. IsFileOf S output.now (file.now.path, file.now.blob))) }
    ensures right { AreRight (held_in (K.known keeper.new)) contents.new }
    ensures known { Keeps (K.known keeper.old) (K.known keeper.new) }
    ensures keeper { KeeperCall (K.bound keeper.old) (K.bound keeper.new) (K.faults keeper.old)
        (K.faults keeper.new) (result ≡ Err CareFault.Failed) }
{
    if output.path != file.path {
        return Ok(false);
    }
    match contents.get(alloc, keeper, &output.digest)? {
        Some(held) => Ok(held.bytes() == file.blob.bytes()),
        None => Ok(false),
    }
}

// Whether outputs are these files, one by one, and their contents are held.
fn are_files<K: Keeper>(
    alloc: Global,
    keeper: &mut K,
    contents: &mut KnownContents,
    outputs: &[OutputLine],
    made: &Made,
) -> Result<bool, CareFault>
    requires { AreRight (held_in (K.known keeper.old)) contents.old }
    ensures same { IfOk result (TellsWhether (held_in (K.known keeper.new))
        (λ S. AreFilesOf S outputs.now made.now)) }
    ensures right { AreRight (held_in (K.known keeper.new)) contents.new }
    ensures known { Keeps (K.known keeper.old) (K.known keeper.new) }
    ensures keeper { KeeperCall (K.bound keeper.old) (K.bound keeper.new) (K.faults keeper.old)
        (K.faults keeper.new) (result ≡ Err CareFault.Failed) }
{
    let files = made.files();
    if outputs.len() != files.len() {
        return Ok(false);
    }
    'outputs: for place in 0..outputs.len() {
        if !is_file(alloc, keeper, contents, &outputs[place], &files[place])? {
            return Ok(false);
        }
    }
    Ok(true)
}

// Whether the run on what the texts of an entry name gives just its outputs.
fn keeps_texts<K: Keeper>(
    alloc: Global,
    keeper: &mut K,
    contents: &mut KnownContents,
    entry: &Entry,
    texts: EntryTexts,
) -> Result<bool, CareFault>
    requires right { AreRight (held_in (K.known keeper.old)) contents.old }
    requires weak { IsWeak texts.weak }
    requires no_pips { without_pips texts.weak ≡ texts.weak }
    requires one_each { length texts.lines ≡ length texts.paths }
    ensures keeps { IfOk result (TellsWhether (held_in (K.known keeper.new))
        (λ S. KeepsTexts S entry.now texts)) }
    ensures right { AreRight (held_in (K.known keeper.new)) contents.new }
    ensures known { Keeps (K.known keeper.old) (K.known keeper.new) }
    ensures keeper { KeeperCall (K.bound keeper.old) (K.bound keeper.new) (K.faults keeper.old)
        (K.faults keeper.new) (result ≡ Err CareFault.Failed) }
{
    let EntryTexts { weak, paths, lines } = texts;
    let desc = match desc_of(alloc, keeper, contents, weak)? {
        Some(desc) => desc,
        None => return Ok(false),
    };
    let answers = match answers_of(alloc, keeper, contents, lines.lines())? {
        Some(answers) => answers,
        None => return Ok(false),
    };
    match files_of_run(alloc, desc, &paths, answers.into_answers())? {
        Some(made) => are_files(alloc, keeper, contents, entry.outputs.lines(), &made),
        None => Ok(false),
    }
}

/// Whether an entry is honest: its texts are held and are those of one run, all contents that it and they name are
/// held, and the run of its tool on these contents and answers asks just its path set and gives just its outputs.
pub(crate) fn is_honest<K: Keeper>(
    alloc: Global,
    keeper: &mut K,
    contents: &mut KnownContents,
    entry: &Entry,
) -> Result<bool, CareFault>
    requires { AreRight (held_in (K.known keeper.old)) contents.old }
    ensures honest { IfOk result (TellsWhether (held_in (K.known keeper.new))
        (λ S. HonestEntry S entry.now)) }
    ensures right { AreRight (held_in (K.known keeper.new)) contents.new }
    ensures known { Keeps (K.known keeper.old) (K.known keeper.new) }
    ensures keeper { KeeperCall (K.bound keeper.old) (K.bound keeper.new) (K.faults keeper.old)
        (K.faults keeper.new) (result ≡ Err CareFault.Failed) }
{
    match texts_of(alloc, keeper, contents, entry)? {
        Some(texts) => keeps_texts(alloc, keeper, contents, entry, texts),
        None => Ok(false),
    }
}
