//! The texts and contents that are put for a record.
ghost use Rattle.std.specs.Prelude.{◌≡◌, ◌++◌, ◌∷◌, [], IfOk, OnOk, Some};
ghost use Rattle.memo_format.specs.Entries.{entry_text, read_entry_text};
ghost use Rattle.memo_format.specs.Found.{output_lines};
ghost use Rattle.observed.specs.Texts.{paths_text, read_paths_text};
ghost use Rattle.pip_model_types.specs.Made.{made_files};
ghost use Rattle.prints.specs.Processes.{weak_parts};
ghost use Rattle.prints.specs.Weak.{weak_text};
ghost use Rattle.run_record.specs.Collisions.{contents_of};
ghost use Rattle.run_record.specs.Digests.{weak_of};
ghost use Rattle.two_phase_meaning.specs.Contents.{answer_contents, desc_contents, given_contents};
ghost use Rattle.two_phase_meaning.specs.Saving.{IsGood, entry_with, outcome_files as files_of};
ghost use Rattle.two_phase.specs.Putting.{IsWritten};

use bx_digest::{Blob, Digest};
use memo_format::{Entry, OutputLines, outputs_of, write_entry};
use observed::{Answer, PathSet};
use pip_model_types::{Desc, Made, MadeFile};
use prints::{Printed, reads_back, strong_of};
use run_record::{Outcome, Record};
use std::alloc::{AllocError, Global};

// What is put for a record, but for its list: the weak text, the path set's text and the strong text, each
// with its digest, the contents that they and the entry name, and the text of the entry. Many processes have
// one path set, so its text is shared.
#[derive(Drop)]
pub(crate) struct Written {
    pub(crate) weak: Printed,
    pub(crate) paths: Blob,
    pub(crate) strong: Printed,
    pub(crate) contents: Vec<Blob>,
    pub(crate) entry: Vec<u8>,
}

// The text of a path set, with its digest.
fn print_paths(alloc: Global, paths: &PathSet) -> Result<Blob, AllocError>
    ensures text { IfOk result (λ text. text ≡ paths_text paths.now) }
    ensures read { IfOk result (λ text. read_paths_text text ≡ Some paths.now) }
{
    let text = paths.text(alloc)?;
    let blob = Blob::new(alloc, text)?;
    Ok(blob)
}

// Adds a content, shared.
fn add(contents: &mut Vec<Blob>, blob: &Blob) -> Result<(), AllocError>
    ensures { OnOk result (contents.new.items ≡ contents.old.items ++ blob.now ∷ []) }
{
    contents.push(blob.share()?)?;
    Ok(())
}

// Adds the contents of files, shared.
fn add_files(contents: &mut Vec<Blob>, files: &[MadeFile]) -> Result<(), AllocError>
    ensures { OnOk result (contents.new.items ≡ contents.old.items ++ contents_of (made_files files.now)) }
{
    'files: for file in files {
        add(contents, &file.blob)?;
    }
    Ok(())
}

// Adds the content or the names of an answer, shared.
fn add_answer(contents: &mut Vec<Blob>, answer: &Answer) -> Result<(), AllocError>
    ensures { OnOk result (contents.new.items ≡ contents.old.items ++ answer_contents answer.now) }
{
    match answer {
        Answer::Content(bytes) => add(contents, bytes),
        Answer::Names(names) => add(contents, names),
        Answer::Absent | Answer::File | Answer::Directory | Answer::Denied => Ok(()),
    }
}

fn add_answers(contents: &mut Vec<Blob>, answers: &[Answer]) -> Result<(), AllocError>
    ensures { OnOk result (contents.new.items ≡ contents.old.items ++ given_contents answers.now) }
{
    'answers: for answer in answers {
        add_answer(contents, answer)?;
    }
    Ok(())
}

// The contents of a process, of answers and of made files, in this order.
fn all_contents(
    alloc: Global,
    desc: &Desc,
    answers: &[Answer],
    made: &Made,
) -> Result<Vec<Blob>, AllocError>
    ensures { IfOk result (λ contents. contents.items
        ≡ desc_contents desc.now ++ (given_contents answers.now ++ contents_of made.now)) }
{
    let mut contents = Vec::new(alloc);
    add(&mut contents, &desc.exe)?;
    add_files(&mut contents, desc.files.files())?;
    add_answers(&mut contents, answers)?;
    add_files(&mut contents, made.files())?;
    Ok(contents)
}

// The files that a run made which succeeded.
fn made_by(outcome: &Outcome) -> &Made
    requires { outcome.now ≡ Outcome.Good (files_of outcome.now) }
    ensures { result.now ≡ files_of outcome.now }
{
    match outcome {
        Outcome::Good(made) => made,
        Outcome::Failed(_) => unreachable!(),
    }
}

// The text of the entry of these digests and made files.
fn entry_text_of(
    alloc: Global,
    weak: Digest,
    paths: Digest,
    strong: Digest,
    made: &Made,
) -> Result<Vec<u8>, AllocError>
    ensures text { IfOk result (λ text. text.items ≡ entry_text (entry_with weak paths strong made.now)) }
    ensures read { IfOk result (λ text.
        read_entry_text text.items ≡ Some (entry_with weak paths strong made.now)) }
{
    let outputs = OutputLines::of(outputs_of(alloc, made.files())?);
    let entry = Entry {
        weak,
        paths,
        strong,
        outputs,
    };
    write_entry(alloc, &entry)
}

// All that is put for a record of a success, but for its list, by its weak text.
pub(crate) fn write(alloc: Global, ran: &Record, weak: Printed) -> Result<Written, AllocError>
    requires good { IsGood ran.now }
    requires text { weak.text.items ≡ weak_text (weak_parts ran.now.desc) }
    requires digest { weak.digest ≡ weak_of ran.now.desc }
    ensures { IfOk result (IsWritten ran.now) }
{
    reads_back(ran.desc());
    let made = made_by(ran.outcome());
    let asks = ran.paths();
    let second = asks.has_match();
    let paths = print_paths(alloc, asks)?;
    let paths_digest = paths.digest();
    let strong = strong_of(alloc, second, &weak.digest, &paths_digest, ran.answers())?;
    let entry = entry_text_of(alloc, weak.digest, paths_digest, strong.digest, made)?;
    let contents = all_contents(alloc, ran.desc(), ran.answers(), made)?;
    Ok(Written {
        weak,
        paths,
        strong,
        contents,
        entry,
    })
}
