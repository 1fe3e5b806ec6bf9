//! The process and the answers that texts say, with the contents that they name.
ghost use Rattle.std.specs.Prelude.{◌≡◌, Err, IfOk, IfSome, length, map};
ghost use Rattle.bx_io.specs.Holdings.{Keeps, held_in};
ghost use Rattle.bx_tree.specs.FileInputs.{input_path};
ghost use Rattle.pip_model_types.specs.Inputs.{RiseByPath};
ghost use Rattle.pip_model_types.specs.Made.{RisingFiles, made_files};
ghost use Rattle.prints.specs.Processes.{IsWeak, without_pips};
ghost use Rattle.prints.specs.Strong.{line_of};
ghost use Rattle.two_phase.specs.Calls.{KeeperCall};
ghost use Rattle.two_phase.specs.Finding.{FindsOne};
ghost use Rattle.two_phase_meaning.specs.Contents.{HoldsAll, answer_contents};
ghost use Rattle.cache_care_check.specs.Describing.{AreDeclared, IsDeclared};
ghost use Rattle.cache_care_check.specs.Judging.{AreAnswersOf, IsDescOf};
ghost use Rattle.cache_care_check.specs.Known.{AreRight};

use crate::fault::CareFault;
use crate::known::KnownContents;
use bx_digest::Digest;
use bx_io::Keeper;
use bx_tree::FileInput;
use observed::Answer;
use pip_model_types::{Desc, Made, MadeFile};
use prints::{AnswerLine, WeakParts};
use std::alloc::Global;
use std::marker::Model;

/// Answers, in order. Contracts see them as a list.
#[derive(Drop)]
pub(crate) struct StoredAnswers {
    answers: Vec<Answer>,
}

impl Model for StoredAnswers {
    ghost use Rattle.std.specs.Prelude.{List};
    ghost use Rattle.observed.specs.declared.access.Answer.{Answer};

    ghost Value = { List Answer };

    ghost view = { λ a. a.answers.items };
}

impl StoredAnswers {
    // The answers, in order.
    pub(crate) fn into_answers(self) -> Vec<Answer>
        ensures { result.items ≡ self }
    {
        self.answers
    }
}

// A declared file with its content.
fn declared<K: Keeper>(
    alloc: Global,
    keeper: &mut K,
    contents: &mut KnownContents,
    file: &FileInput,
    digest: &Digest,
) -> Result<Option<MadeFile>, CareFault>
    requires { AreRight (held_in (K.known keeper.old)) contents.old }
    ensures found { IfOk result (FindsOne (held_in (K.known keeper.new))
        (λ S f. IsDeclared S (input_path file.now) digest.now f)) }
    ensures path { IfOk result (λ found. IfSome found (λ f. f.path ≡ input_path file.now)) }
    ensures right { AreRight (held_in (K.known keeper.new)) contents.new }
    ensures known { Keeps (K.known keeper.old) (K.known keeper.new) }
    ensures keeper { KeeperCall (K.bound keeper.old) (K.bound keeper.new) (K.faults keeper.old)
        (K.faults keeper.new) (result ≡ Err CareFault.Failed) }
{
    match contents.get(alloc, keeper, digest)? {
        Some(blob) => Ok(Some(MadeFile {
            path: file.path().share()?,
            blob,
        })),
        None => Ok(None),
    }
}

// The declared files with their contents, which rise by path.
fn declared_files<K: Keeper>(
    alloc: Global,
    keeper: &mut K,
    contents: &mut KnownContents,
    files: &[FileInput],
    digests: &[Digest],
) -> Result<Option<Made>, CareFault>
    requires right { AreRight (held_in (K.known keeper.old)) contents.old }
    requires rising { RiseByPath files.now }
    requires one_each { length files.now ≡ length digests.now }
    ensures found { IfOk result (FindsOne (held_in (K.known keeper.new))
        (λ S made. AreDeclared S (map input_path files.now) digests.now made)) }
    ensures right { AreRight (held_in (K.known keeper.new)) contents.new }
    ensures known { Keeps (K.known keeper.old) (K.known keeper.new) }
    ensures keeper { KeeperCall (K.bound keeper.old) (K.bound keeper.new) (K.faults keeper.old)
        (K.faults keeper.new) (result ≡ Err CareFault.Failed) }
{
    let mut made = Vec::new(alloc);
    'files: for place in 0..files.len() {
        match declared(alloc, keeper, contents, &files[place], &digests[place])? {
            Some(file) => made.push(file)?,
            None => return Ok(None),
        }
    }
    Ok(Some(Made::of(alloc, made)?))
}

/// The process that a weak text says, with the contents that it names, if all are held.
pub(crate) fn desc_of<K: Keeper>(
    alloc: Global,
    keeper: &mut K,
    contents: &mut KnownContents,
    parts: WeakParts,
) -> Result<Option<Desc>, CareFault>
    requires right { AreRight (held_in (K.known keeper.old)) contents.old }
    requires weak { IsWeak parts }
    requires no_pips { without_pips parts ≡ parts }
    ensures found { IfOk result (FindsOne (held_in (K.known keeper.new)) (λ S d. IsDescOf S parts d)) }
    ensures right { AreRight (held_in (K.known keeper.new)) contents.new }
    ensures known { Keeps (K.known keeper.old) (K.known keeper.new) }
    ensures keeper { KeeperCall (K.bound keeper.old) (K.bound keeper.new) (K.faults keeper.old)
        (K.faults keeper.new) (result ≡ Err CareFault.Failed) }
{
    let exe = match contents.get(alloc, keeper, &parts.exe)? {
        Some(exe) => exe,
        None => return Ok(None),
    };
    let inputs = parts.process.files.files();
    let digests = parts.files.digests();
    match declared_files(alloc, keeper, contents, inputs, digests)? {
        Some(files) => Ok(Some(Desc {
            process: parts.process,
            exe,
            files,
            budget: parts.budget,
        })),
        None => Ok(None),
    }
}

// The answer that a line says, with its content, if that is held.
fn answer_of<K: Keeper>(
    alloc: Global,
    keeper: &mut K,
    contents: &mut KnownContents,
    line: &AnswerLine,
) -> Result<Option<Answer>, CareFault>
    requires { AreRight (held_in (K.known keeper.old)) contents.old }
    ensures found { IfOk result (FindsOne (held_in (K.known keeper.new))
        (λ S a. (line_of a ≡ line.now) × HoldsAll S (answer_contents a))) }
    ensures right { AreRight (held_in (K.known keeper.new)) contents.new }
    ensures known { Keeps (K.known keeper.old) (K.known keeper.new) }
    ensures keeper { KeeperCall (K.bound keeper.old) (K.bound keeper.new) (K.faults keeper.old)
        (K.faults keeper.new) (result ≡ Err CareFault.Failed) }
{
    match line {
        AnswerLine::Absent => Ok(Some(Answer::Absent)),
        AnswerLine::Content(digest) => match contents.get(alloc, keeper, digest)? {
            Some(bytes) => Ok(Some(Answer::Content(bytes))),
            None => Ok(None),
        },
        AnswerLine::File => Ok(Some(Answer::File)),
        AnswerLine::Directory => Ok(Some(Answer::Directory)),
        AnswerLine::Names(digest) => match contents.get(alloc, keeper, digest)? {
            Some(names) => Ok(Some(Answer::Names(names))),
            None => Ok(None),
        },
        AnswerLine::Denied => Ok(Some(Answer::Denied)),
    }
}

/// The answers that the lines of a strong text say, with their contents, if all are held.
pub(crate) fn answers_of<K: Keeper>(
    alloc: Global,
    keeper: &mut K,
    contents: &mut KnownContents,
    lines: &[AnswerLine],
) -> Result<Option<StoredAnswers>, CareFault>
    requires { AreRight (held_in (K.known keeper.old)) contents.old }
    ensures found { IfOk result (FindsOne (held_in (K.known keeper.new))
        (λ S given. AreAnswersOf S lines.now given)) }
    ensures number { IfOk result (λ found. IfSome found (λ given. length given ≡ length lines.now)) }
    ensures right { AreRight (held_in (K.known keeper.new)) contents.new }
    ensures known { Keeps (K.known keeper.old) (K.known keeper.new) }
    ensures keeper { KeeperCall (K.bound keeper.old) (K.bound keeper.new) (K.faults keeper.old)
        (K.faults keeper.new) (result ≡ Err CareFault.Failed) }
{
    let mut answers = Vec::new(alloc);
    'lines: for line in lines {
        match answer_of(alloc, keeper, contents, line)? {
            Some(answer) => answers.push(answer)?,
            None => return Ok(None),
        }
    }
    Ok(Some(StoredAnswers { answers }))
}
