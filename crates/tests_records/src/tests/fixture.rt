//! A process that looks at two paths, a view for it, and the records of its runs.
ghost use Rattle.std.specs.Prelude.{if◌then◌else◌};
ghost use Rattle.bx_tree.specs.Paths.{same_path};
ghost use Rattle.observed.specs.declared.access.Answer.TheVariants as answers;

use bx_digest::Blob;
use bx_tree::Path;
use observed::{Answer, Ask, PathSet, View};
use pip_model_types::{Desc, Made};
use prints::read_weak;
use run_record::{Record, replay};
use std::alloc::{AllocError, Global};
use std::test::Fail;

// A view in which all is absent but one path.
#[derive(Drop)]
pub struct One<'a> {
    pub path: &'a Path,
    pub answer: &'a Answer,
}

impl View for One<'_> {
    ghost answers = { λ v q. if same_path q.path v.path.now then v.answer.now else answers.Absent };

    fn ask(&mut self, _: Global, ask: &Ask) -> Result<Answer, AllocError> {
        if ask.path == *self.path {
            self.answer.share()
        } else {
            Ok(Answer::Absent)
        }
    }
}

// It ends by what it finds second.
const TOOL: &str = "tool 1\n\
probe r0, \"/a\"\n\
probe r0, \"/b\"\n\
eq r0, \"file\", yes\n\
exit 4\n\
yes: exit 5\n";

// The path set of its runs.
pub const ASKED: &str = "paths 1\nprobe a\nprobe b\n";

// The weak text of the process, and with another budget.
pub const WEAK: &str = "bxl 1\n\
exe p.tool 676f73b4cb0447c1fff4e2897c6975153d501fa5e52b527aa9345c1724092f15\n\
cwd .\n\
budget 9\n\
no-console\n";

pub const SMALLER: &str = "bxl 1\n\
exe p.tool 676f73b4cb0447c1fff4e2897c6975153d501fa5e52b527aa9345c1724092f15\n\
cwd .\n\
budget 8\n\
no-console\n";

pub fn blob(alloc: Global, bytes: &str) -> Result<Blob, Fail> {
    Ok(Blob::new(alloc, Vec::from_slice(alloc, bytes.as_bytes())?)?)
}

fn no_files(alloc: Global) -> Result<Made, Fail> {
    Ok(Made::of(alloc, Vec::new(alloc))?)
}

// The process of a weak text, with that tool.
pub fn desc(alloc: Global, weak: &str) -> Result<Desc, Fail> {
    let exe = blob(alloc, TOOL)?;
    let files = no_files(alloc)?;
    let parts = read_weak(alloc, weak.as_bytes())?;
    Ok(Desc {
        process: parts.process,
        exe,
        files,
        budget: parts.budget,
    })
}

// An answer for each ask.
fn given(alloc: Global, paths: &PathSet, answer: &Answer) -> Result<Vec<Answer>, Fail> {
    let mut answers = Vec::new(alloc);
    for _ in paths.asks() {
        answers.push(answer.share()?)?;
    }
    Ok(answers)
}

// The record of a run on these answers, if there is one to each ask.
fn replayed(
    alloc: Global,
    desc: Desc,
    paths: &PathSet,
    answers: Vec<Answer>,
) -> Result<Option<Record>, Fail> {
    if answers.len() != paths.asks().len() {
        return Ok(None);
    }
    Ok(replay(alloc, desc, paths, answers)?)
}

// The record of the run whose path set has this text and in which all asks have this answer, if there is one.
pub fn record(alloc: Global, paths: &str, answer: &Answer) -> Result<Option<Record>, Fail> {
    let paths = PathSet::read(alloc, paths.as_bytes())?;
    let answers = given(alloc, &paths, answer)?;
    replayed(alloc, desc(alloc, WEAK)?, &paths, answers)
}
