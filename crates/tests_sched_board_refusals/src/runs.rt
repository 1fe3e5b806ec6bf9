//! A process that looks at two paths, and records of its runs.
use bx_digest::Blob;
use observed::{Answer, PathSet};
use pip_model::{Desc, ProcessDesc};
use pip_view_inputs::no_files;
use prints::read_weak;
use run_record::{Record, replay};
use std::alloc::Global;
use std::process::Abort;

// It fails by what it finds second.
const TOOL: &str = "tool 1\n\
probe r0, \"/a\"\n\
probe r0, \"/b\"\n\
eq r0, \"file\", yes\n\
exit 4\n\
yes: exit 5\n";

// The bundle of that tool.
pub(crate) const TOOL_FILE: &str = "bundle 1\n\
file 75 p.tool\n\
tool 1\n\
probe r0, \"/a\"\n\
probe r0, \"/b\"\n\
eq r0, \"file\", yes\n\
exit 4\n\
yes: exit 5\n\
\n\
end\n";

// The path set of its runs.
const ASKED: &str = "paths 1\nprobe a\nprobe b\n";

// The weak text of the process, and with another budget.
pub(crate) const WEAK: &str = "bxl 1\n\
exe p.tool 676f73b4cb0447c1fff4e2897c6975153d501fa5e52b527aa9345c1724092f15\n\
cwd .\n\
budget 9\n\
no-console\n\
out out/a\n";

pub(crate) const SMALLER: &str = "bxl 1\n\
exe p.tool 676f73b4cb0447c1fff4e2897c6975153d501fa5e52b527aa9345c1724092f15\n\
cwd .\n\
budget 8\n\
no-console\n\
out out/a\n";

// What is there, or else the test ends.
pub(crate) fn must<T, E: Drop>(rt: &impl Abort, answer: Result<T, E>) -> T {
    match answer {
        Ok(value) => value,
        Err(_) => rt.abort(),
    }
}

pub(crate) fn process(rt: &impl Abort, alloc: Global) -> ProcessDesc {
    must(rt, read_weak(alloc, WEAK.as_bytes())).process
}

// The process of a weak text, with that tool.
fn desc(rt: &impl Abort, alloc: Global, weak: &str) -> Desc {
    let tool = must(rt, TOOL.as_bytes().to_vec(alloc));
    let exe = must(rt, Blob::new(alloc, tool));
    let files = must(rt, no_files(alloc));
    let parts = must(rt, read_weak(alloc, weak.as_bytes()));
    Desc {
        process: parts.process,
        exe,
        files,
        budget: parts.budget,
    }
}

// That nothing is at the first path, and this at the second.
fn answers(rt: &impl Abort, alloc: Global, second: &Answer) -> Vec<Answer> {
    let mut answers = Vec::new(alloc);
    must(rt, answers.push(Answer::Absent));
    must(rt, answers.push(must(rt, second.share())));
    answers
}

// The record of the run of the process of a weak text that finds this at the second path.
pub(crate) fn record(rt: &impl Abort, alloc: Global, weak: &str, second: &Answer) -> Record {
    let paths = must(rt, PathSet::read(alloc, ASKED.as_bytes()));
    let answers = answers(rt, alloc, second);
    assert!(rt; answers.len() == paths.asks().len());
    let desc = desc(rt, alloc, weak);
    match replay(alloc, desc, &paths, answers) {
        Ok(Some(record)) => record,
        Ok(None) | Err(_) => rt.abort(),
    }
}
