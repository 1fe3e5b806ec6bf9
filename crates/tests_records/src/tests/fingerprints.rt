//! Readers of fingerprints, and the strong fingerprint of a path set on a view.
use super::fixture::{ASKED, One, WEAK, blob};
use bx_digest::digest_of;
use bx_tree::Path;
use observed::{Answer, PathSet};
use pip_model_types::ProcessDesc;
use prints::{AnswerLine, PrintFault, StrongParts, WeakParts, read_strong, read_weak, strong};
use std::alloc::{AllocError, Global};
use std::test::Fail;

// The weak text of a process with all that a description may have, over the digests of no bytes and of `abc`.
const FULL_WEAK: &str = "bxl 1\n\
exe src/cc.tool e3b0c44298fc1c149afbf4c8996fb92427ae41e4649b934ca495991b7852b855\n\
cwd src\n\
budget 100000\n\
console out/log\n\
arg 8 /src/a.c\n\
arg 0 \n\
arg 3 a\nb\n\
env 4 MODE 4 fast\n\
env 4 MODE 0 \n\
in src/a.c ba7816bf8f01cfea414140de5dae2223b00361a396177a9cb410ff61f20015ad\n\
in src/b.c e3b0c44298fc1c149afbf4c8996fb92427ae41e4649b934ca495991b7852b855\n\
indir full src\n\
indir partial src\n\
indir source-top src\n\
indir source-all src\n\
indir opaque src\n\
out out/a.o\n\
outdir exclusive out/d\n\
outdir shared out/s\n";

// How many arguments, variables, declared files, input directories, output files and output directories.
fn counts(process: &ProcessDesc) -> [usize; 6] {
    [
        process.args.texts().len(),
        process.env.pairs().len(),
        process.files.files().len(),
        process.dirs.dirs().len(),
        process.outs.paths().len(),
        process.outdirs.dirs().len(),
    ]
}

fn are_texts(process: &ProcessDesc) -> bool {
    match process.args.texts() {
        [_, _, third] => third.bytes() == b"a\nb".as_slice(),
        _ => false,
    }
}

fn is_said(console: Option<&Path>) -> bool {
    match console {
        Some(path) => path.text() == "out/log",
        None => false,
    }
}

fn has_paths(process: &ProcessDesc) -> bool {
    process.exe.text() == "src/cc.tool"
        && process.dir.text() == "src"
        && is_said(process.console.as_ref())
}

fn are_digests(parts: &WeakParts) -> bool {
    parts.exe == digest_of(b"")
        && parts.files.digests() == [digest_of(b"abc"), digest_of(b"")].as_slice()
}

// Whether this is what the weak text says.
fn is_full(parts: &WeakParts) -> bool {
    counts(&parts.process) == [3, 2, 2, 5, 1, 2]
        && are_texts(&parts.process)
        && has_paths(&parts.process)
        && parts.budget == 100_000
        && are_digests(parts)
}

#[test]
fn a_weak_text_says_this(rt: HostRuntime) -> Result<(), Fail> {
    let parts = read_weak(rt.alloc(), FULL_WEAK.as_bytes())?;
    assert!(rt; is_full(&parts));
    Ok(())
}

// Each form of a line, where no part of a line can be shorter.
const EACH_FORM: &str = "bxl 1\n\
exe t e3b0c44298fc1c149afbf4c8996fb92427ae41e4649b934ca495991b7852b855\n\
cwd s\n\
budget 5\n\
console c\n\
arg 2 /a\n\
arg 0 \n\
arg 3 a\nb\n\
env 1 M 1 f\n\
env 1 M 0 \n\
in a ba7816bf8f01cfea414140de5dae2223b00361a396177a9cb410ff61f20015ad\n\
indir full s\n\
indir partial s\n\
indir source-top s\n\
indir source-all s\n\
indir opaque s\n\
out o\n\
outdir exclusive d\n\
outdir shared s\n";

const NO_CONSOLE: &str = "bxl 1\n\
exe t e3b0c44298fc1c149afbf4c8996fb92427ae41e4649b934ca495991b7852b855\n\
cwd .\n\
budget 5\n\
no-console\n";

fn without(alloc: Global, text: &[u8], place: usize) -> Result<Vec<u8>, AllocError> {
    let mut rest = Vec::from_slice(alloc, text)?;
    if place < rest.len() {
        rest.remove(place);
    }
    Ok(rest)
}

fn is_refused(alloc: Global, text: &[u8]) -> bool {
    matches!(read_weak(alloc, text), Err(PrintFault::BadPrint))
}

// The first place without whose byte a text is a weak text too, or its length.
fn first_free(alloc: Global, text: &[u8]) -> Result<usize, AllocError> {
    for place in 0..text.len() {
        let rest = without(alloc, text, place)?;
        if !is_refused(alloc, rest.as_slice()) {
            return Ok(place);
        }
    }
    Ok(text.len())
}

#[test]
fn no_byte_of_a_weak_text_can_be_missing(rt: HostRuntime) -> Result<(), Fail> {
    let alloc = rt.alloc();
    for text in [EACH_FORM, NO_CONSOLE] {
        assert!(rt; !is_refused(alloc, text.as_bytes()));
        assert_eq!(rt; first_free(alloc, text.as_bytes())?, text.len());
    }
    Ok(())
}

// The strong text of the process of `WEAK` where `a` is absent, and `b` a file of the byte `x`.
const STRONG: &str = "strong 1\n\
weak a4713325d908270d5048c8a717155129d44e4a65a7bef8f52bedfadc04b717ae\n\
paths 9b35a526aa374d8cbf69d7d8c32f17c24e5c347a0a7b1a36f1db1f7bb395ed39\n\
absent\n\
content 2d711642b726b04401627ca9fbac32f5c8530fb1903cc4db02258717921a4881\n";

// The strong text where `b` alone has this answer.
fn strong_text(alloc: Global, answer: &Answer) -> Result<Vec<u8>, Fail> {
    let path = Path::read(alloc, b"b")?;
    let paths = PathSet::read(alloc, ASKED.as_bytes())?;
    let mut view = One {
        path: &path,
        answer,
    };
    let printed = strong(alloc, &digest_of(WEAK.as_bytes()), &paths, &mut view)?;
    Ok(printed.text)
}

// The strong text where `b` is a file of the byte `x`.
fn strong_of_x(alloc: Global) -> Result<Vec<u8>, Fail> {
    let content = Answer::Content(blob(alloc, "x")?);
    let text = strong_text(alloc, &content);
    drop(content);
    text
}

#[test]
fn the_strong_text_on_a_view_is_this(rt: HostRuntime) -> Result<(), Fail> {
    assert_eq!(rt; strong_of_x(rt.alloc())?.as_slice(), STRONG.as_bytes());
    Ok(())
}

// A strong text with all answers, over the digests of no bytes and of `abc`.
const FULL_STRONG: &str = "strong 1\n\
weak e3b0c44298fc1c149afbf4c8996fb92427ae41e4649b934ca495991b7852b855\n\
paths ba7816bf8f01cfea414140de5dae2223b00361a396177a9cb410ff61f20015ad\n\
absent\n\
content ba7816bf8f01cfea414140de5dae2223b00361a396177a9cb410ff61f20015ad\n\
file\n\
directory\n\
names e3b0c44298fc1c149afbf4c8996fb92427ae41e4649b934ca495991b7852b855\n\
denied\n";

// A letter for each answer, where contents have the digest of `abc` and names that of no bytes.
fn letter(line: &AnswerLine) -> u8 {
    match line {
        AnswerLine::Absent => b'a',
        AnswerLine::Content(content) if *content == digest_of(b"abc") => b'c',
        AnswerLine::File => b'f',
        AnswerLine::Directory => b'd',
        AnswerLine::Names(names) if *names == digest_of(b"") => b'n',
        AnswerLine::Denied => b'x',
        _ => b'?',
    }
}

fn are_all(lines: &[AnswerLine]) -> bool {
    match lines {
        [a, c, f, d, n, x] => {
            letter(a) == b'a'
                && letter(c) == b'c'
                && letter(f) == b'f'
                && letter(d) == b'd'
                && letter(n) == b'n'
                && letter(x) == b'x'
        }
        _ => false,
    }
}

// Whether this is what the strong text says.
fn is_strong(parts: &StrongParts) -> bool {
    parts.weak == digest_of(b"") && parts.paths == digest_of(b"abc") && are_all(parts.lines.lines())
}

#[test]
fn a_strong_text_says_this(rt: HostRuntime) -> Result<(), Fail> {
    let parts = read_strong(rt.alloc(), FULL_STRONG.as_bytes())?;
    assert!(rt; is_strong(&parts));
    Ok(())
}
