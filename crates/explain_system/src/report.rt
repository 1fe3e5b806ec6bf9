//! Reading a report, and telling how pips ended in sentences.

use crate::shown::Lines;
use bx_tree::{Memory, lines_of};
use pip_graph::{Ended, kind_word};
use pip_model::{Pip, Plan};
use prints::after_word;
use std::alloc::Global;

/// How a pip ended, and a sentence that says it.
#[derive(Drop)]
pub struct PipEnd {
    pub ended: Ended,
    pub sentence: Vec<u8>,
}

/// How pips ended, without the sentences.
pub fn ends_of(alloc: Global, ends: &[PipEnd]) -> Result<Vec<Ended>, Memory> {
    let mut all = Vec::new(alloc);
    'ends: for end in ends {
        all.push(end.ended)?;
    }
    Ok(all)
}

// The parts of a line between blanks.
fn words_of(alloc: Global, line: &[u8]) -> Result<Vec<&[u8]>, Memory> {
    line.split(|byte| *byte == b' ').collect(alloc)
}

// A sentence of three texts, of which the middle one is shown.
fn sentence(
    alloc: Global,
    before: &str,
    shown: &[u8],
    after: &str,
) -> Result<Option<Vec<u8>>, Memory> {
    let mut text = Lines::new(alloc);
    text.add(before);
    text.shown(shown);
    text.add(after);
    Ok(Some(text.end()?))
}

fn is(word: &[u8], name: &str) -> bool {
    word == name.as_bytes()
}

// What a violation of this kind that concerns no other pip was.
fn alone(alloc: Global, kind: &[u8], path: &[u8]) -> Result<Option<Vec<u8>>, Memory> {
    if is(kind, "MissingSourceDependency") {
        let after = ", which it does not declare.";
        return sentence(alloc, "It read the source file ", path, after);
    }
    if is(kind, "UndeclaredOutput") {
        return sentence(
            alloc,
            "It wrote ",
            path,
            ", which it does not declare to make.",
        );
    }
    Ok(None)
}

// What stands before, between and after the path and the other pip in the sentence of a violation that concerns another pip.
fn between(kind: &[u8]) -> Option<(&'static str, &'static str, &'static str)> {
    if is(kind, "UndeclaredOrderedRead") {
        let middle =
            ", which another pip can make. It waits for that pip, but does not take the file: pip ";
        return Some(("It read ", middle, "."));
    }
    if is(kind, "UndeclaredReadCycle") {
        let middle = ", which another pip can make, and that pip waits for it: pip ";
        return Some(("It read ", middle, "."));
    }
    if is(kind, "ReadRace") {
        let middle =
            ", which another pip can make, and nothing says which of the two comes first: pip ";
        return Some(("It read ", middle, "."));
    }
    if is(kind, "DoubleWrite") {
        let middle = " in a directory that it shares, where another pip had written: pip ";
        return Some(("It wrote ", middle, "."));
    }
    None
}

// What a violation was that concerns another pip.
fn with_other(
    alloc: Global,
    kind: &[u8],
    path: &[u8],
    other: &[u8],
) -> Result<Option<Vec<u8>>, Memory> {
    let Some((start, middle, end)) = between(kind) else {
        return Ok(None);
    };
    let mut text = Lines::new(alloc);
    text.add(start);
    text.shown(path);
    text.add(middle);
    text.shown(other);
    text.add(end);
    Ok(Some(text.end()?))
}

// The word at a place, or nothing.
fn word_at<'a>(words: &[&'a [u8]], place: usize) -> &'a [u8] {
    match words.get(place) {
        Some(word) => word,
        None => b"",
    }
}

// The sentence of a failure that two words say.
fn by_two(alloc: Global, first: &[u8], second: &[u8]) -> Result<Option<Vec<u8>>, Memory> {
    if is(first, "exit") {
        return sentence(alloc, "Its tool ended with the code ", second, ".");
    }
    if is(first, "tool") {
        return sentence(alloc, "Its tool was at fault: ", second, ".");
    }
    if is(first, "missing-output") {
        return sentence(alloc, "It did not write ", second, ", which it declares.");
    }
    Ok(None)
}

// The sentence of a failure, by the words after `failed`.
fn failure(alloc: Global, words: &[&[u8]]) -> Result<Option<Vec<u8>>, Memory> {
    let (first, path) = (word_at(words, 0), word_at(words, 2));
    match words.len() {
        2 => by_two(alloc, first, word_at(words, 1)),
        3 => alone(alloc, first, path),
        5 if is(word_at(words, 3), "pip") => { with_other(alloc, first, path, word_at(words, 4)) }
        _ => Ok(None),
    }
}

// An end with its sentence, if there is one.
fn end_with(ended: Ended, sentence: Option<Vec<u8>>) -> Option<PipEnd> {
    let sentence = sentence?;
    Some(PipEnd { ended, sentence })
}

// How a pip ended of which its report says one word.
fn end_by_word(alloc: Global, word: &[u8]) -> Result<Option<PipEnd>, Memory> {
    if is(word, "succeeded") {
        let said = sentence(alloc, "It succeeded.", b"", "")?;
        return Ok(end_with(Ended::Succeeded, said));
    }
    if is(word, "skipped") {
        let why = "It was skipped: a pip that it waits for did not succeed.";
        let said = sentence(alloc, why, b"", "")?;
        return Ok(end_with(Ended::Skipped, said));
    }
    Ok(None)
}

// How a pip ended, by the words of the end of its line.
fn end_of(alloc: Global, words: &[&[u8]]) -> Result<Option<PipEnd>, Memory> {
    let Some((first, more)) = words.split_first() else {
        return Ok(None);
    };
    if more.is_empty() {
        return end_by_word(alloc, first);
    }
    if !is(first, "failed") {
        return Ok(None);
    }
    let said = failure(alloc, more)?;
    Ok(end_with(Ended::Failed, said))
}

// How the pip with this number ended, by its line.
fn line_end(
    alloc: Global,
    number: usize,
    pip: &Pip,
    line: &[u8],
) -> Result<Option<PipEnd>, Memory> {
    let word = kind_word(&pip.kind);
    let start = format!(in alloc; "pip {number} {word} ")?;
    let Some(end) = after_word(start.as_bytes(), line) else {
        return Ok(None);
    };
    let words = words_of(alloc, end)?;
    end_of(alloc, words.as_slice())
}

// How pips ended, by their lines.
fn all_ends(alloc: Global, pips: &[Pip], lines: &[&[u8]]) -> Result<Option<Vec<PipEnd>>, Memory> {
    let mut ends = Vec::new(alloc);
    'pips: for (number, pip) in pips.iter().enumerate() {
        let Some(line) = lines.get(number) else {
            return Ok(None);
        };
        match line_end(alloc, number, pip, line)? {
            Some(end) => ends.push(end)?,
            None => return Ok(None),
        }
    }
    Ok(Some(ends))
}

fn is_head(first: &[u8], second: &[u8]) -> bool {
    is(first, "report 1") && (is(second, "verdict succeeded") || is(second, "verdict failed"))
}

// The lines of a report between its first two and the last one, which is empty.
fn body_of<'a>(lines: &'a [&'a [u8]]) -> Option<&'a [&'a [u8]]> {
    let (last, front) = lines.split_last()?;
    let (first, more) = front.split_first()?;
    let (second, body) = more.split_first()?;
    if !last.is_empty() || !is_head(first, second) {
        return None;
    }
    Some(body)
}

/// How the pips of a plan ended, as a report of their build says; none where the text is no such report.
pub fn read_report(alloc: Global, plan: &Plan, text: &[u8]) -> Result<Option<Vec<PipEnd>>, Memory> {
    let lines = lines_of(alloc, text)?;
    match body_of(lines.as_slice()) {
        Some(body) if body.len() == plan.pips().len() => all_ends(alloc, plan.pips(), body),
        _ => Ok(None),
    }
}
