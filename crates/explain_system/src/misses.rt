//! Why processes would run, in lines.

use crate::differences::add_differences;
use crate::shown::Lines;
use build_misses::Miss;
use bx_digest::{Blob, Digest};
use bx_tree::{Memory, Path, lines_of};
use memo_format::Selector;
use miss_reasons::{NoFit, Reason};
use observed::{Answer, Ask, AskKind};
use pip_model::{OutDir, PipKind, Plan};
use prints::AnswerLine;
use std::alloc::Global;

/// What the lines of misses are made with.
#[derive(Clone, Copy)]
pub(crate) struct Told<'a> {
    pub alloc: Global,
    pub plan: &'a Plan,
    pub misses: &'a [Miss],
}

fn first_dir(dirs: &[OutDir]) -> Option<&Path> {
    match dirs.first() {
        Some(dir) => Some(&dir.path),
        None => None,
    }
}

fn first_output(kind: &PipKind) -> Option<&Path> {
    let PipKind::Process(process) = kind else {
        return None;
    };
    if let Some(path) = process.outs.paths().first() {
        return Some(path);
    }
    match &process.console {
        Some(console) => Some(console),
        None => first_dir(process.outdirs.dirs()),
    }
}

fn can_make(plan: &Plan, number: u32, path: &Path) -> bool {
    let pips = plan.pips();
    if number as usize >= pips.len() {
        return false;
    }
    plan.can_produce(number, path)
}

/// Adds which process of the list makes a path, if one does.
pub(crate) fn add_maker(told: &Told<'_>, text: &mut Lines, path: &Path) {
    'misses: for miss in told.misses {
        let number = miss.pip;
        if can_make(told.plan, number, path) {
            text.made(format!(in told.alloc; ", follows from pip {number}"));
            return;
        }
    }
}

fn add_name(told: &Told<'_>, text: &mut Lines, kind: &str, digest: &Digest) {
    text.add(kind);
    text.made(digest.hex(told.alloc));
}

fn line_words(line: &AnswerLine) -> &'static str {
    match line {
        AnswerLine::Absent => "absent",
        AnswerLine::Content(_) => "a file",
        AnswerLine::File => "a file",
        AnswerLine::Directory => "a directory",
        AnswerLine::Names(_) => "a directory",
        AnswerLine::Denied => "not allowed",
    }
}

fn answer_words(answer: &Answer) -> &'static str {
    match answer {
        Answer::Absent => "absent",
        Answer::Content(_) => "a file",
        Answer::File => "a file",
        Answer::Directory => "a directory",
        Answer::Names(_) => "a directory",
        Answer::Denied => "not allowed",
    }
}

// Whether the last line is empty.
fn has_end(lines: &[&[u8]]) -> bool {
    match lines.last() {
        Some(last) => last.is_empty(),
        None => false,
    }
}

// The names in a listing, which are sorted, each with a newline after it.
fn names_of(alloc: Global, bytes: &[u8]) -> Result<Vec<&[u8]>, Memory> {
    let mut names = lines_of(alloc, bytes)?;
    if has_end(names.as_slice()) {
        let _ = names.pop();
    }
    Ok(names)
}

fn has_name(names: &[&[u8]], name: &[u8]) -> bool {
    names.binary_search_by(|other| (*other).cmp(name)).is_ok()
}

// Adds that the names which are not among others are new, or gone.
fn add_names(text: &mut Lines, names: &[&[u8]], others: &[&[u8]], what: &str) {
    let mut count: usize = 0;
    'names: for name in names {
        if !has_name(others, name) {
            text.add(if count == 0 { "; " } else { ", " });
            text.shown(name);
            count = count.saturating_add(1);
        }
    }
    match count {
        0 => return,
        1 => text.add(" is "),
        _ => text.add(" are "),
    }
    text.add(what);
}

// Adds names, with commas between them.
fn add_list(text: &mut Lines, names: &[&[u8]]) {
    if names.is_empty() {
        text.add("none");
        return;
    }
    'names: for (place, name) in names.iter().enumerate() {
        text.add(if place == 0 { "" } else { ", " });
        text.shown(name);
    }
}

fn add_listing(text: &mut Lines, ask: &Ask) {
    text.add("the names in ");
    text.path(&ask.path);
    match &ask.kind {
        AskKind::Match(pattern) => {
            text.add(" that match ");
            text.shown(pattern.text())
        }
        _ => (),
    }
}

// Adds how the names in a directory changed.
fn add_names_changed(
    told: &Told<'_>,
    text: &mut Lines,
    ask: &Ask,
    names: &Option<Blob>,
    now: &Blob,
) {
    add_listing(text, ask);
    let Some(old) = names else {
        text.add(" changed");
        return;
    };
    let (Ok(old), Ok(new)) = (
        names_of(told.alloc, old.bytes()),
        names_of(told.alloc, now.bytes()),
    ) else {
        text.fail();
        return;
    };
    text.add(" were ");
    add_list(text, old.as_slice());
    add_names(text, new.as_slice(), old.as_slice(), "new");
    add_names(text, old.as_slice(), new.as_slice(), "gone");
}

// Adds how the answer to an ask changed.
fn add_answer(
    told: &Told<'_>,
    text: &mut Lines,
    ask: &Ask,
    line: &AnswerLine,
    now: &Answer,
    names: &Option<Blob>,
) {
    if let (AnswerLine::Names(_), Answer::Names(now)) = (line, now) {
        add_names_changed(told, text, ask, names, now);
        return;
    }
    text.path(&ask.path);
    if let (AnswerLine::Content(_), Answer::Content(_)) = (line, now) {
        text.add(" changed");
        add_maker(told, text, &ask.path);
        return;
    }
    text.add(" was ");
    text.add(line_words(line));
    text.add(", is ");
    text.add(answer_words(now));
    add_maker(told, text, &ask.path);
}

// Adds why a selector is not usable.
fn add_no_fit(told: &Told<'_>, text: &mut Lines, selector: &Selector, why: &NoFit) {
    match why {
        NoFit::NoPaths => {
            add_name(told, text, "the path set b/", &selector.paths);
            text.add(" is missing or damaged")
        }
        NoFit::Answered(ask, line, now, names) => add_answer(told, text, ask, line, now, names),
        NoFit::AnsweredOtherwise => {
            add_name(told, text, "the answers b/", &selector.strong);
            text.add(" are missing or damaged")
        }
        NoFit::NoEntry => {
            add_name(told, text, "the entry e/", &selector.strong);
            text.add(" is missing or damaged")
        }
        NoFit::OtherEntry => {
            add_name(told, text, "the entry e/", &selector.strong);
            text.add(" is of another process")
        }
        NoFit::NoOutput(output) => {
            text.add("the output ");
            text.path(&output.path);
            add_name(told, text, " in b/", &output.digest);
            text.add(" is missing or damaged")
        }
    }
}

// Adds why none of the selectors is usable, a line each.
fn add_no_fits(told: &Told<'_>, text: &mut Lines, selectors: &[Selector], why: &[NoFit]) {
    if why.is_empty() {
        text.add("  no result is stored for it\n");
        return;
    }
    'why: for (place, why) in why.iter().enumerate() {
        text.add("  ");
        if selectors.len() > 1 {
            let number = place.saturating_add(1);
            text.made(format!(in told.alloc; "stored result {number}: "));
        }
        if let Some(selector) = selectors.get(place) {
            add_no_fit(told, text, selector, why);
        }
        text.end_line();
    }
}

// Adds the lines of a miss.
fn add_miss(told: &Told<'_>, text: &mut Lines, miss: &Miss) {
    let number = miss.pip;
    text.made(format!(in told.alloc; "pip {number}"));
    let Some(pip) = told.plan.pips().get(number as usize) else {
        text.end_line();
        return;
    };
    if let Some(path) = first_output(&pip.kind) {
        text.byte(b' ');
        text.path(path);
    }
    text.end_line();
    match &miss.reason {
        Reason::NoList(None) => text.add("  nothing with its outputs is stored\n"),
        Reason::NoList(Some(near)) => {
            text.add("  no result for its description; the nearest stored one differs:\n");
            add_differences(told, text, &near.stored, &near.own)
        }
        Reason::BadList(weak) => {
            add_name(told, text, "  the selector list w/", weak);
            text.add(" is damaged\n")
        }
        Reason::NoneFits(selectors, why) => {
            add_no_fits(told, text, selectors.list(), why.list())
        }
    }
}

fn processes(plan: &Plan) -> usize {
    let mut count: usize = 0;
    'pips: for pip in plan.pips() {
        if matches!(pip.kind, PipKind::Process(_)) {
            count = count.saturating_add(1);
        }
    }
    count
}

/// The lines of all misses of a plan.
pub fn miss_lines(alloc: Global, plan: &Plan, misses: &[Miss]) -> Result<Vec<u8>, Memory> {
    let told = Told {
        alloc,
        plan,
        misses,
    };
    let mut text = Lines::new(alloc);
    'misses: for miss in misses {
        add_miss(&told, &mut text, miss);
    }
    let (count, all) = (misses.len(), processes(plan));
    text.made(format!(in alloc; "{count} of {all} processes would run\n"));
    text.end()
}
