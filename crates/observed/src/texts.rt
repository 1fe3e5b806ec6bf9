//! The text of a path set, written and read.
ghost use Rattle.std.specs.Prelude.{◌≡◌, ◌++◌, IfOk, MatchOption, None, OnOk, Some, codes};
ghost use Rattle.std.specs.List.{AllByRecursion};
ghost use Rattle.std.specs.Option.{option_copied};
ghost use Rattle.std.specs.Ordering.{is_lt};
ghost use Rattle.observed.specs.Asks.{ask_cmp};
ghost use Rattle.observed.specs.PathSets.{IsAsk, IsKind};
ghost use Rattle.observed.specs.Texts.{ReadsAsks, ReadsPathSet, after_prefix, all_asks as all_named};
ghost use Rattle.observed.specs.Texts.{ask_at as ask_of_kind, ask_line, first_line, has_match as some_match};
ghost use Rattle.observed.specs.Texts.{blank_parts as parts_of, is_rising as rises};
ghost use Rattle.observed.specs.Texts.{is_version as is_own_version, kind_text, match_at};
ghost use Rattle.observed.specs.Texts.{match_by as match_of_parts, named_ask};
ghost use Rattle.observed.specs.Texts.{named_asks, named_path, paths_text, read_lines, read_paths_text};
ghost use Rattle.observed.specs.Texts.{set_of_lines as set_after};
ghost use Rattle.bx_tree.specs.Lent.{texts_now};

use crate::ask::{Ask, AskKind};
use crate::path_set::SetFault;
use bx_path::Pattern;
use bx_tree::{Path, PathFault, lines_of, split_once};
use std::alloc::{AllocError, Global};

// Adds the word of a kind, and the pattern where there is one.
fn append_kind(text: &mut Vec<u8>, kind: &AskKind) -> Result<(), AllocError>
    ensures text { OnOk result (text.new.items ≡ text.old.items ++ kind_text kind.now) }
    ensures kind { OnOk result (IsKind kind.now) }
{
    match kind {
        AskKind::Read => text.extend_from_slice(b"read"),
        AskKind::Probe => text.extend_from_slice(b"probe"),
        AskKind::List => text.extend_from_slice(b"list"),
        AskKind::Match(pattern) => {
            text.extend_from_slice(b"match ")?;
            text.extend_from_slice(pattern.text())
        }
    }
}

// Adds the line of an ask.
fn append_ask(text: &mut Vec<u8>, ask: &Ask) -> Result<(), AllocError>
    ensures text { OnOk result (text.new.items ≡ text.old.items ++ ask_line ask.now) }
    ensures ask { OnOk result (IsAsk ask.now) }
{
    let path = ask.path.text();
    append_kind(text, &ask.kind)?;
    text.push(b' ')?;
    text.extend_from_slice(path.as_bytes())?;
    text.push(b'\n')?;
    Ok(())
}

// Whether a listing by a pattern is among asks.
pub(crate) fn has_match(asks: &[Ask]) -> bool
    ensures { result ≡ some_match asks.now }
{
    asks.iter().any(|ask| ask.kind.has_pattern())
}

// The first line of a path set of a version, with its newline.
fn head_of(second: bool) -> &'static [u8]
    ensures { result.now ≡ first_line second ++ codes "\n" }
{
    if second {
        b"paths 2\n".as_slice()
    } else {
        b"paths 1\n".as_slice()
    }
}

// The text of asks: a first line, and a line for each.
pub(crate) fn text_of(alloc: Global, asks: &[Ask]) -> Result<Vec<u8>, AllocError>
    ensures text { IfOk result (λ text. text.items ≡ paths_text asks.now) }
    ensures asks { OnOk result (AllByRecursion IsAsk asks.now) }
{
    let mut text = Vec::from_slice(alloc, head_of(has_match(asks)))?;
    'asks: for ask in asks {
        append_ask(&mut text, ask)?;
    }
    Ok(text)
}

// The path that a text stands for, the root for `.`.
fn path_of(alloc: Global, text: &[u8]) -> Result<Path, SetFault>
    ensures { ReadsPathSet result (named_path text.now) }
{
    if text == b".".as_slice() {
        return Ok(Path::root(alloc)?);
    }
    match Path::read(alloc, text) {
        Ok(path) => Ok(path),
        Err(PathFault::BadPath) => Err(SetFault::BadSet),
        Err(PathFault::Memory) => Err(SetFault::Memory),
    }
}

fn ask_at(alloc: Global, kind: AskKind, text: &[u8]) -> Result<Ask, SetFault>
    ensures { ReadsPathSet result (ask_of_kind kind (named_path text.now)) }
{
    let path = path_of(alloc, text)?;
    Ok(Ask { kind, path })
}

// What follows a prefix of a line, if the line begins with it.
fn after<'a>(prefix: &[u8], line: &'a [u8]) -> Option<&'a [u8]>
    ensures { option_copied result ≡ after_prefix prefix.now line.entry.now }
{
    line.strip_prefix(prefix)
}

// The parts of a text before and after its first blank.
fn blank_parts(text: &[u8]) -> Option<(&[u8], &[u8])>
    ensures { MatchOption result
        (parts_of text.now ≡ None)
        (λ parts. parts_of text.now ≡ Some (parts.0.now, parts.1.now)) }
{
    split_once(text, b' ')
}

// A listing by a pattern.
fn match_by(alloc: Global, pattern: &[u8], path: &[u8]) -> Result<Ask, SetFault>
    ensures { ReadsPathSet result (match_of_parts (Some (pattern.now, path.now))) }
{
    match Pattern::of(alloc, pattern)? {
        Some(pattern) => ask_at(alloc, AskKind::Match(pattern), path),
        None => Err(SetFault::BadSet),
    }
}

// The listing by the pattern that a text has before its first blank.
fn match_of(alloc: Global, text: &[u8]) -> Result<Ask, SetFault>
    ensures { ReadsPathSet result (match_at text.now) }
{
    match blank_parts(text) {
        Some((pattern, path)) => match_by(alloc, pattern, path),
        None => Err(SetFault::BadSet),
    }
}

fn ask_of(alloc: Global, line: &[u8]) -> Result<Ask, SetFault>
    ensures { ReadsPathSet result (named_ask line.now) }
{
    if let Some(path) = after(b"read ", line) {
        return ask_at(alloc, AskKind::Read, path);
    }
    if let Some(path) = after(b"probe ", line) {
        return ask_at(alloc, AskKind::Probe, path);
    }
    if let Some(path) = after(b"list ", line) {
        return ask_at(alloc, AskKind::List, path);
    }
    if let Some(text) = after(b"match ", line) {
        return match_of(alloc, text);
    }
    Err(SetFault::BadSet)
}

fn all_asks(alloc: Global, lines: &[&[u8]]) -> Result<Vec<Ask>, SetFault>
    ensures { ReadsAsks result (all_named (texts_now lines.now)) }
{
    let mut asks = Vec::new(alloc);
    'lines: for line in lines {
        asks.push(ask_of(alloc, line)?)?;
    }
    Ok(asks)
}

// The asks of lines, after which nothing may follow.
fn asks_of(alloc: Global, lines: &[&[u8]]) -> Result<Vec<Ask>, SetFault>
    ensures { ReadsAsks result (named_asks (texts_now lines.now)) }
{
    let Some((last, rest)) = lines.split_last() else {
        return Err(SetFault::BadSet);
    };
    if !last.is_empty() {
        return Err(SetFault::BadSet);
    }
    all_asks(alloc, rest)
}

// Whether an ask comes before another.
fn comes_before(a: &Ask, b: &Ask) -> bool
    ensures { result ≡ is_lt (ask_cmp a.now b.now) }
{
    a.cmp(b).is_lt()
}

// Whether asks strictly rise.
fn is_rising(asks: &[Ask]) -> bool
    ensures { result ≡ rises asks.now }
{
    let mut rest = asks;
    'asks: while let Some((first, more)) = rest.split_first() {
        let Some((second, _)) = more.split_first() else {
            return true;
        };
        if !comes_before(first, second) {
            return false;
        }
        rest = more;
    }
    true
}

// Whether a version is that of asks.
fn is_version(second: bool, asks: &[Ask]) -> bool
    ensures { result ≡ is_own_version second asks.now }
{
    if second {
        has_match(asks)
    } else {
        !has_match(asks)
    }
}

// The asks of the lines after the first of a path set of a version.
fn set_of_lines(alloc: Global, second: bool, lines: &[&[u8]]) -> Result<Vec<Ask>, SetFault>
    ensures { ReadsAsks result (set_after second (texts_now lines.now)) }
{
    let asks = asks_of(alloc, lines)?;
    if !is_rising(asks.as_slice()) || !is_version(second, asks.as_slice()) {
        return Err(SetFault::BadSet);
    }
    Ok(asks)
}

fn set_in(alloc: Global, lines: &[&[u8]]) -> Result<Vec<Ask>, SetFault>
    ensures { ReadsAsks result (read_lines (texts_now lines.now)) }
{
    let Some((first, rest)) = lines.split_first() else {
        return Err(SetFault::BadSet);
    };
    if *first == b"paths 2".as_slice() {
        return set_of_lines(alloc, true, rest);
    }
    if *first == b"paths 1".as_slice() {
        return set_of_lines(alloc, false, rest);
    }
    Err(SetFault::BadSet)
}

// The asks of a text.
pub(crate) fn asks_in(alloc: Global, text: &[u8]) -> Result<Vec<Ask>, SetFault>
    ensures { ReadsAsks result (read_paths_text text.now) }
{
    let lines = lines_of(alloc, text)?;
    set_in(alloc, lines.as_slice())
}
