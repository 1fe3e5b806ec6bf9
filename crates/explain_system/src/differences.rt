//! How two descriptions of processes differ, in lines.

use crate::misses::{Told, add_maker};
use crate::shown::Lines;
use bx_digest::Digest;
use bx_tree::{FileInput, Path, Text};
use pip_model::{DirInput, EnvPair, OutDir, ProcessDesc, SealForm};
use prints::WeakParts;

const INDENT: &str = "    ";

// Adds that a path was one and is another.
fn add_paths(text: &mut Lines, words: &str, was: &Path, is: &Path) {
    text.add(INDENT);
    text.add(words);
    text.add(" was ");
    text.path(was);
    text.add(", is ");
    text.path(is);
    text.end_line();
}

// Adds how what stands once differs: tool, working directory, budget. The console file is one of the outputs, which are the same.
fn add_heads(told: &Told<'_>, text: &mut Lines, was: &WeakParts, is: &WeakParts) {
    if !was.process.exe.is_same(&is.process.exe) {
        add_paths(text, "tool", &was.process.exe, &is.process.exe);
    } else if was.exe != is.exe {
        text.add(INDENT);
        text.add("tool ");
        text.path(&is.process.exe);
        text.add(" changed\n");
    }
    if !was.process.dir.is_same(&is.process.dir) {
        add_paths(text, "working directory", &was.process.dir, &is.process.dir);
    }
    if was.budget != is.budget {
        let (old, new) = (was.budget, is.budget);
        text.made(format!(in told.alloc; "{INDENT}tool budget was {old}, is {new}\n"));
    }
}

// Adds that a text under a name was one and is another, is new, or is gone.
fn add_change(text: &mut Lines, was: Option<&Text>, is: Option<&Text>) {
    match (was, is) {
        (Some(was), Some(is)) => {
            text.add(" was ");
            text.quoted(was.bytes());
            text.add(", is ");
            text.quoted(is.bytes());
        }
        (None, Some(is)) => {
            text.add(" is new: ");
            text.quoted(is.bytes());
        }
        (Some(was), None) => {
            text.add(" is gone: ");
            text.quoted(was.bytes());
        }
        (None, None) => (),
    }
    text.end_line();
}

fn same_text(was: Option<&Text>, is: Option<&Text>) -> bool {
    match (was, is) {
        (Some(was), Some(is)) => was.bytes() == is.bytes(),
        _ => false,
    }
}

fn add_args(told: &Told<'_>, text: &mut Lines, was: &[Text], is: &[Text]) {
    'args: for place in 0..was.len().max(is.len()) {
        if !same_text(was.get(place), is.get(place)) {
            let number = place.saturating_add(1);
            text.made(format!(in told.alloc; "{INDENT}argument {number}"));
            add_change(text, was.get(place), is.get(place));
        }
    }
}

fn value_of<'a>(pairs: &'a [EnvPair], name: &Text) -> Option<&'a Text> {
    'pairs: for pair in pairs {
        if pair.name.bytes() == name.bytes() {
            return Some(&pair.value);
        }
    }
    None
}

fn add_variable(text: &mut Lines, name: &Text, was: Option<&Text>, is: Option<&Text>) {
    text.add(INDENT);
    text.add("variable ");
    text.shown(name.bytes());
    add_change(text, was, is);
}

fn add_variables(text: &mut Lines, was: &[EnvPair], is: &[EnvPair]) {
    'now: for pair in is {
        let old = value_of(was, &pair.name);
        if !same_text(old, Some(&pair.value)) {
            add_variable(text, &pair.name, old, Some(&pair.value));
        }
    }
}

fn add_gone_variables(text: &mut Lines, was: &[EnvPair], is: &[EnvPair]) {
    'before: for pair in was {
        if value_of(is, &pair.name).is_none() {
            add_variable(text, &pair.name, Some(&pair.value), None);
        }
    }
}

// The digest of a declared file, by its path.
fn digest_of<'a>(parts: &'a WeakParts, path: &Path) -> Option<&'a Digest> {
    let files = parts.process.files.files();
    match files.binary_search_by(|file| file.path().cmp(path)) {
        Ok(place) => parts.files.digests().get(place),
        Err(_) => None,
    }
}

fn add_input(told: &Told<'_>, text: &mut Lines, path: &Path, words: &str) {
    text.add(INDENT);
    text.add("input ");
    text.path(path);
    text.add(words);
    add_maker(told, text, path);
    text.end_line();
}

// What became of an input that had the first digest, if it was one, and has the second.
fn change_of(old: Option<&Digest>, new: Option<&Digest>) -> Option<&'static str> {
    let Some(old) = old else {
        return Some(" is new");
    };
    match new {
        Some(new) => if old == new { None } else { Some(" changed") },
        None => None,
    }
}

fn add_inputs(told: &Told<'_>, text: &mut Lines, was: &WeakParts, is: &WeakParts) {
    'files: for file in is.process.files.files() {
        let path = file.path();
        if let Some(words) = change_of(digest_of(was, path), digest_of(is, path)) {
            add_input(told, text, path, words);
        }
    }
}

fn add_gone_inputs(told: &Told<'_>, text: &mut Lines, was: &[FileInput], is: &WeakParts) {
    'files: for file in was {
        if digest_of(is, file.path()).is_none() {
            add_input(told, text, file.path(), " is gone");
        }
    }
}

fn form_word(dir: &DirInput) -> &'static str {
    match dir {
        DirInput::Sealed(_, SealForm::Full, _) => "full ",
        DirInput::Sealed(_, SealForm::Partial, _) => "partial ",
        DirInput::Sealed(_, SealForm::SourceTop, _) => "source-top ",
        DirInput::Sealed(_, SealForm::SourceAll, _) => "source-all ",
        DirInput::Opaque(_, _) => "opaque ",
    }
}

fn has_dir(dirs: &[DirInput], dir: &DirInput) -> bool {
    'dirs: for other in dirs {
        if other.rank() == dir.rank() && other.path().is_same(dir.path()) {
            return true;
        }
    }
    false
}

// Adds the directories of a description that another lacks.
fn add_dirs(text: &mut Lines, dirs: &[DirInput], others: &[DirInput], words: &str) {
    'dirs: for dir in dirs {
        if !has_dir(others, dir) {
            text.add(INDENT);
            text.add("input directory ");
            text.add(form_word(dir));
            text.path(dir.path());
            text.add(words);
        }
    }
}

fn sharing_word(dir: &OutDir) -> &'static str {
    if dir.shared { "shared" } else { "exclusive" }
}

// Adds which output directories, of the same paths, are shared now, or no more.
fn add_sharing(text: &mut Lines, was: &[OutDir], is: &[OutDir]) {
    'dirs: for (old, new) in was.iter().zip(is) {
        if old.shared != new.shared {
            text.add(INDENT);
            text.add("output directory ");
            text.path(&new.path);
            text.add(" was ");
            text.add(sharing_word(old));
            text.add(", is ");
            text.add(sharing_word(new));
            text.end_line();
        }
    }
}

fn add_lists(text: &mut Lines, was: &ProcessDesc, is: &ProcessDesc) {
    add_variables(text, was.env.pairs(), is.env.pairs());
    add_gone_variables(text, was.env.pairs(), is.env.pairs());
    add_dirs(text, is.dirs.dirs(), was.dirs.dirs(), " is new\n");
    add_dirs(text, was.dirs.dirs(), is.dirs.dirs(), " is gone\n");
    add_sharing(text, was.outdirs.dirs(), is.outdirs.dirs());
}

/// Adds how the description that was stored differs from the one that is looked for.
pub(crate) fn add_differences(told: &Told<'_>, text: &mut Lines, was: &WeakParts, is: &WeakParts) {
    add_heads(told, text, was, is);
    add_args(
        told,
        text,
        was.process.args.texts(),
        is.process.args.texts(),
    );
    add_inputs(told, text, was, is);
    add_gone_inputs(told, text, was.process.files.files(), is);
    add_lists(text, &was.process, &is.process);
}
