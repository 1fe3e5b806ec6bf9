//! The section of each pip: its tool, arguments, inputs and outputs, what it waits for and what waits for it.

use crate::paging::{Page, add_outputs, class_of};
use crate::report::PipEnd;
use bx_tree::{FileInput, Memory, Path, Text};
use html_page::{Attr, Tag};
use pip_graph::kind_word;
use pip_model::{DirInput, EnvPair, Pip, PipKind, Plan, ProcessDesc, SealForm};
use std::alloc::Global;

// The pips that wait for each pip, by number.
fn waiting(alloc: Global, plan: &Plan) -> Result<Vec<Vec<usize>>, Memory> {
    let pips = plan.pips();
    let mut waiting = Vec::new(alloc);
    'pips: for _ in pips {
        waiting.push(Vec::new(alloc))?;
    }
    'numbers: for number in 0..pips.len() {
        add_waiting(&mut waiting, number, plan.inputs(number as u32))?;
    }
    Ok(waiting)
}

fn add_waiting(waiting: &mut [Vec<usize>], number: usize, inputs: &[u32]) -> Result<(), Memory> {
    'inputs: for input in inputs {
        if let Some(pips) = waiting.get_mut(*input as usize) {
            pips.push(number)?;
        }
    }
    Ok(())
}

// A line with a title and a text.
fn add_line(page: &mut Page, title: &str, bytes: &[u8]) {
    page.open(Tag::Paragraph);
    page.text(title.as_bytes());
    page.element(Tag::Code, bytes);
    page.close(Tag::Paragraph);
}

fn add_path(page: &mut Page, title: &str, path: &Path) {
    add_line(page, title, path.text().as_bytes());
}

fn add_args(page: &mut Page, args: &[Text]) {
    if args.is_empty() {
        return;
    }
    page.element(Tag::Paragraph, b"arguments");
    page.open(Tag::List);
    'args: for arg in args {
        page.open(Tag::Item);
        page.element(Tag::Code, arg.bytes());
        page.close(Tag::Item);
    }
    page.close(Tag::List);
}

fn add_variables(page: &mut Page, pairs: &[EnvPair]) {
    'pairs: for pair in pairs {
        page.open(Tag::Paragraph);
        page.text(b"variable ");
        page.element(Tag::Code, pair.name.bytes());
        page.text(b" is ");
        page.element(Tag::Code, pair.value.bytes());
        page.close(Tag::Paragraph);
    }
}

fn add_input(page: &mut Page, file: &FileInput) {
    page.open(Tag::Item);
    page.text(file.path().text().as_bytes());
    if let FileInput::Made(_, pip) = file {
        page.text(b", made by pip ");
        page.link(*pip as usize);
    }
    page.close(Tag::Item);
}

fn add_inputs(page: &mut Page, title: &[u8], files: &[FileInput]) {
    if files.is_empty() {
        return;
    }
    page.element(Tag::Paragraph, title);
    page.open(Tag::List);
    'files: for file in files {
        add_input(page, file);
    }
    page.close(Tag::List);
}

fn form_words(form: SealForm) -> &'static str {
    match form {
        SealForm::Full => ", the full seal of pip ",
        SealForm::Partial => ", the partial seal of pip ",
        SealForm::SourceTop => ", the seal of source files directly there, of pip ",
        SealForm::SourceAll => ", the seal of all source files there, of pip ",
    }
}

fn add_dir(page: &mut Page, dir: &DirInput) {
    page.open(Tag::Item);
    page.text(dir.path().text().as_bytes());
    page.text(b"/");
    match dir {
        DirInput::Sealed(_, form, _) => page.text(form_words(*form).as_bytes()),
        DirInput::Opaque(_, _) => page.text(b", an output of pip "),
    }
    page.link(dir.pip() as usize);
    page.close(Tag::Item);
}

fn add_dirs(page: &mut Page, dirs: &[DirInput]) {
    if dirs.is_empty() {
        return;
    }
    page.element(Tag::Paragraph, b"input directories");
    page.open(Tag::List);
    'dirs: for dir in dirs {
        add_dir(page, dir);
    }
    page.close(Tag::List);
}

fn add_process(page: &mut Page, process: &ProcessDesc) {
    add_path(page, "tool ", &process.exe);
    add_path(page, "working directory ", &process.dir);
    add_args(page, process.args.texts());
    add_variables(page, process.env.pairs());
    add_inputs(page, b"inputs", process.files.files());
    add_dirs(page, process.dirs.dirs());
}

// What a pip does.
fn add_kind(page: &mut Page, kind: &PipKind) {
    match kind {
        PipKind::Process(process) => add_process(page, process),
        PipKind::Copy(copy) => {
            page.element(Tag::Paragraph, b"copies");
            page.open(Tag::List);
            add_input(page, &copy.from);
            page.close(Tag::List)
        }
        PipKind::Write(write) => add_line(page, "text ", write.text.bytes()),
        PipKind::Seal(seal) => add_inputs(page, b"files", seal.listed()),
    }
}

fn add_links(page: &mut Page, title: &[u8], pips: &[usize]) {
    page.open(Tag::Paragraph);
    page.text(title);
    'pips: for pip in pips {
        page.text(b" ");
        page.link(*pip);
    }
    page.close(Tag::Paragraph);
}

// The numbers of pips for links.
fn numbers_of(alloc: Global, inputs: &[u32]) -> Result<Vec<usize>, Memory> {
    let mut numbers = Vec::new(alloc);
    'inputs: for input in inputs {
        numbers.push(*input as usize)?;
    }
    Ok(numbers)
}

fn add_section(
    alloc: Global,
    page: &mut Page,
    number: usize,
    pip: &Pip,
    ends: &[PipEnd],
    inputs: &[usize],
    waiting: &[usize],
) {
    let word = kind_word(&pip.kind);
    page.open_made(Tag::Section, Attr::Id, format!(in alloc; "p{number}"));
    page.open_with(Tag::Subheading, Attr::Class, class_of(ends, number));
    page.made(format!(in alloc; "pip {number}, {word}"));
    page.close(Tag::Subheading);
    if let Some(end) = ends.get(number) {
        page.element(Tag::Paragraph, &end.sentence);
    }
    add_path(page, "asked for in ", &pip.spec);
    add_kind(page, &pip.kind);
    page.element(Tag::Paragraph, b"outputs");
    add_outputs(page, &pip.kind);
    add_links(page, b"waits for", inputs);
    add_links(page, b"waited for by", waiting);
    page.close(Tag::Section);
}

/// Adds the section of each pip.
pub(crate) fn add_sections(
    alloc: Global,
    page: &mut Page,
    plan: &Plan,
    ends: &[PipEnd],
) -> Result<(), Memory> {
    let waiting = waiting(alloc, plan)?;
    let pips = plan.pips();
    'pips: for number in 0..pips.len() {
        let inputs = numbers_of(alloc, plan.inputs(number as u32))?;
        if let Some(users) = waiting.get(number) {
            add_section(
                alloc,
                page,
                number,
                &pips[number],
                ends,
                inputs.as_slice(),
                users,
            );
        }
    }
    Ok(())
}
