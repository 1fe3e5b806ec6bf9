//! What is wrong in a tool, and what its lines do, in words.

use crate::shown::Lines;
use bx_tree::{Memory, lines_of};
use std::alloc::Global;
use tool_faults::{LineFault, OperandKind, Wrong};
use tool_text::{Instr, Operand, Register, Tool};

fn kind_words(kind: OperandKind) -> &'static str {
    match kind {
        OperandKind::Register => "no register",
        OperandKind::Value => "no value",
        OperandKind::Label => "the label of no line",
        OperandKind::Code => "no exit code",
    }
}

fn wrong_words(alloc: Global, wrong: Wrong) -> Result<String, Memory> {
    match wrong {
        Wrong::NoVersion => String::from_str(alloc, "neither \"tool 1\" nor \"tool 2\""),
        Wrong::LabelTaken(line) => format!(in alloc; "its label is that of line {line}"),
        Wrong::NoInstruction => String::from_str(alloc, "no instruction"),
        Wrong::Count(1) => String::from_str(alloc, "it takes 1 operand"),
        Wrong::Count(count) => format!(in alloc; "it takes {count} operands"),
        Wrong::Operand(number, kind) => {
            let what = kind_words(kind);
            format!(in alloc; "operand {number} is {what}")
        }
        Wrong::OfSecond => String::from_str(alloc, "only in \"tool 2\""),
    }
}

// A line with this number, without the spaces that make its lines of one width.
fn add_fault(alloc: Global, text: &mut Lines, lines: &[&[u8]], fault: LineFault) {
    let number = fault.line;
    text.made(format!(in alloc; "line {number}: "));
    text.made(wrong_words(alloc, fault.wrong));
    text.add(": ");
    if let Some(line) = lines.get(number.saturating_sub(1)) {
        text.shown(line);
    }
    text.end_line();
}

/// A line for each fault of a tool's text.
pub fn fault_lines(alloc: Global, tool: &[u8], faults: &[LineFault]) -> Result<Vec<u8>, Memory> {
    let lines = lines_of(alloc, tool)?;
    let mut text = Lines::new(alloc);
    'faults: for fault in faults {
        add_fault(alloc, &mut text, lines.as_slice(), *fault);
    }
    text.end()
}

fn add_register(alloc: Global, text: &mut Lines, register: Register) {
    let number = register.number();
    text.made(format!(in alloc; "r{number}"));
}

// A byte of a string as a tool spells it.
fn add_spelled(text: &mut Lines, byte: u8) {
    match byte {
        b'\n' => text.add("\\n"),
        b'\t' => text.add("\\t"),
        b'"' => text.add("\\\""),
        b'\\' => text.add("\\\\"),
        _ => text.shown(&[byte]),
    }
}

fn add_string(text: &mut Lines, bytes: &[u8]) {
    text.byte(b'"');
    'bytes: for byte in bytes {
        add_spelled(text, *byte);
    }
    text.byte(b'"');
}

fn add_operand(alloc: Global, text: &mut Lines, operand: &Operand) {
    match operand {
        Operand::Register(register) => add_register(alloc, text, *register),
        Operand::Constant(bytes) => add_string(text, bytes.bytes()),
    }
}

// Adds words, an operand, more words, and a register.
fn add_use(alloc: Global, text: &mut Lines, words: &str, path: &Operand, register: Register) {
    text.add(words);
    add_operand(alloc, text, path);
    text.add(" into ");
    add_register(alloc, text, register);
}

// Adds what an instruction does to files.
fn add_instr(alloc: Global, text: &mut Lines, instr: &Instr) {
    match instr {
        Instr::Read(r, path, _) => add_use(alloc, text, "reads the file at ", path, *r),
        Instr::Probe(r, path) => add_use(alloc, text, "probes ", path, *r),
        Instr::List(r, path) => add_use(alloc, text, "lists ", path, *r),
        Instr::Match(r, path, pattern) => {
            text.add("lists the names that match ");
            add_operand(alloc, text, pattern);
            add_use(alloc, text, " in ", path, *r)
        }
        Instr::Write(path, value) => {
            text.add("writes ");
            add_operand(alloc, text, value);
            text.add(" to the file at ");
            add_operand(alloc, text, path)
        }
        _ => (),
    }
}

fn has_file(instr: &Instr) -> bool {
    matches!(
        instr,
        Instr::Read(_, _, _)
            | Instr::Probe(_, _)
            | Instr::List(_, _)
            | Instr::Match(_, _, _)
            | Instr::Write(_, _)
    )
}

/// A line for each instruction of a tool that reads, probes, lists or writes. The numbers are those of the lines of its
/// instructions.
pub fn use_lines(alloc: Global, tool: &Tool, numbers: &[usize]) -> Result<Vec<u8>, Memory> {
    let mut text = Lines::new(alloc);
    'instrs: for (place, instr) in tool.lines().iter().enumerate() {
        if has_file(instr) {
            let number = numbers.get(place).copied().unwrap_or(0);
            text.made(format!(in alloc; "line {number}: "));
            add_instr(alloc, &mut text, instr);
            text.end_line();
        }
    }
    text.end()
}
