//! The faults of a text, line by line.
ghost use Rattle.std.specs.Prelude.{◌≡◌, ◌↔◌, ◌++◌, ◌∷◌, ◌||◌, [], ℕ, List, IfOk, OnOk, Some, filter, get_or, map, not};
ghost use Rattle.bx_tree.specs.Lent.{texts_now};
ghost use Rattle.tool_text.specs.Grammar.{IsTool, is_of_second as of_second, says as says_something};
ghost use Rattle.tool_text.specs.declared.tool.Instr.{Instr as AnyInstr};
ghost use Rattle.tool_text.specs.Reading.{label_of, place_of};
ghost use Rattle.tool_text.specs.Tables.{place_in};
ghost use Rattle.tool_faults.specs.Faults as faults;
ghost use Rattle.tool_faults.specs.declared.fault.Wrong.{Wrong as AnyWrong};

use crate::fault::{LineFault, Wrong};
use crate::first_places::first_places;
use crate::laws::wrong_exactly;
use crate::numbers::numbers_after;
use crate::operands::why_not_operands;
use bx_tree::{Memory, lines_of};
use std::alloc::{AllocError, Global};
use tool_text::{
    Instr, Table, ToolFault, cut, is_of_second, label_parts, line_of, op_of, skip_blanks, spoken,
    texts_of,
};

// What lines are judged by: their version, where each label is first, and their numbers.
#[derive(Drop)]
struct Measure {
    second: bool,
    table: Table,
    numbers: Vec<usize>,
}

// Why the words of a line are no instruction.
fn why_not_words(alloc: Global, table: &Table, words: &[u8]) -> Result<Wrong, Memory>
    ensures { IfOk result (λ wrong. wrong ≡ faults.why_not_words (place_in table.now) words.now) }
{
    let (word, rest) = cut(words, b' ');
    let Some(op) = op_of(word) else {
        return Ok(Wrong::NoInstruction);
    };
    let texts = texts_of(alloc, rest)?;
    why_not_operands(alloc, table, op, texts.as_slice())
}

// Why a line is no instruction.
fn why_not(alloc: Global, table: &Table, line: &[u8]) -> Result<Wrong, Memory>
    ensures { IfOk result (λ wrong. wrong ≡ faults.why_not (place_in table.now) line.now) }
{
    let (_, rest) = label_parts(line);
    why_not_words(alloc, table, skip_blanks(rest))
}

// Whether an instruction stands in tools of a version.
fn stands(second: bool, instr: &Instr) -> bool
    ensures { result ≡ (second || not (of_second instr.now)) }
{
    second || !is_of_second(instr)
}

// What is wrong with an instruction in a tool of a version.
fn of_version(second: bool, instr: &Instr) -> Option<Wrong>
    ensures { (why : AnyWrong) → result ≡ faults.read_wrong second why (Some instr.now) }
{
    if stands(second, instr) {
        None
    } else {
        Some(Wrong::OfSecond)
    }
}

// What is wrong with a line that is no instruction.
fn no_instr(alloc: Global, table: &Table, line: &[u8]) -> Result<Option<Wrong>, Memory>
    ensures { IfOk result (λ wrong. wrong ≡ Some (faults.why_not (place_in table.now) line.now)) }
{
    let wrong = why_not(alloc, table, line)?;
    Ok(Some(wrong))
}

// What is wrong with the instruction of a line.
fn instr_wrong(
    alloc: Global,
    second: bool,
    table: &Table,
    line: &[u8],
) -> Result<Option<Wrong>, Memory>
    ensures { IfOk result (λ wrong. wrong ≡ faults.instr_wrong second (place_in table.now) line.now) }
{
    match line_of(alloc, table, line) {
        Ok(instr) => Ok(of_version(second, &instr)),
        Err(ToolFault::BadTool) => no_instr(alloc, table, line),
        Err(ToolFault::Memory) => Err(AllocError),
    }
}

// The number of the line at a place.
fn number_at(numbers: &[usize], place: usize) -> usize
    ensures { result ≡ get_or numbers.now place 0 }
{
    match numbers.get(place) {
        Some(number) => *number,
        None => 0,
    }
}

// Where the first line with a line's label is, if it has one.
fn first_place(table: &Table, line: &[u8]) -> Option<usize>
    ensures { result ≡ faults.first_in (place_in table.now) (label_of line.now) }
{
    let (own, _) = label_parts(line);
    match own {
        Some(label) => table.by_label.get(label).copied(),
        None => None,
    }
}

// What is wrong with a label in the line at a place, where its first line is at this one.
fn taken(numbers: &[usize], place: usize, first: Option<usize>) -> Option<Wrong>
    ensures { result ≡ faults.taken numbers.now place first }
{
    let Some(first) = first else {
        return None;
    };
    if first == place {
        return None;
    }
    Some(Wrong::LabelTaken(number_at(numbers, first)))
}

// What is wrong with the label of a line.
fn label_wrong(measure: &Measure, place: usize, line: &[u8]) -> Option<Wrong>
    ensures { result ≡ faults.label_wrong (place_in measure.now.table) measure.now.numbers.items place line.now }
{
    taken(&measure.numbers, place, first_place(&measure.table, line))
}

fn add_fault(found: &mut Vec<LineFault>, line: usize, wrong: Option<Wrong>) -> Result<(), Memory>
    ensures { OnOk result (found.new.items ≡ found.old.items ++ faults.fault_at line wrong) }
{
    if let Some(wrong) = wrong {
        found.push(LineFault { line, wrong })?;
    }
    Ok(())
}

// Adds what is wrong in the line at a place.
fn add_line(
    alloc: Global,
    measure: &Measure,
    place: usize,
    line: &[u8],
    found: &mut Vec<LineFault>,
) -> Result<(), Memory>
    ensures { OnOk result (found.new.items ≡ found.old.items ++ faults.line_faults measure.now.second
        (place_in measure.now.table) measure.now.numbers.items place line.now) }
{
    let number = number_at(&measure.numbers, place);
    add_fault(found, number, label_wrong(measure, place, line))?;
    let wrong = instr_wrong(alloc, measure.second, &measure.table, line)?;
    add_fault(found, number, wrong)
}

// Adds what is wrong in lines that say something.
fn add_lines(
    alloc: Global,
    measure: &Measure,
    lines: &[&[u8]],
    found: &mut Vec<LineFault>,
) -> Result<(), Memory>
    requires { (q : List ℕ) → place_in measure.now.table q ≡ place_of (map label_of (texts_now lines.now)) q }
    ensures { OnOk result (found.new.items ≡ found.old.items
        ++ faults.faults_in measure.now.second measure.now.numbers.items (texts_now lines.now)) }
{
    'lines: for (place, line) in lines.iter().enumerate() {
        add_line(alloc, measure, place, line, found)?;
    }
    Ok(())
}

fn is_version(first: &[u8]) -> bool
    ensures { result ≡ faults.is_version first.now }
{
    first == b"tool 2".as_slice() || first == b"tool 1".as_slice()
}

fn version_wrong(first: &[u8]) -> Option<Wrong>
    ensures { result ≡ faults.version_wrong first.now }
{
    if is_version(first) {
        None
    } else {
        Some(Wrong::NoVersion)
    }
}

// What is wrong in the lines after the first one.
fn add_rest(
    alloc: Global,
    second: bool,
    rest: &[&[u8]],
    found: &mut Vec<LineFault>,
) -> Result<(), Memory>
    ensures { OnOk result (found.new.items ≡ found.old.items ++ faults.faults_in second
        (faults.numbers_from 2 (texts_now rest.now)) (filter says_something (texts_now rest.now))) }
{
    let kept = spoken(alloc, rest)?;
    let lines = kept.as_slice();
    let table = first_places(alloc, lines)?;
    let numbers = numbers_after(alloc, rest)?;
    let measure = Measure {
        second,
        table,
        numbers,
    };
    add_lines(alloc, &measure, lines, found)
}

// Whether the lines after a first line are judged as those of the second version.
fn is_second(first: &[u8]) -> bool
    ensures { result ≡ faults.is_second first.now }
{
    first != b"tool 1".as_slice()
}

// What is wrong in a first line and in the lines after it.
fn faults_after(alloc: Global, first: &[u8], rest: &[&[u8]]) -> Result<Vec<LineFault>, Memory>
    ensures { IfOk result (λ found. found.items
        ≡ faults.faults_of_lines (first.now ∷ texts_now rest.now)) }
{
    let mut found = Vec::new(alloc);
    add_fault(&mut found, 1, version_wrong(first))?;
    add_rest(alloc, is_second(first), rest, &mut found)?;
    Ok(found)
}

// What is wrong in a text without lines.
fn faults_of_none(alloc: Global) -> Result<Vec<LineFault>, Memory>
    ensures { IfOk result (λ found. found.items ≡ faults.faults_of_lines []) }
{
    let mut found = Vec::new(alloc);
    add_fault(&mut found, 1, Some(Wrong::NoVersion))?;
    Ok(found)
}

fn faults_in(alloc: Global, lines: &[&[u8]]) -> Result<Vec<LineFault>, Memory>
    ensures { IfOk result (λ found. found.items ≡ faults.faults_of_lines (texts_now lines.now)) }
{
    match lines.split_first() {
        Some((first, rest)) => faults_after(alloc, first, rest),
        None => faults_of_none(alloc),
    }
}

/// What is wrong in a text, by line: nothing exactly where the text is a tool.
pub fn find_faults(alloc: Global, text: &[u8]) -> Result<Vec<LineFault>, Memory>
    ensures faults { IfOk result (λ found. found.items ≡ faults.faults_of text.now) }
    ensures exact { IfOk result (λ found. (found.items ≡ []) ↔ ((tool : List AnyInstr) × IsTool text.now tool)) }
{
    wrong_exactly();
    let lines = lines_of(alloc, text)?;
    faults_in(alloc, lines.as_slice())
}
