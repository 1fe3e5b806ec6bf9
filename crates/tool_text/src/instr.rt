//! Instructions with their operands.
ghost use Rattle.std.specs.Prelude.{◌≡◌, Some, None, MatchResult};
ghost use Rattle.tool_text.specs.Tables.{place_in};
ghost use Rattle.tool_text.specs.Reading.{ReadsTool, instr_in as instr_read, instr_of as instr_made};
ghost use Rattle.tool_text.specs.Reading.{line_of as line_read, full_listing as full_listing_read};
ghost use Rattle.tool_text.specs.Reading.{matching_listing as matching_listing_read, listing_of as listing_read};
ghost use Rattle.tool_text.specs.Reading.{lone as one_of, pair as two_of};
ghost use Rattle.tool_text.specs.Reading.{quadruple as four_of, register_operand as register_operand_read};
ghost use Rattle.tool_text.specs.Reading.{register_target as register_target_read};
ghost use Rattle.tool_text.specs.Reading.{register_two as register_two_read, split_of as split_read};
ghost use Rattle.tool_text.specs.Reading.{triple as three_of, two_operands as two_operands_read};
ghost use Rattle.tool_text.specs.Reading.{two_target as two_target_read};
ghost use Rattle.bx_tree.specs.Lent.{texts_now};

use crate::fault::ToolFault;
use crate::labels::Table;
use crate::lines::{cut, label_parts, skip_blanks};
use crate::op::{Op, op_of};
use crate::operands::{code_of, operand_of, register_of};
use crate::separating::texts_of;
use crate::tool::{Instr, Operand, Register};
use std::alloc::Global;

fn lone<'a>(texts: &[&'a [u8]]) -> Result<&'a [u8], ToolFault>
    ensures { MatchResult result
        (λ text. one_of (texts_now texts.now) ≡ Some text.now)
        (λ _. one_of (texts_now texts.now) ≡ None) }
{
    if texts.len() != 1 {
        return Err(ToolFault::BadTool);
    }
    Ok(texts[0])
}

fn pair<'a>(texts: &[&'a [u8]]) -> Result<(&'a [u8], &'a [u8]), ToolFault>
    ensures { MatchResult result
        (λ p. two_of (texts_now texts.now) ≡ Some (p.0.now, p.1.now))
        (λ _. two_of (texts_now texts.now) ≡ None) }
{
    if texts.len() != 2 {
        return Err(ToolFault::BadTool);
    }
    Ok((texts[0], texts[1]))
}

fn triple<'a>(texts: &[&'a [u8]]) -> Result<(&'a [u8], &'a [u8], &'a [u8]), ToolFault>
    ensures { MatchResult result
        (λ p. three_of (texts_now texts.now) ≡ Some (p.0.now, p.1.now, p.2.now))
        (λ _. three_of (texts_now texts.now) ≡ None) }
{
    if texts.len() != 3 {
        return Err(ToolFault::BadTool);
    }
    Ok((texts[0], texts[1], texts[2]))
}

fn register_operand(alloc: Global, texts: &[&[u8]]) -> Result<(Register, Operand), ToolFault>
    ensures { ReadsTool result (register_operand_read (texts_now texts.now)) }
{
    let (r, x) = pair(texts)?;
    Ok((register_of(r)?, operand_of(alloc, x)?))
}

fn two_operands(alloc: Global, texts: &[&[u8]]) -> Result<(Operand, Operand), ToolFault>
    ensures { ReadsTool result (two_operands_read (texts_now texts.now)) }
{
    let (x, y) = pair(texts)?;
    Ok((operand_of(alloc, x)?, operand_of(alloc, y)?))
}

fn register_two(alloc: Global, texts: &[&[u8]]) -> Result<(Register, Operand, Operand), ToolFault>
    ensures { ReadsTool result (register_two_read (texts_now texts.now)) }
{
    let (r, x, y) = triple(texts)?;
    Ok((
        register_of(r)?,
        operand_of(alloc, x)?,
        operand_of(alloc, y)?,
    ))
}

fn register_target(
    alloc: Global,
    table: &Table,
    texts: &[&[u8]],
) -> Result<(Register, Operand, usize), ToolFault>
    ensures { ReadsTool result (register_target_read (place_in table.now) (texts_now texts.now)) }
{
    let (r, x, label) = triple(texts)?;
    Ok((register_of(r)?, operand_of(alloc, x)?, table.find(label)?))
}

fn two_target(
    alloc: Global,
    table: &Table,
    texts: &[&[u8]],
) -> Result<(Operand, Operand, usize), ToolFault>
    ensures { ReadsTool result (two_target_read (place_in table.now) (texts_now texts.now)) }
{
    let (x, y, label) = triple(texts)?;
    Ok((
        operand_of(alloc, x)?,
        operand_of(alloc, y)?,
        table.find(label)?,
    ))
}

type Four<'a> = (&'a [u8], &'a [u8], &'a [u8], &'a [u8]);

fn quadruple<'a>(texts: &[&'a [u8]]) -> Result<Four<'a>, ToolFault>
    ensures { MatchResult result
        (λ p. four_of (texts_now texts.now) ≡ Some (p.0.now, p.1.now, p.2.now, p.3.now))
        (λ _. four_of (texts_now texts.now) ≡ None) }
{
    if texts.len() != 4 {
        return Err(ToolFault::BadTool);
    }
    Ok((texts[0], texts[1], texts[2], texts[3]))
}

fn split(alloc: Global, texts: &[&[u8]]) -> Result<Instr, ToolFault>
    ensures { ReadsTool result (split_read (texts_now texts.now)) }
{
    let (r, s, x, y) = quadruple(texts)?;
    let r = register_of(r)?;
    let s = register_of(s)?;
    let x = operand_of(alloc, x)?;
    let y = operand_of(alloc, y)?;
    Ok(Instr::Split(r, s, x, y))
}

// A listing of all names.
fn full_listing(alloc: Global, texts: &[&[u8]]) -> Result<Instr, ToolFault>
    ensures { ReadsTool result (full_listing_read (texts_now texts.now)) }
{
    let (r, x) = register_operand(alloc, texts)?;
    Ok(Instr::List(r, x))
}

// A listing of the names that a pattern matches.
fn matching_listing(alloc: Global, texts: &[&[u8]]) -> Result<Instr, ToolFault>
    ensures { ReadsTool result (matching_listing_read (texts_now texts.now)) }
{
    let (r, x, y) = register_two(alloc, texts)?;
    Ok(Instr::Match(r, x, y))
}

// A listing: with a third operand it is one by a pattern.
fn listing(alloc: Global, texts: &[&[u8]]) -> Result<Instr, ToolFault>
    ensures { ReadsTool result (listing_read (texts_now texts.now)) }
{
    if texts.len() == 3 {
        return matching_listing(alloc, texts);
    }
    full_listing(alloc, texts)
}

fn instr_of(alloc: Global, table: &Table, op: Op, texts: &[&[u8]]) -> Result<Instr, ToolFault>
    ensures { ReadsTool result (instr_made (place_in table.now) op (texts_now texts.now)) }
{
    match op {
        Op::Set | Op::Len | Op::Probe => {
            let (r, x) = register_operand(alloc, texts)?;
            Ok(match op {
                Op::Set => Instr::Set(r, x),
                Op::Len => Instr::Len(r, x),
                _ => Instr::Probe(r, x),
            })
        }
        Op::List => listing(alloc, texts),
        Op::Cat | Op::Head | Op::Tail => {
            let (r, x, y) = register_two(alloc, texts)?;
            Ok(match op {
                Op::Cat => Instr::Cat(r, x, y),
                Op::Head => Instr::Head(r, x, y),
                _ => Instr::Tail(r, x, y),
            })
        }
        Op::Arg | Op::Env | Op::Read => {
            let (r, x, label) = register_target(alloc, table, texts)?;
            Ok(match op {
                Op::Arg => Instr::Arg(r, x, label),
                Op::Env => Instr::Env(r, x, label),
                _ => Instr::Read(r, x, label),
            })
        }
        Op::Split => split(alloc, texts),
        Op::Args => Ok(Instr::Args(register_of(lone(texts)?)?)),
        Op::Eq => {
            let (x, y, label) = two_target(alloc, table, texts)?;
            Ok(Instr::Eq(x, y, label))
        }
        Op::Jump => Ok(Instr::Jump(table.find(lone(texts)?)?)),
        Op::Exit => Ok(Instr::Exit(code_of(lone(texts)?)?)),
        Op::Say => Ok(Instr::Say(operand_of(alloc, lone(texts)?)?)),
        Op::Write => {
            let (x, y) = two_operands(alloc, texts)?;
            Ok(Instr::Write(x, y))
        }
    }
}

// The instruction that a text is, after its blanks.
fn instr_in(alloc: Global, table: &Table, text: &[u8]) -> Result<Instr, ToolFault>
    ensures { ReadsTool result (instr_read (place_in table.now) text.now) }
{
    let (word, rest) = cut(text, b' ');
    let Some(op) = op_of(word) else {
        return Err(ToolFault::BadTool);
    };
    let texts = texts_of(alloc, rest)?;
    instr_of(alloc, table, op, texts.as_slice())
}

/// The instruction of a line, by the places of the labels.
pub fn line_of(alloc: Global, table: &Table, line: &[u8]) -> Result<Instr, ToolFault>
    ensures { ReadsTool result (line_read (place_in table.now) line.now) }
{
    let (_, rest) = label_parts(line);
    instr_in(alloc, table, skip_blanks(rest))
}
