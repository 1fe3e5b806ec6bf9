//! The tool that a text has.
ghost use Rattle.std.specs.Prelude.{◌≡◌, List, IfOk};
ghost use Rattle.std.specs.List.{list_any};
ghost use Rattle.tool_text.specs.declared.tool.Instr.{Instr as AnyInstr};
ghost use Rattle.tool_text.specs.declared.fault.ToolFault.TheVariants as tool_faults;
ghost use Rattle.tool_text.specs.Grammar.{IsTool, is_in_version as in_version, is_of_second as of_second};
ghost use Rattle.tool_text.specs.Reading.{ReadsTool, tool_after as tool_after_first, tool_from};
ghost use Rattle.tool_text.specs.Reading.{tool_in as tool_read, tool_of};
ghost use Rattle.bx_tree.specs.Lent.{texts_now};

use crate::fault::ToolFault;
use crate::instr::line_of;
use crate::labels::table_of;
use crate::lines::spoken;
use crate::tool::{Instr, Tool};
use bx_tree::lines_of;
use std::alloc::Global;

// The tool of lines that say something.
fn tool_in(alloc: Global, lines: &[&[u8]]) -> Result<Tool, ToolFault>
    ensures { ReadsTool result (tool_read (texts_now lines.now)) }
{
    let table = table_of(alloc, lines)?;
    let mut instrs = Vec::new(alloc);
    'lines: for line in lines {
        instrs.push(line_of(alloc, &table, line)?)?;
    }
    Ok(Tool::new(instrs))
}

/// Whether an instruction stands in tools of the second version alone.
pub fn is_of_second(instr: &Instr) -> bool
    ensures { result ≡ of_second instr.now }
{
    match instr {
        Instr::Match(_, _, _) => true,
        Instr::Set(_, _)
        | Instr::Cat(_, _, _)
        | Instr::Len(_, _)
        | Instr::Head(_, _, _)
        | Instr::Tail(_, _, _)
        | Instr::Split(_, _, _, _)
        | Instr::Arg(_, _, _)
        | Instr::Args(_)
        | Instr::Env(_, _, _)
        | Instr::Eq(_, _, _)
        | Instr::Jump(_)
        | Instr::Exit(_)
        | Instr::Say(_)
        | Instr::Read(_, _, _)
        | Instr::Probe(_, _)
        | Instr::List(_, _)
        | Instr::Write(_, _) => false,
    }
}

fn has_second(instrs: &[Instr]) -> bool
    ensures { result ≡ list_any of_second instrs.now }
{
    instrs.iter().any(|instr| is_of_second(instr))
}

// Whether all instructions of a tool stand in a version.
fn is_in_version(second: bool, tool: &Tool) -> bool
    ensures { result ≡ in_version second tool.now }
{
    second || !has_second(tool.lines())
}

// The tool of a version that the lines after the first have.
fn tool_after(alloc: Global, second: bool, rest: &[&[u8]]) -> Result<Tool, ToolFault>
    ensures { ReadsTool result (tool_after_first second (texts_now rest.now)) }
{
    let lines = spoken(alloc, rest)?;
    let tool = tool_in(alloc, lines.as_slice())?;
    if !is_in_version(second, &tool) {
        return Err(ToolFault::BadTool);
    }
    Ok(tool)
}

fn tool_of_lines(alloc: Global, lines: &[&[u8]]) -> Result<Tool, ToolFault>
    ensures { ReadsTool result (tool_from (texts_now lines.now)) }
{
    let Some((first, rest)) = lines.split_first() else {
        return Err(ToolFault::BadTool);
    };
    if *first == b"tool 2".as_slice() {
        return tool_after(alloc, true, rest);
    }
    if *first == b"tool 1".as_slice() {
        return tool_after(alloc, false, rest);
    }
    Err(ToolFault::BadTool)
}

/// Reads the text of a tool.
pub fn read_tool(alloc: Global, bytes: &[u8]) -> Result<Tool, ToolFault>
    ensures found { IfOk result (λ tool. IsTool bytes.now tool) }
    ensures none { result ≡ Err tool_faults.BadTool → (tool : List AnyInstr) → IsTool bytes.now tool → ⊥ }
    ensures read { ReadsTool result (tool_of bytes.now) }
{
    let lines = lines_of(alloc, bytes)?;
    tool_of_lines(alloc, lines.as_slice())
}
