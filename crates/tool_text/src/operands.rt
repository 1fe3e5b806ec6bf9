//! The operands of instructions.
ghost use Rattle.std.specs.Prelude.{◌≡◌, Some};
ghost use Rattle.tool_text.specs.Reading.{ReadsTool, code_of as code_read, escape_of as escape};
ghost use Rattle.tool_text.specs.Reading.{numbered as number_read, operand_of as operand_read};
ghost use Rattle.tool_text.specs.Reading.{register_of as register_read, string_rest as string_read};

use crate::bytes::{is_digits, is_number, value_below};
use crate::fault::ToolFault;
use crate::limits::{MAX_EXIT, REGISTERS};
use crate::tool::{Operand, Register};
use bx_tree::Text;
use std::alloc::Global;

// The register whose number has these digits.
fn numbered(digits: &[u8]) -> Result<Register, ToolFault>
    ensures { ReadsTool result (number_read digits.now) }
{
    if !is_number(digits) {
        return Err(ToolFault::BadTool);
    }
    match value_below(digits, REGISTERS) {
        Some(number) => Ok(Register::new(number as u8)),
        None => Err(ToolFault::BadTool),
    }
}

/// The register that a text is.
pub fn register_of(text: &[u8]) -> Result<Register, ToolFault>
    ensures { ReadsTool result (register_read text.now) }
{
    match text.split_first() {
        Some((b'r', digits)) => numbered(digits),
        _ => Err(ToolFault::BadTool),
    }
}

// The byte that a byte after a `\` stands for.
fn escape_of(code: u8) -> Option<u8>
    ensures { result ≡ escape code }
{
    match code {
        b'n' => Some(b'\n'),
        b't' => Some(b'\t'),
        b'"' | b'\\' => Some(code),
        _ => None,
    }
}

// The bytes of a string, read from after its first `"` to its last, which ends the text.
fn string_rest(alloc: Global, text: &[u8]) -> Result<Text, ToolFault>
    ensures { ReadsTool result (string_read text.now) }
{
    let mut bytes = Vec::new(alloc);
    let mut rest = text;
    'bytes: while let Some((first, more)) = rest.split_first() {
        if *first == b'"' {
            if !more.is_empty() {
                return Err(ToolFault::BadTool);
            }
            return Ok(Text::new(alloc, bytes)?);
        }
        if *first == b'\n' {
            return Err(ToolFault::BadTool);
        }
        if *first == b'\\' {
            let Some((code, after)) = more.split_first() else {
                return Err(ToolFault::BadTool);
            };
            let Some(byte) = escape_of(*code) else {
                return Err(ToolFault::BadTool);
            };
            bytes.push(byte)?;
            rest = after;
        } else {
            bytes.push(*first)?;
            rest = more;
        }
    }
    Err(ToolFault::BadTool)
}

// The text of digits, which stand for themselves.
fn digits_text(alloc: Global, text: &[u8]) -> Result<Text, ToolFault>
    ensures { ReadsTool result (Some text.now) }
{
    Ok(Text::new(alloc, Vec::from_slice(alloc, text)?)?)
}

/// The value that a text is: a register, a string, or digits.
pub fn operand_of(alloc: Global, text: &[u8]) -> Result<Operand, ToolFault>
    ensures { ReadsTool result (operand_read text.now) }
{
    let Some((first, rest)) = text.split_first() else {
        return Err(ToolFault::BadTool);
    };
    if *first == b'r' {
        return Ok(Operand::Register(numbered(rest)?));
    }
    if *first == b'"' {
        return Ok(Operand::Constant(string_rest(alloc, rest)?));
    }
    if !is_digits(text) {
        return Err(ToolFault::BadTool);
    }
    Ok(Operand::Constant(digits_text(alloc, text)?))
}

/// The exit code that digits write.
pub fn code_of(text: &[u8]) -> Result<u8, ToolFault>
    ensures { ReadsTool result (code_read text.now) }
{
    if !is_digits(text) {
        return Err(ToolFault::BadTool);
    }
    match value_below(text, MAX_EXIT + 1) {
        Some(code) => Ok(code as u8),
        None => Err(ToolFault::BadTool),
    }
}
