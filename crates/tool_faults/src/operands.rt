//! The operands of instructions, by their kinds.
ghost use Rattle.std.specs.Prelude.{◌≡◌, IfOk, Option, is_some, slice_get};
ghost use Rattle.bx_tree.specs.Lent.{texts_now};
ghost use Rattle.tool_text.specs.Reading.{ReadsTool};
ghost use Rattle.tool_text.specs.Tables.{place_in};
ghost use Rattle.tool_faults.specs.Faults as faults;

use crate::fault::{OperandKind, Wrong};
use bx_tree::Memory;
use std::alloc::{AllocError, Global};
use tool_text::{Op, Table, ToolFault, code_of, operand_of, register_of};

// The kinds of the operands that an operation takes, where it is given this number of them.
fn kinds_of(op: Op, count: usize) -> &'static [OperandKind]
    ensures { result.now ≡ faults.kinds_of op count }
{
    match op {
        Op::Set | Op::Len | Op::Probe => &[OperandKind::Register, OperandKind::Value],
        Op::Cat | Op::Head | Op::Tail => {
            &[
                OperandKind::Register,
                OperandKind::Value,
                OperandKind::Value,
            ]
        }
        Op::Split => {
            &[
                OperandKind::Register,
                OperandKind::Register,
                OperandKind::Value,
                OperandKind::Value,
            ]
        }
        Op::Arg | Op::Env | Op::Read => {
            &[
                OperandKind::Register,
                OperandKind::Value,
                OperandKind::Label,
            ]
        }
        Op::Args => &[OperandKind::Register],
        Op::Eq => &[OperandKind::Value, OperandKind::Value, OperandKind::Label],
        Op::Jump => &[OperandKind::Label],
        Op::Exit => &[OperandKind::Code],
        Op::Say => &[OperandKind::Value],
        Op::Write => &[OperandKind::Value, OperandKind::Value],
        Op::List if count == 3 => {
            &[
                OperandKind::Register,
                OperandKind::Value,
                OperandKind::Value,
            ]
        }
        Op::List => &[OperandKind::Register, OperandKind::Value],
    }
}

// The kind at a place, if there is one.
fn kind_at(kinds: &[OperandKind], place: usize) -> Option<OperandKind>
    ensures { result ≡ slice_get kinds.now place }
{
    match kinds.get(place) {
        Some(kind) => Some(*kind),
        None => None,
    }
}

// Whether something was read.
fn was_read<X>(read: &Result<X, ToolFault>) -> Result<bool, Memory>
    ensures { (o : Option X) → ReadsTool read.now o → IfOk result (λ good. good ≡ is_some o) }
{
    match read {
        Ok(_) => Ok(true),
        Err(ToolFault::BadTool) => Ok(false),
        Err(ToolFault::Memory) => Err(AllocError),
    }
}

// Whether a text is an operand of a kind.
fn is_operand(alloc: Global, table: &Table, kind: OperandKind, text: &[u8]) -> Result<bool, Memory>
    ensures { IfOk result (λ good. good ≡ faults.is_operand (place_in table.now) kind text.now) }
{
    match kind {
        OperandKind::Register => was_read(&register_of(text)),
        OperandKind::Value => was_read(&operand_of(alloc, text)),
        OperandKind::Label => was_read(&table.find(text)),
        OperandKind::Code => was_read(&code_of(text)),
    }
}

// The first of the texts that is no operand of its kind.
fn first_bad(
    alloc: Global,
    table: &Table,
    kinds: &[OperandKind],
    texts: &[&[u8]],
) -> Result<Option<Wrong>, Memory>
    ensures { IfOk result (λ wrong. wrong
        ≡ faults.first_bad (place_in table.now) 1 kinds.now (texts_now texts.now)) }
{
    'texts: for (place, text) in texts.iter().enumerate() {
        let Some(kind) = kind_at(kinds, place) else {
            return Ok(None);
        };
        if !is_operand(alloc, table, kind, text)? {
            return Ok(Some(Wrong::Operand(place + 1, kind)));
        }
    }
    Ok(None)
}

// Why texts are no operands of an operation.
pub(crate) fn why_not_operands(
    alloc: Global,
    table: &Table,
    op: Op,
    texts: &[&[u8]],
) -> Result<Wrong, Memory>
    ensures { IfOk result (λ wrong. wrong
        ≡ faults.why_not_operands (place_in table.now) op (texts_now texts.now)) }
{
    let kinds = kinds_of(op, texts.len());
    let fits = texts.len() == kinds.len();
    if !fits {
        return Ok(Wrong::Count(kinds.len()));
    }
    match first_bad(alloc, table, kinds, texts)? {
        Some(wrong) => Ok(wrong),
        None => Ok(Wrong::NoInstruction),
    }
}
