//! A tool as it is run: its instructions, with jumps to places in the list.
ghost use Rattle.std.specs.Prelude.{◌≡◌, ◌<◌};

use crate::limits::REGISTERS;
use bx_tree::Text;
use std::marker::Model;

/// The number of a register, from 0 to 31.
#[derive(Clone, Copy, Debug, PartialEq, Eq)]
pub struct Register {
    number: u8,
}

impl Model for Register {
    ghost use Rattle.std.specs.Prelude.{ℕ, ◌<◌};
    ghost use Rattle.tool_text.specs.declared.limits.TheConstants.{REGISTERS};

    ghost Value = { ℕ };

    ghost view = { λ r. r.number };

    ghost inverse = { λ n. record { number = n } };

    ghost invariant = { λ r. r.number < REGISTERS };
}

impl Register {
    /// The register with this number.
    pub fn new(number: u8) -> Register
        requires { number < REGISTERS }
        ensures { result ≡ number }
    {
        Register { number }
    }

    /// Its number.
    pub fn number(self) -> usize
        ensures value { result ≡ self }
        ensures below { result < REGISTERS }
    {
        self.number as usize
    }
}

/// What an instruction takes: the content of a register, or bytes that are written in the tool.
#[derive(Drop)]
pub enum Operand {
    Register(Register),
    Constant(Text),
}

/// An instruction. Registers that it sets come first, then what it takes, then the place that it may
/// jump to.
#[derive(Drop)]
pub enum Instr {
    Set(Register, Operand),
    Cat(Register, Operand, Operand),
    Len(Register, Operand),
    Head(Register, Operand, Operand),
    Tail(Register, Operand, Operand),
    Split(Register, Register, Operand, Operand),
    Arg(Register, Operand, usize),
    Args(Register),
    Env(Register, Operand, usize),
    Eq(Operand, Operand, usize),
    Jump(usize),
    Exit(u8),
    Say(Operand),
    Read(Register, Operand, usize),
    Probe(Register, Operand),
    List(Register, Operand),
    /// A listing of the names that a pattern matches: only in tools of the second version.
    Match(Register, Operand, Operand),
    Write(Operand, Operand),
}

/// A tool. Contracts see it as the list of its instructions; a jump leads to a place in that list.
#[derive(Drop)]
pub struct Tool {
    lines: Vec<Instr>,
}

impl Model for Tool {
    ghost use Rattle.std.specs.Prelude.{List};
    ghost use Rattle.tool_text.specs.declared.tool.Instr.{Instr};

    ghost Value = { List Instr };

    ghost view = { λ t. t.lines.items };
}

impl Tool {
    pub(crate) fn new(lines: Vec<Instr>) -> Tool
        ensures { result ≡ lines.items }
    {
        Tool { lines }
    }

    /// Its instructions, in order.
    pub fn lines(&self) -> &[Instr]
        ensures { result.now ≡ self.now }
    {
        self.lines.as_slice()
    }
}
