//! Faults of a text that is no tool.

/// What an operand of an instruction is to be.
#[derive(Clone, Copy, Debug, PartialEq, Eq)]
pub enum OperandKind {
    Register,
    Value,
    /// The label of a line.
    Label,
    /// An exit code.
    Code,
}

/// What is wrong in a line.
#[derive(Clone, Copy, Debug, PartialEq, Eq)]
pub enum Wrong {
    /// The first line says no version of the language.
    NoVersion,
    /// An earlier line, which has this number, has the same label.
    LabelTaken(usize),
    /// The line names no instruction.
    NoInstruction,
    /// The instruction takes this number of operands, and is given another.
    Count(usize),
    /// The operand with this number, from 1, is not what the instruction takes there.
    Operand(usize, OperandKind),
    /// The instruction is one of the second version, and the tool of the first.
    OfSecond,
}

/// What is wrong in the line with this number, from 1.
#[derive(Clone, Copy, Debug, PartialEq, Eq)]
pub struct LineFault {
    pub line: usize,
    pub wrong: Wrong,
}
