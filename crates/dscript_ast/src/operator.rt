//! Operators, with how each is written and how tightly it binds.

ghost use Rattle.std.specs.Prelude.{◌≡◌, codes};
ghost use Rattle.dscript_ast.specs.Operators.{precedence, spelling, unary_spelling};

use crate::precedence;

/// An operator between two operands.
#[derive(Clone, Copy)]
pub enum BinaryOp {
    /// `||`
    Or,
    /// `&&`
    And,
    /// `===`
    Equal,
    /// `!==`
    NotEqual,
    /// `<`
    Less,
    /// `<=`
    LessOrEqual,
    /// `>`
    Greater,
    /// `>=`
    GreaterOrEqual,
    /// `+`
    Add,
    /// `-`
    Subtract,
    /// `*`
    Multiply,
}

impl BinaryOp {
    /// The punctuator of the operator.
    pub fn spelling(self) -> &'static [u8]
        ensures { result.now ≡ codes (spelling self) }
    {
        match self {
            BinaryOp::Or => b"||",
            BinaryOp::And => b"&&",
            BinaryOp::Equal => b"===",
            BinaryOp::NotEqual => b"!==",
            BinaryOp::Less => b"<",
            BinaryOp::LessOrEqual => b"<=",
            BinaryOp::Greater => b">",
            BinaryOp::GreaterOrEqual => b">=",
            BinaryOp::Add => b"+",
            BinaryOp::Subtract => b"-",
            BinaryOp::Multiply => b"*",
        }
    }

    /// The level of the chains that the operator makes, one of those in [`precedence`](crate::precedence).
    pub fn precedence(self) -> u32
        ensures { result ≡ precedence self }
    {
        match self {
            BinaryOp::Or => precedence::OR,
            BinaryOp::And => precedence::AND,
            BinaryOp::Equal | BinaryOp::NotEqual => precedence::EQUALITY,
            BinaryOp::Less | BinaryOp::LessOrEqual | BinaryOp::Greater | BinaryOp::GreaterOrEqual =>
                precedence::RELATION,
            BinaryOp::Add | BinaryOp::Subtract => precedence::SUM,
            BinaryOp::Multiply => precedence::PRODUCT,
        }
    }
}

/// An operator before its operand.
#[derive(Clone, Copy)]
pub enum UnaryOp {
    /// `!`
    Not,
    /// `-`
    Negate,
}

impl UnaryOp {
    /// The punctuator of the operator.
    pub fn spelling(self) -> &'static [u8]
        ensures { result.now ≡ codes (unary_spelling self) }
    {
        match self {
            UnaryOp::Not => b"!",
            UnaryOp::Negate => b"-",
        }
    }
}
