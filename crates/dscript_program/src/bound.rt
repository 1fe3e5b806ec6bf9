//! Bound expressions and statements.

use crate::target::Target;
use bx_tree::Text;
use dscript_ast::{BinaryOp, LoopKind, PathKind, TypeNode, UnaryOp};

/// An expression in which each name is resolved.
#[cycle(bound_expr)]
#[derive(Drop)]
pub enum BoundExpr {
    /// A function, by its number in the table of functions.
    Arrow(u32),
    /// A condition, the value where it holds, and the value where it does not.
    Cond(Box<BoundExpr>, Box<BoundExpr>, Box<BoundExpr>),
    /// A chain of operators of one precedence: the first operand, and the others.
    Chain(Box<BoundExpr>, Vec<BoundOperand>),
    /// One or more prefix operators, and their operand.
    Unary(Vec<UnaryOp>, Box<BoundExpr>),
    /// An expression, and one or more members, indices and calls after it.
    Postfix(Box<BoundExpr>, Vec<BoundPart>),
    /// A number.
    Number(i32),
    /// A string, by the bytes of its value.
    Str(Text),
    /// `true`
    True,
    /// `false`
    False,
    /// `undefined`
    Undefined,
    /// A template: its text before the first hole, and the holes.
    Template(Text, Vec<BoundHole>),
    /// A letter, and the template after it: its text before the first hole, and the holes.
    Path(PathKind, Text, Vec<BoundHole>),
    /// A dotted name as a whole, by what it stands for.
    Name(Target),
    /// The elements of a list.
    List(Vec<BoundElement>),
    /// The properties of an object.
    Object(Vec<BoundProp>),
}

/// An operand of a chain but the first, with the operator before it.
#[cycle(bound_expr)]
#[derive(Drop)]
pub struct BoundOperand {
    pub operator: BinaryOp,
    pub value: BoundExpr,
}

/// A member, an index or a call.
#[cycle(bound_expr)]
#[derive(Drop)]
pub enum BoundPart {
    /// The name after a dot.
    Member(Text),
    /// The expression in brackets.
    Index(Box<BoundExpr>),
    /// The arguments of a call.
    Call(Vec<BoundExpr>),
}

/// An element of a list.
#[cycle(bound_expr)]
#[derive(Drop)]
pub struct BoundElement {
    /// Whether `...` is before it.
    pub spread: bool,
    pub value: BoundExpr,
}

/// A property of an object.
#[cycle(bound_expr)]
#[derive(Drop)]
pub enum BoundProp {
    /// A name and its value.
    Named(Text, BoundExpr),
    /// A string and its value.
    Quoted(Text, BoundExpr),
    /// A name that is its own value: the field, and what the name stands for.
    Short(Text, Target),
    /// The expression after `...`.
    Spread(BoundExpr),
}

/// A hole of a template, and the text from it to the next hole or the end.
#[cycle(bound_expr)]
#[derive(Drop)]
pub struct BoundHole {
    pub value: BoundExpr,
    pub text: Text,
}

/// A statement in which each name is resolved. A local is its number.
#[derive(Drop)]
pub enum BoundStmt {
    /// A constant: its local, its type where one is written, and its value.
    Const(u32, Option<Box<TypeNode>>, BoundExpr),
    /// A variable: its local, its type and its first value, where they are written.
    Let(u32, Option<Box<TypeNode>>, Option<BoundExpr>),
    /// An assignment to a local.
    Assign(u32, BoundExpr),
    /// A condition, the statement where it holds, and the statement after `else`.
    If(BoundExpr, Box<BoundStmt>, Option<Box<BoundStmt>>),
    /// A loop: the keyword of its variable, the local, the list, and the body.
    For(LoopKind, u32, BoundExpr, Box<BoundStmt>),
    /// A return, with its value where one is written.
    Return(Option<BoundExpr>),
    /// An expression by itself.
    Value(BoundExpr),
    /// Statements in braces.
    Block(Vec<BoundStmt>),
    /// A semicolon by itself.
    Empty,
}

/// The body of a function.
#[derive(Drop)]
pub enum Body {
    /// An expression, whose value is returned.
    Expr(BoundExpr),
    /// Statements.
    Block(Vec<BoundStmt>),
}
