//! Expressions and statements.

use crate::operator::{BinaryOp, UnaryOp};
use crate::type_node::TypeNode;
use bx_tree::Text;

/// An expression. Plain parentheses make no node.
#[cycle(tree)]
#[derive(Drop)]
pub enum Expr {
    /// A function whose body is an expression.
    Arrow(Box<ArrowHead>, Box<Expr>),
    /// A function whose body is a block.
    BlockArrow(Box<ArrowHead>, Vec<Stmt>),
    /// A condition, the value where it holds, and the value where it does not.
    Cond(Box<Expr>, Box<Expr>, Box<Expr>),
    /// A chain of `||`: the first operand, and the others.
    Or(Box<Expr>, Vec<Operand>),
    /// A chain of `&&`.
    And(Box<Expr>, Vec<Operand>),
    /// A chain of `===` and `!==`.
    Equality(Box<Expr>, Vec<Operand>),
    /// A chain of `<`, `<=`, `>` and `>=`.
    Relation(Box<Expr>, Vec<Operand>),
    /// A chain of `+` and `-`.
    Sum(Box<Expr>, Vec<Operand>),
    /// A chain of `*`.
    Product(Box<Expr>, Vec<Operand>),
    /// One or more prefix operators, and their operand.
    Unary(Vec<UnaryOp>, Box<Expr>),
    /// An expression, and one or more members, indices and calls after it.
    Postfix(Box<Expr>, Vec<PostfixPart>),
    /// A number.
    Number(i32),
    /// A string, by the bytes of its value.
    Str(Text),
    /// `true`
    True,
    /// `false`
    False,
    /// `undefined`
    Undefined,
    /// A template: its text before the first hole, and the holes.
    Template(Text, Vec<Hole>),
    /// A letter, and the template after it: its text before the first hole, and the holes.
    Path(PathKind, Text, Vec<Hole>),
    /// A name.
    Name(Text),
    /// The elements of a list.
    List(Vec<Element>),
    /// The properties of an object.
    Object(Vec<Prop>),
}

/// An operand of a chain but the first, with the operator before it.
#[cycle(tree)]
#[derive(Drop)]
pub struct Operand {
    pub operator: BinaryOp,
    pub value: Expr,
}

/// A member, an index or a call.
#[cycle(tree)]
#[derive(Drop)]
pub enum PostfixPart {
    /// The name after a dot.
    Member(Text),
    /// The expression in brackets.
    Index(Box<Expr>),
    /// The arguments of a call.
    Call(Vec<Expr>),
}

/// An element of a list.
#[cycle(tree)]
#[derive(Drop)]
pub struct Element {
    /// Whether `...` is before it.
    pub spread: bool,
    pub value: Expr,
}

/// A property of an object.
#[cycle(tree)]
#[derive(Drop)]
pub enum Prop {
    /// A name and its value.
    Named(Text, Expr),
    /// A string and its value.
    Quoted(Text, Expr),
    /// A name that is its own value.
    Short(Text),
    /// The expression after `...`.
    Spread(Expr),
}

/// A hole of a template, and the text from it to the next hole or the end.
#[cycle(tree)]
#[derive(Drop)]
pub struct Hole {
    pub value: Expr,
    pub text: Text,
}

/// A statement.
#[cycle(tree)]
#[derive(Drop)]
pub enum Stmt {
    /// A constant: its name, its type where one is written, and its value.
    Const(Text, Option<Box<TypeNode>>, Expr),
    /// A variable: its name, its type and its first value, where they are written.
    Let(Text, Option<Box<TypeNode>>, Option<Expr>),
    /// An assignment to a name.
    Assign(Text, Expr),
    /// A condition, the statement where it holds, and the statement after `else`.
    If(Expr, Box<Stmt>, Option<Box<Stmt>>),
    /// A loop: the keyword of its variable, the variable, the list, and the body.
    For(LoopKind, Text, Expr, Box<Stmt>),
    /// A return, with its value where one is written.
    Return(Option<Expr>),
    /// An expression by itself.
    Value(Expr),
    /// Statements in braces.
    Block(Vec<Stmt>),
    /// A semicolon by itself.
    Empty,
}

/// What an arrow function has before its `=>`.
#[derive(Drop)]
pub enum ArrowHead {
    /// A single name.
    Name(Text),
    /// Parameters in parentheses.
    Params(Vec<Param>),
}

/// A parameter of a function, with its type where one is written.
#[derive(Drop)]
pub struct Param {
    pub name: Text,
    /// Whether `?` is after the name.
    pub optional: bool,
    pub type_node: Option<Box<TypeNode>>,
}

/// How the variable of a loop is declared.
#[derive(Clone, Copy)]
pub enum LoopKind {
    /// `const`
    Const,
    /// `let`
    Let,
}

/// The letter of a literal of paths and names.
#[derive(Clone, Copy)]
pub enum PathKind {
    /// `p`, a path.
    Path,
    /// `f`, a file.
    File,
    /// `d`, a directory.
    Directory,
    /// `r`, a relative path.
    Relative,
    /// `a`, an atom.
    Atom,
}
