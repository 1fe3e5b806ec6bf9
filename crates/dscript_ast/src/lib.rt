//! The abstract syntax trees of DScript, and its operators with their precedences.
//!
//! A type of the trees is a rule of the grammar, and a variant is one of its alternatives, with its parts in order.
//! `specs/` has the trees as contracts see them, which are plain data without pointers. The grammar itself is in
//! `dscript_grammar`. This crate depends on `bx_tree` for texts.
#![tactic(auto)]

mod expr;
mod file;
mod operator;
pub mod precedence;
mod type_node;

pub use expr::{
    ArrowHead, Element, Expr, Hole, LoopKind, Operand, Param, PathKind, PostfixPart, Prop, Stmt,
};
pub use file::{Decl, File, Form, ImportName, ImportedNames, Item, Mark, Marked};
pub use operator::{BinaryOp, UnaryOp};
pub use type_node::{Field, Member, TypeNode};
