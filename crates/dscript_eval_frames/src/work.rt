//! What is still to be done. A work that waits for a value finds it in the machine's `given`.
ghost use Rattle.std.specs.Prelude.{◌≡◌, []};
ghost use Rattle.dscript_value.specs.Grown.{grown_items};

use crate::frame::Frame;
use bx_tree::{Path, Text};
use dscript_ast::{BinaryOp, PathKind, UnaryOp};
use dscript_program::{
    BoundElement, BoundExpr, BoundHole, BoundOperand, BoundPart, BoundProp, BoundStmt,
};
use dscript_value::{Field, FunctionRef, GrowingList, Value, Values};
use std::alloc::Global;

/// What is to be done next.
#[derive(Drop)]
pub enum Work<'a> {
    Expr(ExprWork<'a>),
    Call(CallWork<'a>),
    Stmt(StmtWork<'a>),
    /// A body ends with the value that is given, and the frame from before is back.
    Leave(Frame<'a>),
    /// The constant with this number in this file has the value that is given, and the frame from before is
    /// back.
    Keep(u32, u32, Frame<'a>),
    /// A callback that is a member function ends with the value that is given.
    Close,
}

/// What is left of an expression. Each gives a value.
#[derive(Drop)]
pub enum ExprWork<'a> {
    /// A whole expression.
    Value(&'a BoundExpr),
    /// One of two expressions, by the condition that is given.
    Choose(&'a BoundExpr, &'a BoundExpr),
    /// The other operands of a chain, after the value so far, which is given.
    Operands(&'a [BoundOperand]),
    /// An operator at a left operand and the right one, which is given, and then the other operands.
    Operate(BinaryOp, Value, &'a [BoundOperand]),
    /// Operators before the operand that is given.
    Prefix(&'a [UnaryOp]),
    /// The parts after the value that is given.
    After(&'a [BoundPart]),
    /// The parts after a member of the value that is given.
    AfterMember(&'a Text, &'a [BoundPart]),
    /// What a value has at the index that is given.
    Index(Value),
    /// The other elements of a list, after these items.
    Items(&'a [BoundElement], GrowingList),
    /// The item that is given, and then the other elements.
    Item(&'a [BoundElement], GrowingList),
    /// The list that is given, spread, and then the other elements.
    SpreadItem(&'a [BoundElement], GrowingList),
    /// The other properties of an object, after these fields.
    Fields(&'a [BoundProp], Vec<Field>),
    /// The field whose value is given, and then the other properties.
    Named(&'a Text, &'a [BoundProp], Vec<Field>),
    /// The object that is given, spread, and then the other properties.
    SpreadFields(&'a [BoundProp], Vec<Field>),
    /// The first hole of a path literal, which is given, after its text, and the text and the holes after it.
    FirstHole(PathKind, &'a Text, &'a Text, &'a [BoundHole]),
    /// The other holes of a literal, after this text.
    Holes(&'a [BoundHole], Vec<u8>, Literal),
    /// The hole that is given, and then the text after it and the other holes.
    Hole(&'a Text, &'a [BoundHole], Vec<u8>, Literal),
}

/// What a text with holes is for.
#[derive(Drop)]
pub enum Literal {
    Template,
    Relative,
    Atom,
    /// A path, file or directory, with its base if it has one.
    Path(PathKind, Option<Path>),
}

/// What is left of a call. Each gives a value.
#[derive(Drop)]
pub enum CallWork<'a> {
    /// The other arguments, after these.
    Arguments(&'a [BoundExpr], Vec<Value>, Use),
    /// The argument that is given, and then the others.
    Argument(&'a [BoundExpr], Vec<Value>, Use),
    /// Callbacks, from the next item on. The value so far of a reduction is given.
    Loop(Callbacks),
    /// What the callback at the next item gave, which is given, and then the others.
    Came(Callbacks),
}

/// What arguments are for.
#[derive(Drop)]
pub enum Use {
    /// The call of a value.
    Apply(Value),
    /// The call of a member function of a value.
    Method(Value, Text),
}

/// A member of lists that calls a function with each item.
#[derive(Clone, Copy)]
pub enum Callback {
    Map,
    Filter,
    MapMany,
    Reduce,
}

/// The calls of a function with each item of a list.
#[derive(Drop)]
pub struct Callbacks {
    pub kind: Callback,
    pub function: FunctionRef,
    pub items: Values,
    /// The number of the next item.
    pub next: usize,
    /// What came of the items before it.
    pub done: GrowingList,
}

impl Callbacks {
    /// The calls of a function with all items, none of which was called yet.
    pub fn new(alloc: Global, kind: Callback, function: FunctionRef, items: Values) -> Callbacks
        ensures kind { result.kind ≡ kind }
        ensures function { result.function ≡ function }
        ensures items { result.items ≡ items }
        ensures next { result.next ≡ 0 }
        ensures done { grown_items result.done ≡ [] }
    {
        Callbacks {
            kind,
            function,
            items,
            next: 0,
            done: GrowingList::new(alloc),
        }
    }
}

/// What is left of a statement, or of the constants of a program.
#[derive(Drop)]
pub enum StmtWork<'a> {
    /// A whole statement.
    Does(&'a BoundStmt),
    /// Statements, one after another.
    All(&'a [BoundStmt]),
    /// A local holds the value that is given.
    Bind(u32),
    /// One of two statements, by the condition that is given.
    Branch(&'a BoundStmt, Option<&'a BoundStmt>),
    /// A loop over the list that is given.
    Start(u32, &'a BoundStmt),
    /// The turns of a loop, from an item on.
    Turns(u32, &'a BoundStmt, Values, usize),
    /// The body returns the value that is given.
    Return,
    /// The value that is given is not used.
    Forget,
    /// The constants of the program, from a file and a declaration in it on.
    Demands(u32, u32),
}
