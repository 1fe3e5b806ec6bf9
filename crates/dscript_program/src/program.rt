//! Programs: files with their declarations, and the table of functions.

ghost use Rattle.std.specs.Prelude.{◌≡◌};

use crate::bound::{Body, BoundExpr};
use bx_tree::{Path, Text};
use dscript_ast::{Mark, Member, Param, TypeNode};
use std::rc::Rc;

/// A whole program.
#[derive(Drop)]
pub struct Program {
    /// The files, by path.
    pub files: Vec<BoundFile>,
    /// All functions, in the order of the files and then of the text. A function comes before those in its
    /// body.
    pub functions: Vec<Function>,
}

impl Program {
    /// The files, by path.
    pub fn files(&self) -> &[BoundFile]
        ensures { result.now ≡ self.now.files.items }
    {
        self.files.as_slice()
    }

    /// The functions, by number.
    pub fn functions(&self) -> &[Function]
        ensures { result.now ≡ self.now.functions.items }
    {
        self.functions.as_slice()
    }
}

/// A file of a program.
#[derive(Drop)]
pub struct BoundFile {
    pub path: Path,
    /// The number of its module in the workspace.
    pub module: u32,
    /// Its declarations in the order of the text, those in namespaces among them. Namespaces are none.
    pub decls: Vec<BoundDecl>,
}

/// A namespace that a file opens, shared by the declarations in it.
#[derive(Drop)]
pub struct Namespace {
    /// The namespace around it, if there is one.
    pub outer: Option<Rc<Namespace>>,
    /// Its name, which may be dotted.
    pub names: Vec<Text>,
}

/// A declaration. Its dotted name is the names of the namespaces around it, from the outermost, and its own.
#[derive(Drop)]
pub struct BoundDecl {
    /// The namespace around it, if there is one.
    pub around: Option<Rc<Namespace>>,
    pub name: Text,
    pub mark: Mark,
    pub kind: DeclKind,
}

/// What is declared.
#[derive(Drop)]
pub enum DeclKind {
    /// A constant: its type where one is written, and its value.
    Const(Option<Box<TypeNode>>, BoundExpr),
    /// A function: its type parameters, its result type where one is written, and its number in the table.
    Function(Vec<Text>, Option<Box<TypeNode>>, u32),
    /// An interface: its type parameters, the types that it extends, and its members.
    Interface(Vec<Text>, Vec<TypeNode>, Vec<Member>),
    /// A name for a type: its type parameters, and the type.
    TypeAlias(Vec<Text>, TypeNode),
}

/// A declared function or an arrow function. The locals of a declaration are numbered from 0 in the order of
/// the text, those of the functions in it included.
#[derive(Drop)]
pub struct Function {
    /// The number of its file.
    pub file: u32,
    /// The locals from outside that are named in its body, in the order in which they first occur.
    pub captured: Vec<u32>,
    /// The parameters, which are its first locals.
    pub params: Vec<Param>,
    /// The number of its first local.
    pub first_local: u32,
    /// How many locals it has: its parameters, its other locals, and the locals of the functions in it.
    pub local_count: u32,
    pub body: Body,
}
