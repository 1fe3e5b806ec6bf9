//! Declarations and files.

use crate::expr::{Expr, Param, Stmt};
use crate::type_node::{Member, TypeNode};
use bx_tree::Text;

/// What a file is for, which decides by which rule it is read.
#[derive(Clone, Copy)]
pub enum Form {
    /// Declarations of a module.
    Project,
    /// The configuration of a workspace.
    Config,
    /// The configuration of a module.
    Module,
}

/// A whole file.
#[derive(Drop)]
pub enum File {
    /// The items, in order.
    Project(Vec<Item>),
    /// The argument of `config`.
    Config(Expr),
    /// The argument of `module`.
    Module(Expr),
}

/// An item of a project file. It is small, so that a file of semicolons alone takes little memory.
#[derive(Drop)]
pub enum Item {
    /// An import of a whole module: the name that it gets, and the name of the module.
    ImportAll(Text, Text),
    /// An import of names.
    ImportNames(Box<ImportedNames>),
    /// A declaration with its mark.
    Declared(Box<Marked>),
    /// A semicolon by itself.
    Empty,
}

/// Names that are imported together.
#[derive(Drop)]
pub struct ImportedNames {
    pub names: Vec<ImportName>,
    /// The name of the module that has them.
    pub module: Text,
}

/// A name that is imported, and the name after `as` where there is one.
#[derive(Drop)]
pub struct ImportName {
    pub name: Text,
    pub alias: Option<Text>,
}

/// Who may see a declaration.
#[derive(Clone, Copy)]
pub enum Mark {
    /// No mark.
    Plain,
    /// `export`
    Export,
    /// `@@public export`
    Public,
}

/// A declaration with its mark.
#[cycle(decl)]
#[derive(Drop)]
pub struct Marked {
    pub mark: Mark,
    pub decl: Decl,
}

/// A declaration.
#[cycle(decl)]
#[derive(Drop)]
pub enum Decl {
    /// A constant: its name, its type where one is written, and its value.
    Const(Text, Option<Box<TypeNode>>, Expr),
    /// A function: its name, its type parameters, its parameters, its result type where one is written, and
    /// its body.
    Function(Text, Vec<Text>, Vec<Param>, Option<Box<TypeNode>>, Vec<Stmt>),
    /// A namespace: its dotted name, and the declarations in it.
    Namespace(Vec<Text>, Vec<Marked>),
    /// An interface: its name, its type parameters, the types that it extends, and its members.
    Interface(Text, Vec<Text>, Vec<TypeNode>, Vec<Member>),
    /// A name for a type: the name, its type parameters, and the type.
    TypeAlias(Text, Vec<Text>, TypeNode),
}
