//! Types, as they are written.

use bx_tree::Text;

/// A type. Plain parentheses make no node.
#[cycle(type_node)]
#[derive(Drop)]
pub enum TypeNode {
    /// Two types or more, with `|` between them.
    Union(Vec<TypeNode>),
    /// A type, and the number of `[]` after it, which is at least one.
    Array(Box<TypeNode>, usize),
    /// A dotted name, and the types in angle brackets after it, if any.
    Named(Vec<Text>, Vec<TypeNode>),
    /// The type of one string, by the bytes of its value.
    Str(Text),
    /// The type of one number.
    Number(i32),
    /// `undefined`
    Undefined,
    /// `true`
    True,
    /// `false`
    False,
    /// The members of an object, in braces.
    Body(Vec<Member>),
    /// The parameters of a function and, after `=>`, its result.
    Function(Vec<Field>, Box<TypeNode>),
}

/// A member of an object type or an interface.
#[cycle(type_node)]
#[derive(Drop)]
pub enum Member {
    /// A name, whether `?` is after it, and the type.
    Property(Text, bool, TypeNode),
    /// A name, whether `?` is after it, the parameters, and the type of the result.
    Method(Text, bool, Vec<Field>, TypeNode),
}

/// A parameter of a function type or a method, with its type.
#[cycle(type_node)]
#[derive(Drop)]
pub struct Field {
    pub name: Text,
    /// Whether `?` is after the name.
    pub optional: bool,
    pub type_node: TypeNode,
}
