//! The trees that contracts see in what the parser makes.

ghost use Rattle.std.specs.Prelude.{List, ℕ};
ghost use Rattle.dscript_ast.specs.TypeTree as types;
ghost use Rattle.dscript_ast.specs.ExprTree as exprs;
ghost use Rattle.dscript_ast.specs.FileTree as files;
ghost use Rattle.dscript_ast.specs.Views as views;
ghost use Rattle.dscript_ast.specs.declared.operator.UnaryOp as operators;

use bx_tree::Text;
use dscript_ast::{
    Element, Expr, Field, ImportName, Marked, Member, Operand, Param, PostfixPart, Prop, Stmt,
    TypeNode, UnaryOp,
};

/// A value that contracts see as a tree.
pub trait Syntax: Drop {
    ghost Tree: { Type 0 };

    ghost tree: { Self → Tree };
}

impl Syntax for Text {
    ghost Tree = { List ℕ };

    ghost tree = { λ text. text };
}

impl Syntax for TypeNode {
    ghost Tree = { types.TypeTree };

    ghost tree = { views.type_tree };
}

impl Syntax for Field {
    ghost Tree = { types.FieldTree };

    ghost tree = { views.field_tree };
}

impl Syntax for Member {
    ghost Tree = { types.MemberTree };

    ghost tree = { views.member_tree };
}

impl Syntax for Expr {
    ghost Tree = { exprs.ExprTree };

    ghost tree = { views.expr_tree };
}

impl Syntax for Operand {
    ghost Tree = { exprs.OperandTree };

    ghost tree = { views.operand_tree };
}

impl Syntax for PostfixPart {
    ghost Tree = { exprs.PartTree };

    ghost tree = { views.part_tree };
}

impl Syntax for Element {
    ghost Tree = { exprs.ElementTree };

    ghost tree = { views.element_tree };
}

impl Syntax for Prop {
    ghost Tree = { exprs.PropTree };

    ghost tree = { views.prop_tree };
}

impl Syntax for Param {
    ghost Tree = { exprs.ParamTree };

    ghost tree = { views.param_tree };
}

impl Syntax for Stmt {
    ghost Tree = { exprs.StmtTree };

    ghost tree = { views.stmt_tree };
}

impl Syntax for Marked {
    ghost Tree = { files.MarkedTree };

    ghost tree = { views.marked_tree };
}

impl Syntax for ImportName {
    ghost Tree = { files.ImportTree };

    ghost tree = { views.import_tree };
}

impl Syntax for UnaryOp {
    ghost Tree = { operators.UnaryOp };

    ghost tree = { λ operator. operator };
}
