//! The parts of bound nodes.
ghost use Rattle.std.specs.Option.{option_copied};
ghost use Rattle.std.specs.Prelude.{◌≡◌};
ghost use Rattle.dscript_ast.specs.Views.{note_tree};
ghost use Rattle.dscript_program.specs.BoundTree as tree;
ghost use Rattle.dscript_program.specs.Views.{element_data, expr_data, hole_data, operand_data};
ghost use Rattle.dscript_types_scenes.specs.Shapes.{shape_data, shape_of};
ghost use Rattle.dscript_types_scenes.specs.Statements.{behind_else, maybe_of, note_of};

use bx_tree::Text;
use dscript_ast::{BinaryOp, TypeNode, UnaryOp};
use dscript_program::{BoundElement, BoundExpr, BoundHole, BoundOperand, BoundStmt, Target};

/// The form of an expression, where it says more than a type: of a condition, an operand or a callback.
#[derive(Clone, Copy)]
pub enum Shape<'a> {
    Arrow(u32),
    Name(Target),
    Undefined,
    Unary(&'a [UnaryOp], &'a BoundExpr),
    Chain(&'a BoundExpr, &'a [BoundOperand]),
    Other,
}

/// The form of an expression.
#[tactic(auto, using(dscript_program::proofs::NodeViews::bound_views))]
pub fn shape_of(expr: &BoundExpr) -> Shape<'_>
    ensures { shape_data result ≡ shape_of (expr_data expr.now) }
{
    match expr {
        BoundExpr::Arrow(number) => Shape::Arrow(*number),
        BoundExpr::Name(target) => Shape::Name(*target),
        BoundExpr::Undefined => Shape::Undefined,
        BoundExpr::Unary(operators, operand) => Shape::Unary(operators.as_slice(), operand),
        BoundExpr::Chain(first, more) => Shape::Chain(first, more.as_slice()),
        BoundExpr::Cond(_, _, _) => Shape::Other,
        BoundExpr::Postfix(_, _) => Shape::Other,
        BoundExpr::Number(_) => Shape::Other,
        BoundExpr::Str(_) => Shape::Other,
        BoundExpr::True => Shape::Other,
        BoundExpr::False => Shape::Other,
        BoundExpr::Template(_, _) => Shape::Other,
        BoundExpr::Path(_, _, _) => Shape::Other,
        BoundExpr::List(_) => Shape::Other,
        BoundExpr::Object(_) => Shape::Other,
    }
}

/// The operator before an operand, and its expression.
#[tactic(auto, using(dscript_program::proofs::NodeViews::bound_views))]
pub fn operand_parts(operand: &BoundOperand) -> (BinaryOp, &BoundExpr)
    ensures { operand_data operand.now ≡ tree.Operand result.0 (expr_data result.1.now) }
{
    (operand.operator, &operand.value)
}

/// Whether an element is spread, and its expression.
#[tactic(auto, using(dscript_program::proofs::NodeViews::bound_views))]
pub fn element_parts(element: &BoundElement) -> (bool, &BoundExpr)
    ensures { element_data element.now ≡ tree.Element result.0 (expr_data result.1.now) }
{
    (element.spread, &element.value)
}

/// The expression of a hole, and the text after it.
#[tactic(auto, using(dscript_program::proofs::NodeViews::bound_views))]
pub fn hole_parts(hole: &BoundHole) -> (&BoundExpr, &Text)
    ensures { hole_data hole.now ≡ tree.Hole (expr_data result.0.now) result.1.now }
{
    (&hole.value, &hole.text)
}

/// The node of an annotation, if one is written.
pub fn note_of(note: &Option<Box<TypeNode>>) -> Option<&TypeNode>
    ensures { note_of (option_copied result) ≡ note_tree note.now }
{
    match note {
        Some(node) => Some(node),
        None => None,
    }
}

/// The statement behind `else`, if there is one.
pub fn other_of(other: &Option<Box<BoundStmt>>) -> Option<&BoundStmt>
    ensures { maybe_of (option_copied result) ≡ behind_else other.now }
{
    match other {
        Some(other) => Some(other),
        None => None,
    }
}
