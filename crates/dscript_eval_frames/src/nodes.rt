//! The steps that expressions and statements take themselves, and the parts of bound nodes.
ghost use Rattle.std.specs.Prelude.{◌≡◌};
ghost use Rattle.dscript_program.specs.BoundTree as tree;
ghost use Rattle.dscript_program.specs.Views.{element_data, expr_data, hole_data, operand_data, stmt_data};
ghost use Rattle.dscript_eval_frames.specs.Costs as costs;

use bx_tree::Text;
use dscript_ast::BinaryOp;
use dscript_program::{BoundElement, BoundExpr, BoundHole, BoundOperand, BoundStmt};

/// The steps that an expression takes itself.
#[tactic(auto, using(dscript_program::proofs::NodeViews::bound_views))]
pub fn expr_cost(e: &BoundExpr) -> u64
    ensures { result ≡ costs.expr_cost (expr_data e.now) }
{
    match e {
        BoundExpr::Chain(_, more) => more.len() as u64,
        BoundExpr::Unary(operators, _) => operators.len() as u64,
        BoundExpr::Postfix(_, _) => 0,
        _ => 1,
    }
}

/// The steps that a statement takes itself.
#[tactic(auto, using(dscript_program::proofs::NodeViews::bound_views))]
pub fn stmt_cost(statement: &BoundStmt) -> u64
    ensures { result ≡ costs.stmt_cost (stmt_data statement.now) }
{
    match statement {
        BoundStmt::Block(_) | BoundStmt::Empty => 0,
        _ => 1,
    }
}

/// The operator and the expression of an operand.
pub fn operand_parts(operand: &BoundOperand) -> (BinaryOp, &BoundExpr)
    ensures { operand_data operand.now ≡ tree.Operand result.0 (expr_data result.1.now) }
{
    (operand.operator, &operand.value)
}

/// Whether an element is spread, and its expression.
pub fn element_parts(element: &BoundElement) -> (bool, &BoundExpr)
    ensures { element_data element.now ≡ tree.Element result.0 (expr_data result.1.now) }
{
    (element.spread, &element.value)
}

/// The expression of a hole, and the text after it.
pub fn hole_parts(hole: &BoundHole) -> (&BoundExpr, &Text)
    ensures { hole_data hole.now ≡ tree.Hole (expr_data result.0.now) result.1.now }
{
    (&hole.value, &hole.text)
}
