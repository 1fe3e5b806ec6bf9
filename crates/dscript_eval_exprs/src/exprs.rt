//! Expressions: their steps, and then what they are made of.
ghost use Rattle.std.specs.Prelude.{Ok, map};
ghost use Rattle.dscript_program.specs.BoundTree.{to_holes, to_operands, to_parts};
ghost use Rattle.dscript_program.specs.Views.{expr_data, hole_data, operand_data, part_data};
ghost use Rattle.dscript_value.specs.Plain.{plain_of};
ghost use Rattle.dscript_eval_operators.specs.Operators as meaning;
ghost use Rattle.dscript_eval_meaning.specs.Evaluating.{answered};
ghost use Rattle.dscript_eval_frames.specs.Forms.{acts_at, chain_form, cond_form, path_form, postfix_form};
ghost use Rattle.dscript_eval_frames.specs.Forms.{rest_at, unary_form, value_at};
ghost use Rattle.dscript_eval_frames.specs.Keeps.{Comes, IsDone};
ghost use Rattle.dscript_eval_frames.specs.declared.work.ExprWork.TheVariants as expr;
ghost use Rattle.dscript_eval_frames.specs.declared.work.Work.TheVariants as works;

use crate::collections::{begin_list, begin_object};
use crate::given::at_once;
use crate::literals::{begin_literal, begin_path};
use crate::names::{arrow_value, name_value};
use bx_tree::Text;
use dscript_ast::{BinaryOp, PathKind, UnaryOp};
use dscript_eval_frames::{
    ExprWork, Literal, Machine, Stop, Work, expr_cost, operand_parts, text_of,
};
use dscript_eval_operators::{is_settled, is_true, operate, with_prefixes};
use dscript_program::{BoundExpr, BoundHole, BoundOperand, BoundPart};
use dscript_value::Value;

/// Evaluates an expression.
pub fn eval<'a>(machine: &mut Machine<'a>, e: &'a BoundExpr) -> Result<(), Stop>
    ensures { Comes result machine.old machine.new (λ v. value_at v (expr_data e.now)) }
{
    match machine.spend(expr_cost(e)) {
        Ok(()) => rest(machine, e),
        Err(stop) => Err(stop),
    }
}

// What is left of an expression once its steps are spent.
#[tactic(auto, using(dscript_program::proofs::NodeViews::bound_views))]
fn rest<'a>(machine: &mut Machine<'a>, e: &'a BoundExpr) -> Result<(), Stop>
    ensures { Comes result machine.old machine.new (λ v. rest_at v (expr_data e.now)) }
{
    match e {
        BoundExpr::Number(number) => machine.answer(Value::Number(*number)),
        BoundExpr::Str(text) => machine.finish(text_of(text)),
        BoundExpr::True => machine.answer(Value::Flag(true)),
        BoundExpr::False => machine.answer(Value::Flag(false)),
        BoundExpr::Undefined => machine.answer(Value::Undefined),
        BoundExpr::Cond(condition, then, other) => cond(machine, condition, then, other),
        BoundExpr::Chain(first, more) => chain(machine, first, more.as_slice()),
        BoundExpr::Unary(operators, operand) => unary(machine, operators.as_slice(), operand),
        BoundExpr::Name(target) => name_value(machine, *target),
        BoundExpr::Arrow(number) => arrow_value(machine, *number),
        BoundExpr::Postfix(e, parts) => postfix(machine, e, parts.as_slice()),
        BoundExpr::List(es) => begin_list(machine, es.as_slice()),
        BoundExpr::Object(ps) => begin_object(machine, ps.as_slice()),
        BoundExpr::Template(text, holes) => {
            begin_literal(machine, text, holes.as_slice(), Literal::Template)
        }
        BoundExpr::Path(letter, text, holes) => any_path(machine, *letter, text, holes.as_slice()),
    }
}

fn any_path<'a>(
    machine: &mut Machine<'a>,
    letter: PathKind,
    text: &'a Text,
    holes: &'a [BoundHole],
) -> Result<(), Stop>
    ensures { Comes result machine.old machine.new (λ v. path_form v.program (acts_at v) letter text.now
        (to_holes (map hole_data holes.now))) }
{
    match letter {
        PathKind::Relative => begin_literal(machine, text, holes, Literal::Relative),
        PathKind::Atom => begin_literal(machine, text, holes, Literal::Atom),
        PathKind::Path => begin_path(machine, PathKind::Path, text, holes),
        PathKind::File => begin_path(machine, PathKind::File, text, holes),
        PathKind::Directory => begin_path(machine, PathKind::Directory, text, holes),
    }
}

fn postfix<'a>(
    machine: &mut Machine<'a>,
    e: &'a BoundExpr,
    parts: &'a [BoundPart],
) -> Result<(), Stop>
    ensures { Comes result machine.old machine.new (λ v. postfix_form v.program (acts_at v) (expr_data e.now)
        (to_parts (map part_data parts.now))) }
{
    if at_once(machine, e) {
        return machine.push(Work::Expr(ExprWork::After(parts)));
    }
    machine.push_two(
        Work::Expr(ExprWork::Value(e)),
        Work::Expr(ExprWork::After(parts)),
    )
}

fn cond<'a>(
    machine: &mut Machine<'a>,
    condition: &'a BoundExpr,
    then: &'a BoundExpr,
    other: &'a BoundExpr,
) -> Result<(), Stop>
    ensures { Comes result machine.old machine.new (λ v. cond_form v.program (acts_at v) (expr_data
        condition.now) (expr_data then.now) (expr_data other.now)) }
{
    if at_once(machine, condition) {
        return choose(machine, then, other);
    }
    machine.push_two(
        Work::Expr(ExprWork::Value(condition)),
        Work::Expr(ExprWork::Choose(then, other)),
    )
}

fn chain<'a>(
    machine: &mut Machine<'a>,
    first: &'a BoundExpr,
    more: &'a [BoundOperand],
) -> Result<(), Stop>
    ensures { Comes result machine.old machine.new (λ v. chain_form v.program (acts_at v) (expr_data
        first.now) (to_operands (map operand_data more.now))) }
{
    if at_once(machine, first) {
        return operands(machine, more);
    }
    machine.push_two(
        Work::Expr(ExprWork::Value(first)),
        Work::Expr(ExprWork::Operands(more)),
    )
}

fn unary<'a>(
    machine: &mut Machine<'a>,
    operators: &'a [UnaryOp],
    operand: &'a BoundExpr,
) -> Result<(), Stop>
    ensures { Comes result machine.old machine.new (λ v. unary_form v.program (acts_at v) operators.now
        (expr_data operand.now)) }
{
    if at_once(machine, operand) {
        return prefix(machine, operators);
    }
    machine.push_two(
        Work::Expr(ExprWork::Value(operand)),
        Work::Expr(ExprWork::Prefix(operators)),
    )
}

// An expression, before what is left to be done.
fn next<'a>(machine: &mut Machine<'a>, e: &'a BoundExpr) -> Result<(), Stop>
    ensures { Comes result machine.old machine.new (λ v. value_at v (expr_data e.now)) }
{
    if at_once(machine, e) {
        return Ok(());
    }
    machine.push(Work::Expr(ExprWork::Value(e)))
}

/// One of two expressions, by the condition that is given.
pub fn choose<'a>(
    machine: &mut Machine<'a>,
    then: &'a BoundExpr,
    other: &'a BoundExpr,
) -> Result<(), Stop>
    ensures { IsDone result machine.old machine.new (works.Expr (expr.Choose then.entry other.entry)) }
{
    if is_true(&machine.given) {
        next(machine, then)
    } else {
        next(machine, other)
    }
}

/// The other operands of a chain, after the value so far, which is given.
pub fn operands<'a>(machine: &mut Machine<'a>, more: &'a [BoundOperand]) -> Result<(), Stop>
    ensures { IsDone result machine.old machine.new (works.Expr (expr.Operands more.entry)) }
{
    let Some((operand, others)) = more.split_first() else {
        return Ok(());
    };
    let (operator, e) = operand_parts(operand);
    if is_settled(operator, &machine.given) {
        return machine.push(Work::Expr(ExprWork::Operands(others)));
    }
    let left = machine.take();
    if at_once(machine, e) {
        let outcome = operated(machine, operator, &left, others);
        drop(left);
        return outcome;
    }
    machine.push_two(
        Work::Expr(ExprWork::Value(e)),
        Work::Expr(ExprWork::Operate(operator, left, others)),
    )
}

/// An operator at a left operand and the right one, which is given, and then the other operands.
pub fn operated<'a>(
    machine: &mut Machine<'a>,
    operator: BinaryOp,
    left: &Value,
    others: &'a [BoundOperand],
) -> Result<(), Stop>
    ensures { IsDone result machine.old machine.new
        (works.Expr (expr.Operate operator left.now others.entry)) }
{
    if others.is_empty() {
        return operated_last(machine, operator, left);
    }
    machine.push(Work::Expr(ExprWork::Operands(others)))?;
    let outcome = operate(machine.alloc, operator, left, &machine.given);
    machine.finish(outcome)
}

// The last operator of a chain at a left operand and the right one, which is given.
fn operated_last(machine: &mut Machine<'_>, operator: BinaryOp, left: &Value) -> Result<(), Stop>
    ensures { Comes result machine.old machine.new (λ v. answered (meaning.operated operator (plain_of
        left.now) v.given)) }
{
    let outcome = operate(machine.alloc, operator, left, &machine.given);
    machine.finish(outcome)
}

/// Operators before the operand that is given.
pub fn prefix<'a>(machine: &mut Machine<'a>, operators: &'a [UnaryOp]) -> Result<(), Stop>
    ensures { IsDone result machine.old machine.new (works.Expr (expr.Prefix operators.entry)) }
{
    let operand = machine.take();
    let outcome = with_prefixes(operators, operand);
    machine.finish(outcome)
}
