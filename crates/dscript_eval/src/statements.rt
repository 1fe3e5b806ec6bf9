//! Statements.
ghost use Rattle.std.specs.Prelude.{◌≡◌, Some, drop, option_map};
ghost use Rattle.dscript_ast.specs.declared.expr.LoopKind.{LoopKind as AnyLoop};
ghost use Rattle.dscript_program.specs.BoundTree as tree;
ghost use Rattle.dscript_program.specs.BoundTree.{to_stmt};
ghost use Rattle.dscript_program.specs.Views.{expr_data, stmt_data};
ghost use Rattle.dscript_value.specs.Plain as plain;
ghost use Rattle.dscript_value.specs.Plain.{item_list, plain_of, plain_values};
ghost use Rattle.dscript_eval_meaning.specs.Evaluating.{gives};
ghost use Rattle.dscript_eval_meaning.specs.Statements.{Back};
ghost use Rattle.dscript_eval_frames.specs.Forms.{acts_at, bind_form, let_form, return_form, stmt_form, turn_form, unset_form};
ghost use Rattle.dscript_eval.specs.TurnSteps.{turn_step_form};
ghost use Rattle.dscript_eval_frames.specs.Keeps.{Goes, IsDone, PreservesAnswer};
ghost use Rattle.dscript_eval_frames.specs.Views.{seen};
ghost use Rattle.dscript_eval_frames.specs.Works.{returned_by};
ghost use Rattle.dscript_eval_frames.specs.declared.work.StmtWork.TheVariants as stmt;
ghost use Rattle.dscript_eval_frames.specs.declared.work.Work.TheVariants as works;

use crate::calls::leave;
use crate::statements_now::statement_at_once;
use dscript_eval_exprs::at_once;
use dscript_eval_frames::{
    ExprWork, Machine, StmtWork, Stop, Work, item_at, shared_items, stmt_cost, stop_of,
};
use dscript_eval_operators::is_true;
use dscript_program::{BoundExpr, BoundStmt};
use dscript_value::{Value, Values};

// The statement after `else`, if there is one.
fn other_of(other: &Option<Box<BoundStmt>>) -> Option<&BoundStmt>
    ensures { option_map (λ o. stmt_data o.now) result ≡ option_map (λ b. stmt_data b.value) other.now }
{
    match other {
        Some(statement) => Some(statement),
        None => None,
    }
}

/// A whole statement.
pub fn does<'a>(machine: &mut Machine<'a>, statement: &'a BoundStmt) -> Result<(), Stop>
    ensures { IsDone result machine.old machine.new (works.Stmt (stmt.Does statement.entry)) }
{
    match machine.spend(stmt_cost(statement)) {
        Ok(()) => rest_of(machine, statement),
        Err(stop) => Err(stop),
    }
}

// What is left of a statement once its step is spent.
#[tactic(auto, using(dscript_program::proofs::NodeViews::bound_views))]
fn rest_of<'a>(machine: &mut Machine<'a>, statement: &'a BoundStmt) -> Result<(), Stop>
    ensures { Goes result machine.old machine.new (λ v. stmt_form v.program (acts_at v) (stmt_data
        statement.now)) }
{
    match statement {
        BoundStmt::Const(local, _, e) => bind_to(machine, *local, e),
        BoundStmt::Let(local, _, value) => let_local(machine, *local, value),
        BoundStmt::Assign(local, e) => bind_to(machine, *local, e),
        BoundStmt::If(condition, then, other) => branch_by(
            machine,
            condition,
            then,
            other_of(other),
        ),
        BoundStmt::For(_, local, list, body) => loop_over(machine, *local, list, body),
        BoundStmt::Return(value) => return_from(machine, value),
        BoundStmt::Value(e) => value_unused(machine, e),
        BoundStmt::Block(statements) => all(machine, statements.as_slice()),
        BoundStmt::Empty => machine.forget(),
    }
}

// A local holds the value of an expression.
fn bind_to<'a>(machine: &mut Machine<'a>, local: u32, e: &'a BoundExpr) -> Result<(), Stop>
    ensures { Goes result machine.old machine.new (λ v. bind_form v.program (acts_at v) local (expr_data
        e.now)) }
{
    if at_once(machine, e) {
        return bind(machine, local);
    }
    machine.push_two(
        Work::Expr(ExprWork::Value(e)),
        Work::Stmt(StmtWork::Bind(local)),
    )
}

// A local holds the value of an expression, or no value yet.
fn let_local<'a>(
    machine: &mut Machine<'a>,
    local: u32,
    value: &'a Option<BoundExpr>,
) -> Result<(), Stop>
    ensures { Goes result machine.old machine.new (λ v. let_form v.program (acts_at v) local
        (option_map expr_data value.now)) }
{
    match value {
        Some(e) => bind_to(machine, local, e),
        None => bind_undefined(machine, local),
    }
}

// A local holds no value yet.
fn bind_undefined(machine: &mut Machine<'_>, local: u32) -> Result<(), Stop>
    ensures { Goes result machine.old machine.new (λ v. unset_form local) }
{
    machine.give_undefined();
    bind(machine, local)
}

// One of two statements, by the value of a condition.
fn branch_by<'a>(
    machine: &mut Machine<'a>,
    condition: &'a BoundExpr,
    then: &'a BoundStmt,
    other: Option<&'a BoundStmt>,
) -> Result<(), Stop>
    ensures { Goes result machine.old machine.new (λ v. stmt_form v.program (acts_at v) (tree.If (expr_data
        condition.now) (stmt_data then.now) (to_stmt (option_map (λ o. stmt_data o.now) other.entry)))) }
{
    if at_once(machine, condition) {
        return branch(machine, then, other);
    }
    machine.push_two(
        Work::Expr(ExprWork::Value(condition)),
        Work::Stmt(StmtWork::Branch(then, other)),
    )
}

// A loop over the value of an expression.
fn loop_over<'a>(
    machine: &mut Machine<'a>,
    local: u32,
    list: &'a BoundExpr,
    body: &'a BoundStmt,
) -> Result<(), Stop>
    ensures { (kind : AnyLoop) → Goes result machine.old machine.new (λ v. stmt_form v.program (acts_at v)
        (tree.For kind local (expr_data list.now) (stmt_data body.now))) }
{
    if at_once(machine, list) {
        return start(machine, local, body);
    }
    machine.push_two(
        Work::Expr(ExprWork::Value(list)),
        Work::Stmt(StmtWork::Start(local, body)),
    )
}

// The body returns the value of an expression, or no value.
fn return_from<'a>(machine: &mut Machine<'a>, value: &'a Option<BoundExpr>) -> Result<(), Stop>
    ensures { Goes result machine.old machine.new (λ v. return_form v.program (acts_at v)
        (option_map expr_data value.now)) }
{
    match value {
        Some(e) => return_value(machine, e),
        None => return_undefined(machine),
    }
}

// The body returns the value of an expression.
fn return_value<'a>(machine: &mut Machine<'a>, e: &'a BoundExpr) -> Result<(), Stop>
    ensures { Goes result machine.old machine.new (λ v. stmt_form v.program (acts_at v) (tree.Return (Some
        (expr_data e.now)))) }
{
    if at_once(machine, e) {
        return unwind(machine);
    }
    machine.push_two(Work::Expr(ExprWork::Value(e)), Work::Stmt(StmtWork::Return))
}

// The value of an expression is not used.
fn value_unused<'a>(machine: &mut Machine<'a>, e: &'a BoundExpr) -> Result<(), Stop>
    ensures { Goes result machine.old machine.new (λ v. stmt_form v.program (acts_at v) (tree.Value (expr_data
        e.now))) }
{
    machine.push_two(Work::Expr(ExprWork::Value(e)), Work::Stmt(StmtWork::Forget))
}

// The body returns without a value.
fn return_undefined(machine: &mut Machine<'_>) -> Result<(), Stop>
    ensures { Goes result machine.old machine.new (λ v. gives (Back plain.Undefined)) }
{
    machine.give_undefined();
    unwind(machine)
}

/// Statements, one after another.
pub fn all<'a>(machine: &mut Machine<'a>, statements: &'a [BoundStmt]) -> Result<(), Stop>
    ensures { IsDone result machine.old machine.new (works.Stmt (stmt.All statements.entry)) }
{
    let mut left = statements;
    'statements: while let Some((first, others)) = left.split_first() {
        if !statement_at_once(machine, first) {
            return one_by_one(machine, left);
        }
        left = others;
    }
    machine.forget()
}

// Statements, one after another, the first of which is the next work.
fn one_by_one<'a>(machine: &mut Machine<'a>, statements: &'a [BoundStmt]) -> Result<(), Stop>
    ensures { IsDone result machine.old machine.new (works.Stmt (stmt.All statements.entry)) }
{
    match statements.split_first() {
        Some((first, others)) => {
            if others.is_empty() {
                return machine.push(Work::Stmt(StmtWork::Does(first)));
            }
            machine.push_two(
                Work::Stmt(StmtWork::Does(first)),
                Work::Stmt(StmtWork::All(others)),
            )
        }
        None => machine.forget(),
    }
}

/// A local holds the value that is given.
pub fn bind(machine: &mut Machine<'_>, local: u32) -> Result<(), Stop>
    ensures { IsDone result machine.old machine.new (works.Stmt (stmt.Bind local)) }
{
    let value = machine.take();
    machine.frame.bind(local, value)?;
    Ok(())
}

/// One of two statements, by the condition that is given.
pub fn branch<'a>(
    machine: &mut Machine<'a>,
    then: &'a BoundStmt,
    other: Option<&'a BoundStmt>,
) -> Result<(), Stop>
    ensures { IsDone result machine.old machine.new (works.Stmt (stmt.Branch then.entry other.entry)) }
{
    if is_true(&machine.given) {
        return machine.push(Work::Stmt(StmtWork::Does(then)));
    }
    match other {
        Some(other) => machine.push(Work::Stmt(StmtWork::Does(other))),
        None => machine.forget(),
    }
}

/// A loop over the list that is given.
pub fn start<'a>(machine: &mut Machine<'a>, local: u32, body: &'a BoundStmt) -> Result<(), Stop>
    ensures { IsDone result machine.old machine.new (works.Stmt (stmt.Start local body.entry)) }
{
    match shared_items(&machine.given) {
        Ok(items) => machine.push(Work::Stmt(StmtWork::Turns(local, body, items, 0))),
        Err(fault) => Err(stop_of(fault, machine.frame.file)),
    }
}

/// The turns of a loop, from an item on.
pub fn turns<'a>(
    machine: &mut Machine<'a>,
    local: u32,
    body: &'a BoundStmt,
    items: Values,
    next: usize,
) -> Result<(), Stop>
    ensures { IsDone result machine.old machine.new (works.Stmt (stmt.Turns local body.entry items next)) }
{
    let found = item_at(&items, next)?;
    match found {
        Some((item, following)) => turn_of(machine, item, local, body, items, following),
        None => machine.forget(),
    }
}

// A turn with an item, and then those from another item on.
fn turn_of<'a>(
    machine: &mut Machine<'a>,
    item: Value,
    local: u32,
    body: &'a BoundStmt,
    items: Values,
    next: usize,
) -> Result<(), Stop>
    ensures { Goes result machine.old machine.new (λ v. turn_step_form v.program (acts_at v) local
        (stmt_data body.now) (plain_of item) (drop next (item_list (plain_values items).items))) }
{
    match machine.spend(1) {
        Ok(()) => turn_with(machine, item, local, body, items, next),
        Err(stop) => {
            drop(item);
            Err(stop)
        }
    }
}

// A turn with an item, once its step is spent, and then those from another item on.
fn turn_with<'a>(
    machine: &mut Machine<'a>,
    item: Value,
    local: u32,
    body: &'a BoundStmt,
    items: Values,
    next: usize,
) -> Result<(), Stop>
    ensures { Goes result machine.old machine.new (λ v. turn_form v.program (acts_at v) local (stmt_data
        body.now) (plain_of item) (drop next (item_list (plain_values items).items))) }
{
    machine.frame.bind(local, item)?;
    match machine.push(Work::Stmt(StmtWork::Turns(local, body, items, next))) {
        Ok(()) => does(machine, body),
        Err(stop) => Err(stop),
    }
}

/// The body returns the value that is given.
pub fn unwind(machine: &mut Machine<'_>) -> Result<(), Stop>
    ensures { PreservesAnswer result (returned_by (seen machine.old).given (seen machine.old)) (seen machine.new) }
{
    'work: while let Some(work) = machine.next_work() {
        match work {
            Work::Leave(frame) => return leave(machine, frame),
            other => drop(other),
        }
    }
    Ok(())
}
