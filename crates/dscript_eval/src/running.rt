//! The loop of the machine.
ghost use Rattle.std.specs.Prelude.{◌≡◌, [], IfOk};
ghost use Rattle.dscript_eval_frames.specs.Keeps.{IsDone, PreservesAnswer};
ghost use Rattle.dscript_eval_frames.specs.Views.{seen};
ghost use Rattle.dscript_eval_frames.specs.Works.{comes};
ghost use Rattle.dscript_eval_frames.specs.declared.work.Work.TheVariants as works;

use crate::callbacks::{callbacks_from, came, close};
use crate::calls::{argument, arguments, leave};
use crate::parts::{after, after_member, index_value};
use crate::statements::{all, bind, branch, does, start, turns, unwind};
use dscript_eval_exprs::{
    choose, demands, eval, fields, first_hole, hole, item, items, keep, named_field, operands,
    operated, other_holes, prefix, spread_fields, spread_item,
};
use dscript_eval_frames::{CallWork, ExprWork, Machine, StmtWork, Stop, Work};

// Does a work of an expression.
fn turn_expr<'a>(machine: &mut Machine<'a>, work: ExprWork<'a>) -> Result<(), Stop>
    ensures { IsDone result machine.old machine.new (works.Expr work.entry) }
{
    match work {
        ExprWork::Value(e) => eval(machine, e),
        ExprWork::Choose(then, other) => choose(machine, then, other),
        ExprWork::Operands(more) => operands(machine, more),
        ExprWork::Operate(operator, left, others) => {
            let outcome = operated(machine, operator, &left, others);
            drop(left);
            outcome
        }
        ExprWork::Prefix(operators) => prefix(machine, operators),
        ExprWork::After(parts) => after(machine, parts),
        ExprWork::AfterMember(name, parts) => after_member(machine, name, parts),
        ExprWork::Index(subject) => {
            let outcome = index_value(machine, &subject);
            drop(subject);
            outcome
        }
        ExprWork::Items(es, done) => items(machine, es, done),
        ExprWork::Item(others, done) => item(machine, others, done),
        ExprWork::SpreadItem(others, done) => spread_item(machine, others, done),
        ExprWork::Fields(ps, done) => fields(machine, ps, done),
        ExprWork::Named(name, others, done) => named_field(machine, name, others, done),
        ExprWork::SpreadFields(others, done) => spread_fields(machine, others, done),
        ExprWork::FirstHole(letter, text, after, others) => {
            first_hole(machine, letter, text, after, others)
        }
        ExprWork::Holes(holes, text, literal) => other_holes(machine, holes, text, literal),
        ExprWork::Hole(after, others, text, literal) => hole(machine, after, others, text, literal),
    }
}

// Does a work of a call.
fn turn_call<'a>(machine: &mut Machine<'a>, work: CallWork<'a>) -> Result<(), Stop>
    ensures { IsDone result machine.old machine.new (works.Call work.entry) }
{
    match work {
        CallWork::Arguments(es, done, for_call) => arguments(machine, es, done, for_call),
        CallWork::Argument(others, done, for_call) => argument(machine, others, done, for_call),
        CallWork::Loop(callbacks) => callbacks_from(machine, callbacks),
        CallWork::Came(callbacks) => came(machine, callbacks),
    }
}

// Does a work of a statement.
fn turn_stmt<'a>(machine: &mut Machine<'a>, work: StmtWork<'a>) -> Result<(), Stop>
    ensures { IsDone result machine.old machine.new (works.Stmt work.entry) }
{
    match work {
        StmtWork::Does(statement) => does(machine, statement),
        StmtWork::All(statements) => all(machine, statements),
        StmtWork::Bind(local) => bind(machine, local),
        StmtWork::Branch(then, other) => branch(machine, then, other),
        StmtWork::Start(local, body) => start(machine, local, body),
        StmtWork::Turns(local, body, items, next) => turns(machine, local, body, items, next),
        StmtWork::Return => unwind(machine),
        StmtWork::Forget => machine.forget(),
        StmtWork::Demands(file, decl) => demands(machine, file, decl),
    }
}

// Does a work.
fn turn<'a>(machine: &mut Machine<'a>, work: Work<'a>) -> Result<(), Stop>
    ensures { IsDone result machine.old machine.new work.entry }
{
    match work {
        Work::Expr(work) => turn_expr(machine, work),
        Work::Call(work) => turn_call(machine, work),
        Work::Stmt(work) => turn_stmt(machine, work),
        Work::Leave(frame) => leave(machine, frame),
        Work::Keep(file, decl, frame) => keep(machine, file, decl, frame),
        Work::Close => close(machine),
    }
}

/// Does all work.
pub fn run(machine: &mut Machine<'_>) -> Result<(), Stop>
    ensures kept { PreservesAnswer result (comes (seen machine.old)) (seen machine.new) }
    ensures done { IfOk result (λ _. (seen machine.new).work ≡ []) }
{
    'turns: for _ in 0..u64::MAX {
        match machine.next_work() {
            Some(work) => match turn(machine, work) {
                Ok(()) => {}
                Err(stop) => return Err(stop),
            },
            None => return Ok(()),
        }
    }
    Err(Stop::Memory)
}
