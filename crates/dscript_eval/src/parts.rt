//! Members, indices and calls after a value.
ghost use Rattle.std.specs.Prelude.{◌≡◌, ◌∷◌, map, true, false, MatchOption};
ghost use Rattle.dscript_program.specs.BoundTree as tree;
ghost use Rattle.dscript_program.specs.BoundTree.{more_parts, to_exprs, to_parts};
ghost use Rattle.dscript_program.specs.Views.{expr_data, part_data};
ghost use Rattle.dscript_sdk.specs.Members.{is_function_named, member_of};
ghost use Rattle.dscript_eval_meaning.specs.Evaluating.{answered};
ghost use Rattle.dscript_eval_frames.specs.Forms.{acts_at, begins_with_call, call_form, method_form};
ghost use Rattle.dscript_eval_frames.specs.Forms.{method_step_form, part_form};
ghost use Rattle.dscript_eval_frames.specs.Views.{seen};
ghost use Rattle.dscript_eval_frames.specs.Keeps.{Comes, IsDone, PreservesAnswer};
ghost use Rattle.dscript_eval_frames.specs.Works.{comes_with};
ghost use Rattle.dscript_eval_frames.specs.declared.work.ExprWork.TheVariants as expr;
ghost use Rattle.dscript_eval_frames.specs.declared.work.Work.TheVariants as works;

use crate::calls::arguments;
use bx_tree::Text;
use dscript_eval_exprs::at_once;
use dscript_eval_frames::{ExprWork, Machine, Stop, Use, Work};
use dscript_eval_operators::index;
use dscript_program::{BoundExpr, BoundPart};
use dscript_sdk::{has_function, member};
use dscript_value::Value;

// The arguments of the first part and the other parts, if the first is a call.
#[tactic(auto, using(dscript_program::proofs::NodeViews::bound_views))]
fn called_parts(parts: &[BoundPart]) -> Option<(&[BoundExpr], &[BoundPart])>
    ensures { MatchOption result
        (begins_with_call (to_parts (map part_data parts.now)) ≡ false)
        (λ it. to_parts (map part_data parts.now) ≡ more_parts
        (tree.Call (to_exprs (map expr_data it.0.now))) (to_parts (map part_data it.1.now))) }
{
    let (first, others) = parts.split_first()?;
    match first {
        BoundPart::Call(args) => Some((args.as_slice(), others)),
        BoundPart::Member(_) | BoundPart::Index(_) => None,
    }
}

/// The parts after the value that is given.
pub fn after<'a>(machine: &mut Machine<'a>, parts: &'a [BoundPart]) -> Result<(), Stop>
    ensures { IsDone result machine.old machine.new (works.Expr (expr.After parts.entry)) }
{
    let Some((first, others)) = parts.split_first() else {
        return Ok(());
    };
    match machine.spend(1) {
        Ok(()) => part(machine, first, others),
        Err(stop) => Err(stop),
    }
}

// A part after the value that is given, once its step is spent, and then the others.
#[tactic(auto, using(dscript_program::proofs::NodeViews::bound_views))]
fn part<'a>(
    machine: &mut Machine<'a>,
    part: &'a BoundPart,
    others: &'a [BoundPart],
) -> Result<(), Stop>
    ensures { Comes result machine.old machine.new (λ v. part_form v.program (acts_at v) v.given (part_data
        part.now) (to_parts (map part_data others.now))) }
{
    match part {
        BoundPart::Member(name) => after_member(machine, name, others),
        BoundPart::Index(e) => before_index(machine, e, others),
        BoundPart::Call(args) => before_apply(machine, args.as_slice(), others),
    }
}

// The call of the value that is given, and then the other parts.
fn before_apply<'a>(
    machine: &mut Machine<'a>,
    args: &'a [BoundExpr],
    others: &'a [BoundPart],
) -> Result<(), Stop>
    ensures { Comes result machine.old machine.new (λ v. part_form v.program (acts_at v) v.given (tree.Call
        (to_exprs (map expr_data args.now))) (to_parts (map part_data others.now))) }
{
    let f = machine.take();
    before_call(machine, args, Use::Apply(f), others)
}

// The index in brackets after the value that is given, and then the other parts.
fn before_index<'a>(
    machine: &mut Machine<'a>,
    e: &'a BoundExpr,
    others: &'a [BoundPart],
) -> Result<(), Stop>
    ensures { Comes result machine.old machine.new (λ v. part_form v.program (acts_at v) v.given (tree.Index
        (expr_data e.now)) (to_parts (map part_data others.now))) }
{
    let subject = machine.take();
    if at_once(machine, e) {
        let outcome = index_then(machine, &subject, others);
        drop(subject);
        return outcome;
    }
    machine.push_three(
        Work::Expr(ExprWork::Value(e)),
        Work::Expr(ExprWork::Index(subject)),
        Work::Expr(ExprWork::After(others)),
    )
}

// What a value has at the index that is given, and then the other parts.
fn index_then<'a>(
    machine: &mut Machine<'a>,
    subject: &Value,
    others: &'a [BoundPart],
) -> Result<(), Stop>
    ensures { PreservesAnswer result (comes_with (works.Expr (expr.Index subject.now)) (record (seen machine.old) {
      work = works.Expr (expr.After others.entry) ∷ (seen machine.old).work;
    })) (seen machine.new) }
{
    if others.is_empty() {
        return index_value(machine, subject);
    }
    match machine.push(Work::Expr(ExprWork::After(others))) {
        Ok(()) => index_value(machine, subject),
        Err(stop) => Err(stop),
    }
}

// The arguments of a call, the call, and then the other parts.
fn before_call<'a>(
    machine: &mut Machine<'a>,
    args: &'a [BoundExpr],
    for_call: Use,
    others: &'a [BoundPart],
) -> Result<(), Stop>
    ensures { Comes result machine.old machine.new (λ v. call_form v.program (acts_at v) (to_exprs (map
        expr_data args.now)) for_call (to_parts (map part_data others.now))) }
{
    let done = Vec::new(machine.alloc);
    if others.is_empty() {
        return arguments(machine, args, done, for_call);
    }
    match machine.push(Work::Expr(ExprWork::After(others))) {
        Ok(()) => arguments(machine, args, done, for_call),
        Err(stop) => {
            drop(for_call);
            Err(stop)
        }
    }
}

/// The parts after a member of the value that is given.
pub fn after_member<'a>(
    machine: &mut Machine<'a>,
    name: &'a Text,
    parts: &'a [BoundPart],
) -> Result<(), Stop>
    ensures { IsDone result machine.old machine.new (works.Expr (expr.AfterMember name.entry parts.entry)) }
{
    match called_parts(parts) {
        Some((args, others)) => {
            if has_function(&machine.given, name) {
                before_method(machine, name, args, others)
            } else {
                member_value(machine, name, parts)
            }
        }
        None => member_value(machine, name, parts),
    }
}

// A member of the value that is given, which is not called as a function, and then the parts.
fn member_value<'a>(
    machine: &mut Machine<'a>,
    name: &'a Text,
    parts: &'a [BoundPart],
) -> Result<(), Stop>
    ensures { (begins_with_call (to_parts (map part_data parts.now)) ≡ true
        → is_function_named (seen machine.old).state.calls (seen machine.old).given name.now ≡ false)
        → IsDone result machine.old machine.new (works.Expr (expr.AfterMember name.entry parts.entry)) }
{
    if parts.is_empty() {
        return member_last(machine, name);
    }
    match machine.push(Work::Expr(ExprWork::After(parts))) {
        Ok(()) => member_last(machine, name),
        Err(stop) => Err(stop),
    }
}

// A member of the value that is given.
fn member_last(machine: &mut Machine<'_>, name: &Text) -> Result<(), Stop>
    ensures { Comes result machine.old machine.new
        (λ v. answered (member_of v.state.calls v.given name.now)) }
{
    let outcome = member(machine.alloc, &machine.calls, &machine.given, name);
    machine.finish(outcome)
}

// The call of a member function of the value that is given, and then the other parts.
fn before_method<'a>(
    machine: &mut Machine<'a>,
    name: &Text,
    args: &'a [BoundExpr],
    others: &'a [BoundPart],
) -> Result<(), Stop>
    ensures { Comes result machine.old machine.new (λ v. method_step_form v.program (acts_at v) v.given
        name.now (to_exprs (map expr_data args.now)) (to_parts (map part_data others.now))) }
{
    match machine.spend(1) {
        Ok(()) => before_method_call(machine, name, args, others),
        Err(stop) => Err(stop),
    }
}

// The arguments of a member function of the value that is given, its call, and then the other parts.
fn before_method_call<'a>(
    machine: &mut Machine<'a>,
    name: &Text,
    args: &'a [BoundExpr],
    others: &'a [BoundPart],
) -> Result<(), Stop>
    ensures { Comes result machine.old machine.new (λ v. method_form v.program (acts_at v) v.given name.now
        (to_exprs (map expr_data args.now)) (to_parts (map part_data others.now))) }
{
    let name = name.share()?;
    let subject = machine.take();
    before_call(machine, args, Use::Method(subject, name), others)
}

/// What a value has at the index that is given.
pub fn index_value(machine: &mut Machine<'_>, subject: &Value) -> Result<(), Stop>
    ensures { IsDone result machine.old machine.new (works.Expr (expr.Index subject.now)) }
{
    let outcome = index(subject, &machine.given);
    machine.finish(outcome)
}
