//! Calls of functions, ambient calls and members.
ghost use Rattle.std.specs.Prelude.{◌≡◌, ◌<◌, ◌∷◌, map, None, Some, MatchOption};
ghost use Rattle.dscript_program.specs.Views.{body_data};
ghost use Rattle.dscript_value.specs.Plain.{item_list, plain_function, plain_of};
ghost use Rattle.dscript_eval_meaning.specs.Acts.{Call};
ghost use Rattle.dscript_eval_meaning.specs.Calls as calls;
ghost use Rattle.dscript_eval_meaning.specs.Calls.{applied, call_of_function};
ghost use Rattle.dscript_eval_frames.specs.Frames.{frame_of};
ghost use Rattle.dscript_eval_frames.specs.Forms.{acts_at};
ghost use Rattle.dscript_eval.specs.Bodies.{body_comes};
ghost use Rattle.dscript_eval_frames.specs.Keeps.{Comes, IsDone, PreservesAnswer};
ghost use Rattle.dscript_eval_frames.specs.Views.{seen};
ghost use Rattle.dscript_eval_frames.specs.Works.{callee_in, comes, function_of, used};
ghost use Rattle.dscript_eval_frames.specs.declared.work.CallWork.TheVariants as call;
ghost use Rattle.dscript_eval_frames.specs.declared.work.ExprWork.TheVariants as expr;
ghost use Rattle.dscript_eval_frames.specs.declared.work.Work.TheVariants as works;
ghost use Rattle.dscript_value.specs.declared.parts.Callee.TheVariants as callees;

use crate::callbacks::callbacks;
use bx_tree::Text;
use dscript_eval_exprs::at_once;
use dscript_eval_frames::{
    CallWork, ExprWork, Frame, Machine, StmtWork, Stop, Use, Work, add_value, path_of, stop_of,
};
use dscript_eval_meaning::EvalKind;
use dscript_program::{Ambient, Body, BoundExpr, Function};
use dscript_sdk::{Site, call, is_callback, method};
use dscript_value::{Callee, FunctionRef, Value};

// The function that a value is, if it is one.
fn function_in(value: &Value) -> Option<&FunctionRef>
    ensures { MatchOption result
        (callee_in (plain_of value.now) ≡ None)
        (λ function. callee_in (plain_of value.now) ≡ Some (function_of function.now)) }
{
    match value {
        Value::Function(function) => Some(function),
        _ => None,
    }
}

/// The other arguments of a call, after these.
pub fn arguments<'a>(
    machine: &mut Machine<'a>,
    es: &'a [BoundExpr],
    done: Vec<Value>,
    for_call: Use,
) -> Result<(), Stop>
    ensures { IsDone result machine.old machine.new (works.Call (call.Arguments es.entry done for_call)) }
{
    let mut made = done;
    let mut left = es;
    'arguments: while let Some((e, others)) = left.split_first() {
        if !at_once(machine, e) {
            return arguments_by_work(machine, left, made, for_call);
        }
        let argument = machine.take();
        match add_value(&mut made, argument) {
            Ok(()) => left = others,
            Err(_) => {
                drop(for_call);
                return Err(Stop::Memory);
            }
        }
    }
    arguments_by_work(machine, left, made, for_call)
}

// The other arguments of a call, after these. The first is the next work.
fn arguments_by_work<'a>(
    machine: &mut Machine<'a>,
    es: &'a [BoundExpr],
    done: Vec<Value>,
    for_call: Use,
) -> Result<(), Stop>
    ensures { IsDone result machine.old machine.new (works.Call (call.Arguments es.entry done for_call)) }
{
    match es.split_first() {
        Some((e, others)) => machine.push_two(
            Work::Expr(ExprWork::Value(e)),
            Work::Call(CallWork::Argument(others, done, for_call)),
        ),
        None => {
            let outcome = use_arguments(machine, &for_call, done.as_slice());
            drop(for_call);
            outcome
        }
    }
}

/// The argument that is given, and then the others.
pub fn argument<'a>(
    machine: &mut Machine<'a>,
    others: &'a [BoundExpr],
    done: Vec<Value>,
    for_call: Use,
) -> Result<(), Stop>
    ensures { IsDone result machine.old machine.new (works.Call (call.Argument others.entry done for_call)) }
{
    let mut done = done;
    let argument = machine.take();
    match add_value(&mut done, argument) {
        Ok(()) => arguments(machine, others, done, for_call),
        Err(_) => {
            drop(for_call);
            Err(Stop::Memory)
        }
    }
}

fn use_arguments(machine: &mut Machine<'_>, for_call: &Use, args: &[Value]) -> Result<(), Stop>
    ensures { Comes result machine.old machine.new (λ v. used v.program (acts_at v) for_call.now (map plain_of
        args.now)) }
{
    match for_call {
        Use::Apply(f) => apply(machine, f, args),
        Use::Method(x, name) => call_method(machine, x, name, args),
    }
}

// The call of a value, which must be a function.
fn apply(machine: &mut Machine<'_>, f: &Value, args: &[Value]) -> Result<(), Stop>
    ensures { Comes result machine.old machine.new (λ v. applied v.program (acts_at v) (plain_of f.now) (map
        plain_of args.now)) }
{
    match function_in(f) {
        Some(function) => call_function(machine, function, args),
        None => Err(machine.fault(EvalKind::Kind)),
    }
}

fn call_function(
    machine: &mut Machine<'_>,
    function: &FunctionRef,
    args: &[Value],
) -> Result<(), Stop>
    ensures { Comes result machine.old machine.new (λ v. call_of_function v.program (acts_at v) (plain_function
        function.now).callee (item_list (plain_function function.now).held.items) (map plain_of
        args.now)) }
{
    call_of(machine, function.callee(), function, args)
}

// The call of a function, by what it calls.
fn call_of(
    machine: &mut Machine<'_>,
    callee: &Callee,
    function: &FunctionRef,
    args: &[Value],
) -> Result<(), Stop>
    ensures { Comes result machine.old machine.new (λ v. call_of_function v.program (acts_at v) callee.now (item_list
        (plain_function function.now).held.items) (map plain_of args.now)) }
{
    match callee {
        Callee::Place(number) => open_call(machine, *number, function, args),
        Callee::Ambient(name) => ambient(machine, *name, args),
        Callee::Member(name) => held_method(machine, function.held(), name, args),
    }
}

/// Opens the call of a function that has a body.
pub fn open_call(
    machine: &mut Machine<'_>,
    number: u32,
    function: &FunctionRef,
    args: &[Value],
) -> Result<(), Stop>
    ensures { Comes result machine.old machine.new (λ v. acts_at v (Call (callees.Place number) (item_list
        (plain_function function.now).held.items) (map plain_of args.now))) }
{
    if machine.openable == 0 {
        return Err(machine.fault(EvalKind::Depth));
    }
    let Some(code) = machine.code(number) else {
        return Err(machine.fault(EvalKind::Kind));
    };
    let held = function.share()?;
    let frame = Frame::of_function(machine.alloc, code, Some(held), args)?;
    begin(machine, &code.function.body, frame)
}

// Begins a body in a frame of its own.
fn begin<'a>(machine: &mut Machine<'a>, body: &'a Body, frame: Frame<'a>) -> Result<(), Stop>
    requires { 0 < machine.old.openable }
    ensures { PreservesAnswer result (body_comes (body_data body.now) (frame_of frame.entry) (seen machine.old))
        (seen machine.new) }
{
    let before = machine.enter(frame);
    match body {
        Body::Expr(e) => begin_value(machine, e, before),
        Body::Block(statements) => machine.push_two(
            Work::Stmt(StmtWork::All(statements.as_slice())),
            Work::Leave(before),
        ),
    }
}

// Begins a body that is an expression. The frame from before is back after it.
fn begin_value<'a>(
    machine: &mut Machine<'a>,
    e: &'a BoundExpr,
    before: Frame<'a>,
) -> Result<(), Stop>
    ensures { PreservesAnswer result (comes (record (seen machine.old) {
      work = works.Expr (expr.Value e.entry) ∷ works.Leave before.entry ∷ (seen machine.old).work;
    })) (seen machine.new) }
{
    if at_once(machine, e) {
        return leave(machine, before);
    }
    machine.push_two(Work::Expr(ExprWork::Value(e)), Work::Leave(before))
}

/// A body ends with the value that is given, and the frame from before is back.
pub fn leave<'a>(machine: &mut Machine<'a>, frame: Frame<'a>) -> Result<(), Stop>
    ensures { IsDone result machine.old machine.new (works.Leave frame.entry) }
{
    machine.end_call()?;
    machine.restore(frame);
    Ok(())
}

/// An ambient call, in the file of the running body.
pub fn ambient(machine: &mut Machine<'_>, name: Ambient, args: &[Value]) -> Result<(), Stop>
    ensures { Comes result machine.old machine.new
        (λ v. calls.ambient v.program name (map plain_of args.now)) }
{
    let file = path_of(machine.alloc, machine.program, machine.frame.file)?;
    match call(
        machine.alloc,
        &mut machine.calls,
        &Site { file },
        name,
        args,
    ) {
        Ok(value) => machine.answer(value),
        Err(fault) => Err(stop_of(fault, machine.frame.file)),
    }
}

/// The call of the member function of the value that a function holds.
pub fn held_method(
    machine: &mut Machine<'_>,
    held: &[Value],
    name: &Text,
    args: &[Value],
) -> Result<(), Stop>
    ensures { Comes result machine.old machine.new (λ v. calls.held_method (acts_at v) (map plain_of held.now)
        name.now (map plain_of args.now)) }
{
    match held.split_first() {
        Some((x, _)) => call_method(machine, x, name, args),
        None => Err(machine.fault(EvalKind::Kind)),
    }
}

// The call of a member function of a value.
fn call_method(
    machine: &mut Machine<'_>,
    x: &Value,
    name: &Text,
    args: &[Value],
) -> Result<(), Stop>
    ensures { Comes result machine.old machine.new (λ v. calls.method (acts_at v) (plain_of x.now) name.now
        (map plain_of args.now)) }
{
    if is_callback(x, name) {
        return callbacks(machine, x, name, args);
    }
    match method(machine.alloc, &mut machine.calls, x, name, args) {
        Ok(value) => machine.answer(value),
        Err(fault) => Err(stop_of(fault, machine.frame.file)),
    }
}
