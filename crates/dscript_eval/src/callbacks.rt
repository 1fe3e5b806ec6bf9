//! The members of lists that call functions.
ghost use Rattle.std.specs.Prelude.{◌≡◌, ◌≢◌, ◌+◌, ◌∷◌, ◌++◌, [], true, pos, map, IfOk, MatchResult};
ghost use Rattle.dscript_value.specs.Plain as plain;
ghost use Rattle.dscript_value.specs.Plain.{item_list, plain_function, plain_of, plain_values};
ghost use Rattle.dscript_sdk_members.specs.Names.{member_named};
ghost use Rattle.dscript_sdk.specs.Members.{is_callback_named};
ghost use Rattle.dscript_value.specs.declared.parts.Callee.TheVariants as callees;
ghost use Rattle.dscript_eval_meaning.specs.Acts.{Call};
ghost use Rattle.dscript_eval_meaning.specs.Callbacks as meaning;
ghost use Rattle.dscript_eval_meaning.specs.Callbacks.{called_back};
ghost use Rattle.dscript_eval_meaning.specs.Calls.{items_of};
ghost use Rattle.dscript_eval.specs.AtOnce.{AreLeft};
ghost use Rattle.dscript_eval.specs.CallbackArgs.{AreNextArgs, args_of, kind_named, loop_form};
ghost use Rattle.dscript_eval_frames.specs.Forms.{acts_at, each_form};
ghost use Rattle.dscript_eval_frames.specs.Keeps.{Comes, IsDone};
ghost use Rattle.dscript_eval_frames.specs.Views.{seen};
ghost use Rattle.dscript_eval_frames.specs.Works.{comes_with, function_of, item_of, items_from};
ghost use Rattle.dscript_eval_frames.specs.declared.stop.Stop.TheVariants as stops;
ghost use Rattle.dscript_eval_frames.specs.declared.work.Callback.TheVariants as kinds;
ghost use Rattle.dscript_eval_frames.specs.declared.work.CallWork.TheVariants as call;
ghost use Rattle.dscript_eval_frames.specs.declared.work.Work.TheVariants as works;

use crate::calls::{ambient, held_method, open_call};
use crate::calls_now::call_at_once;
use bx_tree::{Memory, Text};
use dscript_eval_frames::{
    CallWork, Callback, Callbacks, Machine, Stop, Work, add_value, item_ref, push_item,
    shared_items, stop_of,
};
use dscript_eval_meaning::EvalKind;
use dscript_eval_operators::{add_items, callback, is_true, reduction};
use dscript_program::Ambient;
use dscript_sdk_members::Member;
use dscript_sdk_values::grown_list;
use dscript_value::{Callee, FunctionRef, Value, Values};
use std::alloc::{AllocError, Global};

// The item that is next; undefined if there is none.
fn next_item(callbacks: &Callbacks) -> Result<Value, Memory>
    ensures { IfOk result (λ item. plain_of item ≡ item_of callbacks.now) }
{
    match item_ref(&callbacks.items, callbacks.next) {
        Some(item) => item.share(),
        None => Ok(Value::Undefined),
    }
}

// The number of an item, as a value.
pub(crate) fn number_of(number: usize) -> Result<Value, Memory>
    ensures { IfOk result (λ value. plain_of value ≡ plain.Number (pos number)) }
{
    if number > i32::MAX as usize {
        return Err(AllocError);
    }
    Ok(Value::Number(number as i32))
}

// Adds an item and its number to arguments.
fn add_item(args: &mut Vec<Value>, item: &Value, number: usize) -> Result<(), Memory>
    ensures { IfOk result (λ _. map plain_of args.new.items
        ≡ map plain_of args.old.items ++ plain_of item.now ∷ plain.Number (pos number) ∷ []) }
{
    let copy = item.share()?;
    add_value(args, copy)?;
    let number = number_of(number)?;
    add_value(args, number)
}

// The value so far, an item and its number.
fn reduction_args(
    alloc: Global,
    so_far: &Value,
    item: &Value,
    number: usize,
) -> Result<Vec<Value>, Memory>
    ensures { IfOk result (λ args. map plain_of args.items
        ≡ plain_of so_far.now ∷ plain_of item.now ∷ plain.Number (pos number) ∷ []) }
{
    let mut args = Vec::new(alloc);
    let copy = so_far.share()?;
    add_value(&mut args, copy)?;
    add_item(&mut args, item, number)?;
    Ok(args)
}

fn item_args(alloc: Global, item: &Value, number: usize) -> Result<Vec<Value>, Memory>
    ensures { IfOk result (λ args. map plain_of args.items
        ≡ plain_of item.now ∷ plain.Number (pos number) ∷ []) }
{
    let mut args = Vec::new(alloc);
    add_item(&mut args, item, number)?;
    Ok(args)
}

// The arguments of a callback.
fn args_with(
    alloc: Global,
    kind: Callback,
    so_far: &Value,
    item: &Value,
    number: usize,
) -> Result<Vec<Value>, Memory>
    ensures { IfOk result (λ args. map plain_of args.items
        ≡ args_of kind (plain_of so_far.now) (plain_of item.now) number) }
{
    match kind {
        Callback::Reduce => reduction_args(alloc, so_far, item, number),
        Callback::Map => item_args(alloc, item, number),
        Callback::Filter => item_args(alloc, item, number),
        Callback::MapMany => item_args(alloc, item, number),
    }
}

// The arguments of the callback with the next item, if there is one.
fn next_args(
    alloc: Global,
    callbacks: &Callbacks,
    so_far: &Value,
) -> Result<Option<Vec<Value>>, Memory>
    ensures { IfOk result (λ found. AreNextArgs callbacks.now (plain_of so_far.now) found) }
{
    match item_ref(&callbacks.items, callbacks.next) {
        Some(item) => {
            let args = args_with(alloc, callbacks.kind, so_far, item, callbacks.next)?;
            Ok(Some(args))
        }
        None => Ok(None),
    }
}

fn kind_of(member: Option<Member>) -> Option<Callback>
    ensures { result ≡ kind_named member }
{
    match member {
        Some(Member::Map) => Some(Callback::Map),
        Some(Member::Filter) => Some(Callback::Filter),
        Some(Member::MapMany) => Some(Callback::MapMany),
        Some(Member::Reduce) => Some(Callback::Reduce),
        _ => None,
    }
}

/// The call of a member that calls functions, which lists alone have.
pub fn callbacks(
    machine: &mut Machine<'_>,
    x: &Value,
    name: &Text,
    args: &[Value],
) -> Result<(), Stop>
    requires { is_callback_named name.now (plain_of x.now) ≡ true }
    ensures { Comes result machine.old machine.new (λ v. meaning.callbacks (acts_at v) (member_named name.now)
        (items_of (plain_of x.now)) (map plain_of args.now)) }
{
    match shared_items(x) {
        Ok(items) => callbacks_on(machine, items, Member::named(name.bytes()), args),
        Err(fault) => Err(stop_of(fault, machine.frame.file)),
    }
}

// The call of a member of a list that calls functions.
fn callbacks_on(
    machine: &mut Machine<'_>,
    items: Values,
    member: Option<Member>,
    args: &[Value],
) -> Result<(), Stop>
    ensures { Comes result machine.old machine.new (λ v. meaning.callbacks (acts_at v) member
        (item_list (plain_values items).items) (map plain_of args.now)) }
{
    match kind_of(member) {
        Some(kind) => callbacks_of(machine, kind, items, args),
        None => Err(machine.fault(EvalKind::Missing)),
    }
}

// The call of a member of a list with callbacks of this kind.
fn callbacks_of(
    machine: &mut Machine<'_>,
    kind: Callback,
    items: Values,
    args: &[Value],
) -> Result<(), Stop>
    ensures { Comes result machine.old machine.new (λ v. each_form (acts_at v) kind
        (item_list (plain_values items).items) (map plain_of args.now)) }
{
    match kind {
        Callback::Reduce => reduce(machine, items, args),
        _ => each(machine, kind, items, args),
    }
}

// The call of a member that calls a function with each item alone.
fn each(
    machine: &mut Machine<'_>,
    kind: Callback,
    items: Values,
    args: &[Value],
) -> Result<(), Stop>
    ensures { kind ≢ kinds.Reduce → Comes result machine.old machine.new (λ v. each_form (acts_at v) kind
        (item_list (plain_values items).items) (map plain_of args.now)) }
{
    match callback(args) {
        Ok(function) => begin_callbacks(machine, kind, function, items),
        Err(fault) => Err(stop_of(fault, machine.frame.file)),
    }
}

// The reduction of a list.
fn reduce(machine: &mut Machine<'_>, items: Values, args: &[Value]) -> Result<(), Stop>
    ensures { Comes result machine.old machine.new (λ v. each_form (acts_at v) kinds.Reduce
        (item_list (plain_values items).items) (map plain_of args.now)) }
{
    match reduction(args) {
        Ok((function, first)) => {
            let first = first.share()?;
            machine.give(first);
            begin_callbacks(machine, Callback::Reduce, function, items)
        }
        Err(fault) => Err(stop_of(fault, machine.frame.file)),
    }
}

// Callbacks with all items. The value with which a reduction begins is given.
fn begin_callbacks(
    machine: &mut Machine<'_>,
    kind: Callback,
    function: &FunctionRef,
    items: Values,
) -> Result<(), Stop>
    ensures { Comes result machine.old machine.new (λ v. loop_form (acts_at v) v.given kind
        (function_of function.now) (item_list (plain_values items).items)) }
{
    let function = function.share()?;
    let callbacks = Callbacks::new(machine.alloc, kind, function, items);
    machine.push(Work::Call(CallWork::Loop(callbacks)))
}

/// Callbacks, from the next item on.
pub fn callbacks_from(machine: &mut Machine<'_>, callbacks: Callbacks) -> Result<(), Stop>
    ensures { IsDone result machine.old machine.new (works.Call (call.Loop callbacks)) }
{
    let mut callbacks = callbacks;
    match calls_at_once(machine, &mut callbacks) {
        Ok(()) => next_callback(machine, callbacks),
        Err(stop) => Err(stop),
    }
}

// The callbacks that are left after those that need no call.
fn calls_at_once(machine: &mut Machine<'_>, callbacks: &mut Callbacks) -> Result<(), Stop>
    ensures { AreLeft result callbacks.new (comes_with (works.Call (call.Loop callbacks.old)) (seen machine.old))
        (seen machine.new) }
{
    'items: for _ in 0..usize::MAX {
        if !call_at_once(machine, callbacks) {
            return Ok(());
        }
        match after_call(machine, callbacks) {
            Ok(()) => {}
            Err(stop) => return Err(stop),
        }
    }
    Ok(())
}

// The callback with the next item, and then the others.
fn next_callback(machine: &mut Machine<'_>, callbacks: Callbacks) -> Result<(), Stop>
    ensures { IsDone result machine.old machine.new (works.Call (call.Loop callbacks)) }
{
    let found = next_args(machine.alloc, &callbacks, &machine.given)?;
    match found {
        Some(args) => callback_with(machine, callbacks, args.as_slice()),
        None => end_callbacks(machine, callbacks),
    }
}

// The callback with the next item and these arguments, and then the others.
fn callback_with(
    machine: &mut Machine<'_>,
    callbacks: Callbacks,
    args: &[Value],
) -> Result<(), Stop>
    ensures { items_from callbacks callbacks.next
        ≡ item_of callbacks ∷ items_from callbacks (callbacks.next + 1)
        → map plain_of args.now
        ≡ args_of callbacks.kind (seen machine.old).given (item_of callbacks) callbacks.next
        → IsDone result machine.old machine.new (works.Call (call.Loop callbacks)) }
{
    let function = callbacks.function.share()?;
    machine.push(Work::Call(CallWork::Came(callbacks)))?;
    call_back(machine, &function, args)
}

// What callbacks come to after the last item.
fn end_callbacks(machine: &mut Machine<'_>, callbacks: Callbacks) -> Result<(), Stop>
    ensures { items_from callbacks callbacks.next ≡ []
        → IsDone result machine.old machine.new (works.Call (call.Loop callbacks)) }
{
    match callbacks.kind {
        Callback::Reduce => Ok(()),
        _ => {
            let outcome = grown_list(machine.alloc, callbacks.done);
            machine.finish(outcome)
        }
    }
}

/// What the callback at the next item gave, which is given, and then the others.
pub fn came(machine: &mut Machine<'_>, callbacks: Callbacks) -> Result<(), Stop>
    ensures { IsDone result machine.old machine.new (works.Call (call.Came callbacks)) }
{
    let mut callbacks = callbacks;
    match after_call(machine, &mut callbacks) {
        Ok(()) => callbacks_from(machine, callbacks),
        Err(stop) => Err(stop),
    }
}

// Goes on to the callbacks after the one at the next item, which gave what is given.
fn after_call(machine: &mut Machine<'_>, callbacks: &mut Callbacks) -> Result<(), Stop>
    ensures { AreLeft result callbacks.new (comes_with (works.Call (call.Came callbacks.old)) (seen machine.old))
        (seen machine.new) }
{
    match callbacks.kind {
        Callback::Map => add_result(machine, callbacks),
        Callback::Filter => keep_item(machine, callbacks),
        Callback::MapMany => add_results(machine, callbacks),
        Callback::Reduce => go_on(callbacks),
    }
}

// What the callback gave is an item.
fn add_result(machine: &mut Machine<'_>, callbacks: &mut Callbacks) -> Result<(), Stop>
    ensures { callbacks.old.kind ≡ kinds.Map → AreLeft result callbacks.new
        (comes_with (works.Call (call.Came callbacks.old)) (seen machine.old)) (seen machine.new) }
{
    let value = machine.take();
    push_item(&mut callbacks.done, value)?;
    go_on(callbacks)
}

// The item with which the callback was called stays, if what is given counts as true.
fn keep_item(machine: &mut Machine<'_>, callbacks: &mut Callbacks) -> Result<(), Stop>
    ensures { callbacks.old.kind ≡ kinds.Filter → AreLeft result callbacks.new
        (comes_with (works.Call (call.Came callbacks.old)) (seen machine.old)) (seen machine.new) }
{
    if !is_true(&machine.given) {
        return go_on(callbacks);
    }
    let item = next_item(callbacks)?;
    push_item(&mut callbacks.done, item)?;
    go_on(callbacks)
}

// What the callback gave are items.
fn add_results(machine: &mut Machine<'_>, callbacks: &mut Callbacks) -> Result<(), Stop>
    ensures { callbacks.old.kind ≡ kinds.MapMany → AreLeft result callbacks.new
        (comes_with (works.Call (call.Came callbacks.old)) (seen machine.old)) (seen machine.new) }
{
    match add_items(machine.alloc, &mut callbacks.done, &machine.given) {
        Ok(()) => go_on(callbacks),
        Err(fault) => Err(stop_of(fault, machine.frame.file)),
    }
}

// Goes on to the callbacks after the next item.
fn go_on(callbacks: &mut Callbacks) -> Result<(), Stop>
    ensures { MatchResult result (λ _. callbacks.new ≡ record callbacks.old { next = callbacks.old.next + 1 })
        (λ stop. stop ≡ stops.Memory) }
{
    if callbacks.next == usize::MAX {
        return Err(Stop::Memory);
    }
    callbacks.next += 1;
    Ok(())
}

// A callback, which opens a call whatever function it is.
fn call_back(machine: &mut Machine<'_>, function: &FunctionRef, args: &[Value]) -> Result<(), Stop>
    ensures { Comes result machine.old machine.new (λ v. called_back (acts_at v) (function_of function.now)
        (map plain_of args.now)) }
{
    match function.callee() {
        Callee::Place(number) => open_call(machine, *number, function, args),
        Callee::Ambient(name) => call_ambient_back(machine, *name, function, args),
        Callee::Member(name) => call_member_back(machine, name, function.held(), args),
    }
}

fn call_ambient_back(
    machine: &mut Machine<'_>,
    name: Ambient,
    function: &FunctionRef,
    args: &[Value],
) -> Result<(), Stop>
    ensures { Comes result machine.old machine.new (λ v. acts_at v (Call (callees.Ambient name)
        (item_list (plain_function function.now).held.items) (map plain_of args.now))) }
{
    if machine.openable == 0 {
        return Err(machine.fault(EvalKind::Depth));
    }
    ambient(machine, name, args)
}

// A callback that is a member function.
fn call_member_back(
    machine: &mut Machine<'_>,
    name: &Text,
    held: &[Value],
    args: &[Value],
) -> Result<(), Stop>
    ensures { Comes result machine.old machine.new (λ v. acts_at v (Call (callees.Member name.now)
        (map plain_of held.now) (map plain_of args.now))) }
{
    if machine.openable == 0 {
        return Err(machine.fault(EvalKind::Depth));
    }
    machine.openable -= 1;
    machine.push(Work::Close)?;
    held_method(machine, held, name, args)
}

/// A callback that is a member function ends.
pub fn close(machine: &mut Machine<'_>) -> Result<(), Stop>
    ensures { IsDone result machine.old machine.new works.Close }
{
    machine.end_call()
}
