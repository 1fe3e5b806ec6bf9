//! Callbacks that need no call: those of functions whose body is an expression of what they are called with.
ghost use Rattle.std.specs.Prelude.{◌≡◌, ◌∷◌, [], false, map, pos, true};
ghost use Rattle.dscript_program.specs.Views.{expr_data, function_data};
ghost use Rattle.dscript_value.specs.Plain as plain;
ghost use Rattle.dscript_value.specs.Plain.{plain_of};
ghost use Rattle.dscript_eval_frames.specs.Views.{seen};
ghost use Rattle.dscript_eval.specs.AtOnce.{IsBodyGiven, IsCalled};
ghost use Rattle.dscript_eval.specs.CallbackArgs.{args_of};

use crate::callbacks::number_of;
use dscript_eval_direct::{Known, MAX_NESTING, value_now};
use dscript_eval_frames::{Callback, Callbacks, Machine, first_of, item_ref};
use dscript_program::{Body, BoundExpr, Function};
use dscript_value::{Callee, Value};

// The value of an expression in the frame in which a function begins that is called with these arguments.
fn body_at_once(machine: &mut Machine<'_>, code: &Function, e: &BoundExpr, args: &[Value]) -> bool
    ensures given { result ≡ true → IsBodyGiven (seen machine.old) (seen machine.new)
        (function_data code.now) (expr_data e.now) (map plain_of args.now) }
    ensures none { result ≡ false → seen machine.new ≡ seen machine.old }
{
    let count = code.params.len();
    if count > code.local_count as usize {
        return false;
    }
    let (alloc, steps) = (machine.alloc, machine.left);
    let known = Known {
        program: machine.program,
        file: code.file,
        first: code.first_local,
        own: first_of(args, count),
        constants: machine.constants.as_slice(),
    };
    match value_now(alloc, &known, e, steps, MAX_NESTING) {
        Some((value, left)) => {
            machine.left = left;
            machine.give(value);
            true
        }
        None => false,
    }
}

// The body of a function that is called with an item and its number.
fn item_at_once(
    machine: &mut Machine<'_>,
    code: &Function,
    e: &BoundExpr,
    item: &Value,
    number: usize,
) -> bool
    ensures given { result ≡ true → IsBodyGiven (seen machine.old) (seen machine.new)
        (function_data code.now) (expr_data e.now)
        (plain_of item.now ∷ plain.Number (pos number) ∷ []) }
    ensures none { result ≡ false → seen machine.new ≡ seen machine.old }
{
    let Ok(item) = item.share() else {
        return false;
    };
    let Ok(number) = number_of(number) else {
        return false;
    };
    let args = [item, number];
    body_at_once(machine, code, e, &args)
}

// The body of a function that is called with the value so far, which is given, an item and its number.
fn reduction_at_once(
    machine: &mut Machine<'_>,
    code: &Function,
    e: &BoundExpr,
    item: &Value,
    number: usize,
) -> bool
    ensures given { result ≡ true → IsBodyGiven (seen machine.old) (seen machine.new)
        (function_data code.now) (expr_data e.now)
        ((seen machine.old).given ∷ plain_of item.now ∷ plain.Number (pos number) ∷ []) }
    ensures none { result ≡ false → seen machine.new ≡ seen machine.old }
{
    let Ok(so_far) = machine.given.share() else {
        return false;
    };
    let Ok(item) = item.share() else {
        return false;
    };
    let Ok(number) = number_of(number) else {
        return false;
    };
    let args = [so_far, item, number];
    body_at_once(machine, code, e, &args)
}

fn callback_at_once(
    machine: &mut Machine<'_>,
    kind: Callback,
    code: &Function,
    e: &BoundExpr,
    item: &Value,
    number: usize,
) -> bool
    ensures given { result ≡ true → IsBodyGiven (seen machine.old) (seen machine.new)
        (function_data code.now) (expr_data e.now)
        (args_of kind (seen machine.old).given (plain_of item.now) number) }
    ensures none { result ≡ false → seen machine.new ≡ seen machine.old }
{
    match kind {
        Callback::Reduce => reduction_at_once(machine, code, e, item, number),
        Callback::Map => item_at_once(machine, code, e, item, number),
        Callback::Filter => item_at_once(machine, code, e, item, number),
        Callback::MapMany => item_at_once(machine, code, e, item, number),
    }
}

/// Calls the callback with the next item, where its value needs no call. Otherwise nothing changes.
pub fn call_at_once(machine: &mut Machine<'_>, callbacks: &Callbacks) -> bool
    ensures given { result ≡ true → IsCalled (seen machine.old) (seen machine.new) callbacks.now }
    ensures none { result ≡ false → seen machine.new ≡ seen machine.old }
{
    if machine.openable == 0 {
        return false;
    }
    let Some(item) = item_ref(&callbacks.items, callbacks.next) else {
        return false;
    };
    let Callee::Place(place) = callbacks.function.callee() else {
        return false;
    };
    let Some(code) = machine.code(*place) else {
        return false;
    };
    match &code.function.body {
        Body::Expr(e) => callback_at_once(
            machine,
            callbacks.kind,
            code.function,
            e,
            item,
            callbacks.next,
        ),
        Body::Block(_) => false,
    }
}
