//! Expressions that need no work of their own.
ghost use Rattle.std.specs.Prelude.{◌≡◌, true, false};
ghost use Rattle.dscript_program.specs.Views.{expr_data};
ghost use Rattle.dscript_eval_frames.specs.Views.{seen};
ghost use Rattle.dscript_eval_exprs.specs.AtOnce.{IsGiven};

use dscript_eval_direct::{Known, MAX_NESTING, value_now};
use dscript_eval_frames::Machine;
use dscript_program::BoundExpr;

/// Gives the value of an expression, where that needs no call. Otherwise nothing changes.
pub fn at_once(machine: &mut Machine<'_>, e: &BoundExpr) -> bool
    ensures given { result ≡ true → IsGiven (seen machine.old) (seen machine.new) (expr_data e.now) }
    ensures none { result ≡ false → seen machine.new ≡ seen machine.old }
{
    let (alloc, steps) = (machine.alloc, machine.left);
    let known = Known::of(machine);
    match value_now(alloc, &known, e, steps, MAX_NESTING) {
        Some((value, left)) => {
            machine.left = left;
            machine.give(value);
            true
        }
        None => false,
    }
}
