//! Statements that need no work of their own: a local that is bound to what needs no call, and a condition that
//! does not hold.
ghost use Rattle.std.specs.Prelude.{◌≡◌, true, false};
ghost use Rattle.dscript_program.specs.BoundTree.{StmtData};
ghost use Rattle.dscript_program.specs.Views.{expr_data, stmt_data};
ghost use Rattle.dscript_eval_frames.specs.Views.{seen};
ghost use Rattle.dscript_eval.specs.AtOnce.{IsPassed, bind_step, does_at, if_step};

use dscript_eval_direct::{Known, MAX_NESTING, value_now};
use dscript_eval_frames::Machine;
use dscript_eval_operators::is_true;
use dscript_program::{BoundExpr, BoundStmt};

// Binds a local to the value of an expression, where that needs no call.
fn bound_at_once(machine: &mut Machine<'_>, local: u32, e: &BoundExpr) -> bool
    ensures given { result ≡ true → IsPassed (seen machine.old) (seen machine.new)
        (bind_step local (expr_data e.now)) }
    ensures none { result ≡ false → seen machine.new ≡ seen machine.old }
{
    let Some(left) = machine.left.checked_sub(1) else {
        return false;
    };
    let alloc = machine.alloc;
    let known = Known::of(machine);
    match value_now(alloc, &known, e, left, MAX_NESTING) {
        Some((value, after)) => match machine.frame.bind(local, value) {
            Ok(()) => {
                machine.left = after;
                true
            }
            Err(_) => false,
        },
        None => false,
    }
}

// Passes over a statement whose condition does not hold, where the condition needs no call.
fn untaken_at_once(machine: &mut Machine<'_>, condition: &BoundExpr) -> bool
    ensures given { result ≡ true → (m : StmtData) → IsPassed (seen machine.old) (seen machine.new)
        (if_step (expr_data condition.now) m) }
    ensures none { result ≡ false → seen machine.new ≡ seen machine.old }
{
    let Some(left) = machine.left.checked_sub(1) else {
        return false;
    };
    let alloc = machine.alloc;
    let known = Known::of(machine);
    match value_now(alloc, &known, condition, left, MAX_NESTING) {
        Some((choice, after)) => {
            let holds = is_true(&choice);
            drop(choice);
            if holds {
                return false;
            }
            machine.left = after;
            true
        }
        None => false,
    }
}

/// Does a statement, where that needs no work of its own and the next one follows. Otherwise nothing changes.
#[tactic(auto, using(dscript_program::proofs::NodeViews::bound_views))]
pub fn statement_at_once(machine: &mut Machine<'_>, statement: &BoundStmt) -> bool
    ensures given { result ≡ true → IsPassed (seen machine.old) (seen machine.new)
        (does_at (stmt_data statement.now)) }
    ensures none { result ≡ false → seen machine.new ≡ seen machine.old }
{
    match statement {
        BoundStmt::Const(local, _, e) => bound_at_once(machine, *local, e),
        BoundStmt::Assign(local, e) => bound_at_once(machine, *local, e),
        BoundStmt::If(condition, _, other) => match other {
            None => untaken_at_once(machine, condition),
            Some(_) => false,
        },
        _ => false,
    }
}
