//! Names and arrow functions.
ghost use Rattle.std.specs.Prelude.{◌≡◌, map, IfOk, Some};
ghost use Rattle.dscript_program.specs.Views.{kind_data};
ghost use Rattle.dscript_eval_meaning.specs.Evaluating.{answered};
ghost use Rattle.dscript_eval_meaning.specs.Expressions.{captured_of};
ghost use Rattle.dscript_eval_meaning.specs.Frames.{captures};
ghost use Rattle.dscript_eval_meaning.specs.Lookups.{declared_at, function_at};
ghost use Rattle.dscript_value.specs.Plain.{plain_of};
ghost use Rattle.dscript_value.specs.declared.parts.Callee.TheVariants as callees;
ghost use Rattle.dscript_sdk_values.specs.Answers.{function_answer};
ghost use Rattle.dscript_eval_meaning.specs.Expressions as meaning;
ghost use Rattle.dscript_eval_frames.specs.Forms.{acts_at};
ghost use Rattle.dscript_eval_frames.specs.Keeps.{Comes};
ghost use Rattle.dscript_eval_frames.specs.Views.{seen};

use crate::constants::constant_value;
use bx_tree::Memory;
use dscript_eval_frames::{Machine, Stop, function_at, kind_at};
use dscript_eval_meaning::EvalKind;
use dscript_program::{DeclKind, Target};
use dscript_value::{Value, ambient_function};

/// The value of a name.
pub fn name_value(machine: &mut Machine<'_>, target: Target) -> Result<(), Stop>
    ensures { Comes result machine.old machine.new (λ v. meaning.named v.program (acts_at v) target) }
{
    match target {
        Target::Local(local) => {
            let value = machine.frame.local(local)?;
            machine.answer(value)
        }
        Target::Declared { file, decl } => declared(machine, file, decl),
        Target::Ambient(call) => {
            let function = ambient_function(machine.alloc, call)?;
            machine.answer(function)
        }
    }
}

// The value of a name of a declaration.
fn declared(machine: &mut Machine<'_>, file: u32, decl: u32) -> Result<(), Stop>
    ensures { Comes result machine.old machine.new (λ v. meaning.declared (acts_at v) file decl (declared_at
        v.program file decl)) }
{
    match kind_at(machine.program, file, decl) {
        Some(kind) => declared_as(machine, kind, file, decl),
        None => Err(machine.fault(EvalKind::Kind)),
    }
}

// The value of a name of a declaration, by what is declared. Types have none.
fn declared_as(machine: &mut Machine<'_>, kind: &DeclKind, file: u32, decl: u32) -> Result<(), Stop>
    ensures { Comes result machine.old machine.new (λ v. meaning.declared (acts_at v) file decl
        (Some (kind_data kind.now))) }
{
    match kind {
        DeclKind::Const(_, _) => constant_value(machine, file, decl),
        DeclKind::Function(_, _, number) => {
            let none = Vec::new(machine.alloc);
            function_value(machine, *number, none)
        }
        DeclKind::Interface(..) => Err(machine.fault(EvalKind::Kind)),
        DeclKind::TypeAlias(..) => Err(machine.fault(EvalKind::Kind)),
    }
}

// A function of the program, which holds these values.
fn function_value(machine: &mut Machine<'_>, number: u32, held: Vec<Value>) -> Result<(), Stop>
    ensures { Comes result machine.old machine.new (λ v. answered (function_answer (callees.Place number)
        (map plain_of held.items))) }
{
    let outcome = function_at(machine.alloc, number, held);
    machine.finish(outcome)
}

// What the captured locals of an arrow function hold now.
fn captured_now(machine: &Machine<'_>, number: u32) -> Result<Vec<Value>, Memory>
    ensures { IfOk result (λ values. map plain_of values.items
        ≡ captures (captured_of (function_at (seen machine.now).program number))
        (seen machine.now).state) }
{
    match machine.code(number) {
        Some(code) => machine
            .frame
            .locals(machine.alloc, code.function.captured.as_slice()),
        None => Ok(Vec::new(machine.alloc)),
    }
}

/// An arrow function, which holds what its captured locals hold now.
pub fn arrow_value(machine: &mut Machine<'_>, number: u32) -> Result<(), Stop>
    ensures { Comes result machine.old machine.new (λ v. meaning.arrow v.program number) }
{
    let held = captured_now(machine, number)?;
    function_value(machine, number, held)
}
