//! Constants, which are evaluated when they are first demanded, and once.
ghost use Rattle.std.specs.Prelude.{◌≡◌, ◌-◌, ◌^◌, ◌<◌, is_some, slice_get, MatchOption, Some, None};
ghost use Rattle.dscript_program.specs.Views.{decl_data, expr_data, program_data};
ghost use Rattle.dscript_eval_meaning.specs.Acts.{Demand};
ghost use Rattle.dscript_eval_meaning.specs.Constants as table;
ghost use Rattle.dscript_eval_meaning.specs.Constants.{with_status};
ghost use Rattle.dscript_eval_frames.specs.Consts.{const_in, const_of};
ghost use Rattle.dscript_eval_frames.specs.Statuses.{status_of};
ghost use Rattle.dscript_eval_frames.specs.Forms.{acts_at};
ghost use Rattle.dscript_eval_frames.specs.Keeps.{Comes, IsDone};
ghost use Rattle.dscript_eval_frames.specs.Views.{seen};
ghost use Rattle.dscript_eval_frames.specs.Works.{decls_of};
ghost use Rattle.dscript_eval_frames.specs.declared.work.StmtWork.TheVariants as stmt;
ghost use Rattle.dscript_eval_frames.specs.declared.work.Work.TheVariants as works;

use dscript_eval_frames::{
    ExprWork, Frame, Machine, Status, StmtWork, Stop, Work, const_at, set_status, status_at,
};
use dscript_eval_meaning::EvalKind;
use dscript_program::{BoundDecl, BoundExpr, BoundFile, DeclKind};

// The file with this number, if there is one.
fn file_in(files: &[BoundFile], file: u32) -> Option<&BoundFile>
    ensures { MatchOption result
        (slice_get files.now file ≡ None)
        (λ found. slice_get files.now file ≡ Some found.now) }
{
    files.get(file as usize)
}

// The declaration with this number, if there is one.
fn decl_in(decls: &[BoundDecl], decl: u32) -> Option<&BoundDecl>
    ensures { MatchOption result
        (slice_get decls.now decl ≡ None)
        (λ declared. slice_get decls.now decl ≡ Some declared.now) }
{
    decls.get(decl as usize)
}

fn is_const(decl: &BoundDecl) -> bool
    ensures { result ≡ is_some (const_of (Some (decl_data decl.now).kind)) }
{
    match decl.kind {
        DeclKind::Const(..) => true,
        DeclKind::Function(..) | DeclKind::Interface(..) | DeclKind::TypeAlias(..) => false,
    }
}

/// The value of a constant, which is evaluated if that was not begun.
pub fn constant_value(machine: &mut Machine<'_>, file: u32, decl: u32) -> Result<(), Stop>
    ensures { Comes result machine.old machine.new (λ v. table.constant (acts_at v) file decl) }
{
    let Some(status) = status_at(machine.constants.as_slice(), file, decl) else {
        return demand(machine, file, decl);
    };
    match status {
        Status::Done(value) => {
            let value = value.share()?;
            machine.answer(value)
        }
        Status::Running => Err(machine.fault(EvalKind::Cycle)),
        Status::Waiting => demand(machine, file, decl),
    }
}

// Opens the evaluation of a constant.
fn demand(machine: &mut Machine<'_>, file: u32, decl: u32) -> Result<(), Stop>
    ensures { Comes result machine.old machine.new (λ v. acts_at v (Demand file decl)) }
{
    if machine.openable == 0 {
        return Err(machine.fault(EvalKind::Depth));
    }
    match const_at(machine.program, file, decl) {
        Some(e) => evaluate_constant(machine, file, decl, e),
        None => Err(machine.fault(EvalKind::Kind)),
    }
}

// Evaluates the expression of a constant in a frame of its own.
fn evaluate_constant<'a>(
    machine: &mut Machine<'a>,
    file: u32,
    decl: u32,
    e: &'a BoundExpr,
) -> Result<(), Stop>
    requires { 0 < machine.old.openable }
    ensures { const_in machine.old.program.now file decl ≡ Some (expr_data e.now)
        → Comes result machine.old machine.new (λ v. acts_at v (Demand file decl)) }
{
    let before = machine.enter(Frame::of_constant(machine.alloc, file));
    mark(machine, file, decl, Status::Running);
    machine.push_two(
        Work::Expr(ExprWork::Value(e)),
        Work::Keep(file, decl, before),
    )
}

// Sets the status of a constant.
fn mark(machine: &mut Machine<'_>, file: u32, decl: u32, status: Status)
    ensures { seen machine.new ≡ record (seen machine.old) {
      state = record (seen machine.old).state {
        constants = with_status (seen machine.old).state.constants file decl (status_of status);
      };
    } }
{
    set_status(&mut machine.constants, file, decl, status);
}

/// A constant has the value that is given, and the frame from before is back.
pub fn keep<'a>(
    machine: &mut Machine<'a>,
    file: u32,
    decl: u32,
    frame: Frame<'a>,
) -> Result<(), Stop>
    ensures { IsDone result machine.old machine.new (works.Keep file decl frame.entry) }
{
    machine.end_call()?;
    machine.restore(frame);
    let value = machine.given.share()?;
    mark(machine, file, decl, Status::Done(value));
    Ok(())
}

/// The constants of the program, from a file and a declaration in it on.
pub fn demands(machine: &mut Machine<'_>, file: u32, decl: u32) -> Result<(), Stop>
    ensures { IsDone result machine.old machine.new (works.Stmt (stmt.Demands file decl)) }
{
    let Some(found) = file_in(machine.program.files(), file) else {
        return machine.forget();
    };
    if file == u32::MAX || decl == u32::MAX {
        return Err(Stop::Memory);
    }
    match decl_in(found.decls.as_slice(), decl) {
        Some(declared) => demand_next(machine, declared, file, decl),
        None => machine.push(Work::Stmt(StmtWork::Demands(file + 1, 0))),
    }
}

// A declaration, and then the constants from the next on.
fn demand_next(
    machine: &mut Machine<'_>,
    declared: &BoundDecl,
    file: u32,
    decl: u32,
) -> Result<(), Stop>
    requires { decl < 2 ^ 32 - 1 }
    ensures { slice_get (decls_of (slice_get (program_data machine.old.program.now).files file)) decl
        ≡ Some (decl_data declared.now)
        → IsDone result machine.old machine.new (works.Stmt (stmt.Demands file decl)) }
{
    machine.push(Work::Stmt(StmtWork::Demands(file, decl + 1)))?;
    if is_const(declared) {
        constant_value(machine, file, decl)
    } else {
        Ok(())
    }
}
