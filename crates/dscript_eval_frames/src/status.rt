//! The table of constants, by file and declaration.
ghost use Rattle.std.specs.Prelude.{◌≡◌, ◌<◌, length, map, slice_set, IfOk, MatchOption};
ghost use Rattle.dscript_program.specs.ProgramData.{DeclData};
ghost use Rattle.dscript_program.specs.Views.{file_data, program_data};
ghost use Rattle.dscript_eval_meaning.specs.Constants as table;
ghost use Rattle.dscript_eval_meaning.specs.Constants.{status_in, with_status};
ghost use Rattle.dscript_eval_meaning.specs.States as meaning;
ghost use Rattle.dscript_eval_meaning.specs.States.{Waiting};
ghost use Rattle.dscript_eval_frames.specs.Statuses.{status_of, statuses};

use bx_tree::Memory;
use dscript_program::{BoundFile, Program};
use dscript_value::Value;
use std::alloc::Global;
use std::mem;

/// A constant of the program: not demanded yet, being evaluated, or evaluated to a value.
#[derive(Drop)]
pub enum Status {
    Waiting,
    Running,
    Done(Value),
}

/// The status of a constant, if there is a place for it.
pub fn status_at(constants: &[Vec<Status>], file: u32, decl: u32) -> Option<&Status>
    ensures { MatchOption result
        (status_in (statuses constants.now) file decl ≡ meaning.Waiting)
        (λ status. status_in (statuses constants.now) file decl ≡ status_of status.now) }
{
    match constants.get(file as usize) {
        Some(row) => row.as_slice().get(decl as usize),
        None => None,
    }
}

// Puts a status in a place, if there is one.
#[tactic(auto, using(crate::proofs::Places::places))]
fn put_at(row: &mut Vec<Status>, place: usize, status: Status)
    ensures { map status_of row.new.items
        ≡ slice_set (map status_of row.old.items) place (status_of status) }
{
    if place < row.len() {
        drop(mem::replace(&mut row[place], status));
    } else {
        drop(status);
    }
}

// Puts a status in a place of a row.
fn put_in(constants: &mut Vec<Vec<Status>>, file: usize, decl: usize, status: Status)
    requires { file < length constants.old.items }
    ensures { statuses constants.new.items
        ≡ with_status (statuses constants.old.items) file decl (status_of status) }
{
    let row = &mut constants[file];
    put_at(row, decl, status);
}

/// Sets the status of a constant, if there is a place for it.
pub fn set_status(constants: &mut Vec<Vec<Status>>, file: u32, decl: u32, status: Status)
    ensures { statuses constants.new.items
        ≡ with_status (statuses constants.old.items) file decl (status_of status) }
{
    if (file as usize) < constants.len() {
        put_in(constants, file as usize, decl as usize, status);
    } else {
        drop(status);
    }
}

// A place for each declaration of a file.
fn waiting_in(alloc: Global, file: &BoundFile) -> Result<Vec<Status>, Memory>
    ensures { IfOk result (λ row. map status_of row.items
        ≡ map (λ (d : DeclData). Waiting) (file_data file.now).decls) }
{
    let mut row = Vec::new(alloc);
    let count = file.decls.len();
    'decls: for _ in 0..count {
        row.push(Status::Waiting)?;
    }
    Ok(row)
}

/// A place for each declaration of a program.
pub fn all_waiting(alloc: Global, program: &Program) -> Result<Vec<Vec<Status>>, Memory>
    ensures { IfOk result (λ rows. statuses rows.items ≡ table.all_waiting (program_data program.now)) }
{
    let mut rows = Vec::new(alloc);
    let files = program.files();
    'files: for file in files {
        let row = waiting_in(alloc, file)?;
        rows.push(row)?;
    }
    Ok(rows)
}
