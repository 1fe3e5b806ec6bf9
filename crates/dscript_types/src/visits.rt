//! Which declarations were seen in a pass.
ghost use Rattle.std.specs.Prelude.{◌≡◌, ℕ, IfOk, false, length};
ghost use Rattle.dscript_program.specs.Views.{program_data};
ghost use Rattle.dscript_types.specs.Visits.{Sees, SeesIn, count_of, has_seen};
ghost use Rattle.dscript_types_meaning.specs.Lookups.{decls_at};

use bx_tree::Memory;
use dscript_program::Program;
use dscript_types_known::Pending;
use std::alloc::Global;

/// The declarations of a program that were seen.
#[derive(Drop)]
pub(crate) struct Visits {
    pub(crate) files: Vec<Vec<bool>>,
}

// Sees one of a file. Whether it is there and was not seen before.
fn see_in(flags: &mut Vec<bool>, decl: u32) -> bool
    ensures { SeesIn flags.old.items flags.new.items decl result }
{
    let place = decl as usize;
    if place >= flags.len() {
        return false;
    }
    if flags[place] {
        return false;
    }
    flags[place] = true;
    true
}

impl Visits {
    /// No declaration was seen.
    pub(crate) fn new(alloc: Global, program: &Program) -> Result<Visits, Memory>
        ensures none { IfOk result (λ visits. (file decl : ℕ) → has_seen visits file decl ≡ false) }
        ensures size { IfOk result (λ visits. (file : ℕ)
            → count_of visits file ≡ length (decls_at (program_data program.now) file)) }
    {
        let bound = program.files();
        let mut files = Vec::with_capacity(alloc, bound.len())?;
        'bound: for file in bound {
            files.push(vec![in alloc; false; file.decls.len()]?)?;
        }
        Ok(Visits { files })
    }

    /// Sees a declaration. Whether it is there and was not seen before.
    pub(crate) fn see(&mut self, at: Pending) -> bool
        ensures { Sees self.old self.new at.file at.decl result }
    {
        let file = at.file as usize;
        if file >= self.files.len() {
            return false;
        }
        see_in(&mut self.files[file], at.decl)
    }
}
