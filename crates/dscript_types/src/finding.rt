//! Finds the types of all declarations.
ghost use Rattle.std.specs.Prelude.{◌≡◌, ◌<◌, ℕ, IfOk, MatchOption, length, map, true};
ghost use Rattle.dscript_program.specs.Views.{decl_data, program_data};
ghost use Rattle.dscript_types.specs.Passes.{FindsIn, GoesOver, IsFull, IsReady, IsShut, anywhere};
ghost use Rattle.dscript_types.specs.Visits.{Looks, LooksAt, WaitsFor, count_of, has_seen};
ghost use Rattle.dscript_types_known.specs.Tables.{IsRight};
ghost use Rattle.dscript_types_known.specs.Views.{finding_data};
ghost use Rattle.dscript_types_meaning.specs.Lookups.{decls_at};

use crate::visits::Visits;
use bx_tree::Memory;
use dscript_program::{BoundDecl, Program};
use dscript_types_data::Type;
use dscript_types_exprs::look;
use dscript_types_known::{Finding, Pending, Table};
use dscript_types_notes::{TypeNames, World};
use std::alloc::{AllocError, Global};

/// How often a declaration is looked at in one pass at most, for others that it hangs on.
const MAX_LOOKS: u32 = 16;

/// What is the same for all declarations of a program.
#[derive(Clone, Copy)]
pub(crate) struct Finder<'a> {
    pub alloc: Global,
    pub program: &'a Program,
    pub names: &'a TypeNames,
    /// How many declarations and callbacks may be looked into, one for another.
    pub left: u64,
}

// A declaration that waits for another that it hangs on, and how often it was looked at.
#[derive(Clone, Copy)]
pub(crate) struct Waiting {
    pub at: Pending,
    pub looks: u32,
}

/// A number of a file or a declaration. More than can be counted are out of memory long before.
pub(crate) fn number(place: usize) -> Result<u32, Memory>
    ensures { IfOk result (λ n. n ≡ place) }
{
    match u32::try_from(place) {
        Ok(number) => Ok(number),
        Err(_) => Err(AllocError),
    }
}

// One that waits for another is looked at again after that, if it was not looked at too often, and the other was not seen.
fn wait_for(
    waiting: &mut Vec<Waiting>,
    visits: &mut Visits,
    top: Waiting,
    pending: Pending,
) -> Result<(), Memory>
    ensures { IfOk result (λ _. WaitsFor waiting.old.items waiting.new.items visits.old visits.new top.looks) }
{
    if top.looks >= MAX_LOOKS {
        return Ok(());
    }
    if !visits.see(pending) {
        return Ok(());
    }
    waiting.push(Waiting {
        at: top.at,
        looks: top.looks + 1,
    })?;
    waiting.push(Waiting {
        at: pending,
        looks: 0,
    })?;
    Ok(())
}

impl Finder<'_> {
    /// What is found of each declaration: passes over those that are open go on while one of them is found. When none is,
    /// each of them hangs on others that are open, and so none of them has a type.
    pub(crate) fn find_all(&self) -> Result<Table, Memory>
        requires { IsReady self.now }
        ensures right { IfOk result (λ table. IsRight (program_data self.now.program.now) table) }
        ensures full { IfOk result (λ table. IsFull table) }
    {
        let mut table = Table::new(self.alloc, self.program)?;
        'passes: loop {
            let count = table.count_open();
            self.pass(&mut table)?;
            if table.count_open() == count {
                return table.close(self.alloc);
            }
        }
    }

    // Looks at each declaration that is open.
    fn pass(&self, table: &mut Table) -> Result<(), Memory>
        requires ready { IsReady self.now }
        requires right { IsRight (program_data self.now.program.now) table.old }
        ensures { IfOk result (λ _. GoesOver (program_data self.now.program.now) table.old table.new anywhere) }
    {
        let mut visits = Visits::new(self.alloc, self.program)?;
        let files = self.program.files();
        'looked: for (file, bound) in files.iter().enumerate() {
            self.look_at_file(table, &mut visits, number(file)?, bound.decls.as_slice())?;
        }
        Ok(())
    }

    // Looks at each declaration of a file that is open.
    fn look_at_file(
        &self,
        table: &mut Table,
        visits: &mut Visits,
        file: u32,
        decls: &[BoundDecl],
    ) -> Result<(), Memory>
        requires ready { IsReady self.now }
        requires right { IsRight (program_data self.now.program.now) table.old }
        requires there { decls_at (program_data self.now.program.now) file ≡ map decl_data decls.now }
        requires size { count_of visits.old file ≡ length decls.now }
        ensures over { IfOk result (λ _. Looks (program_data self.now.program.now) table.old table.new visits.old visits.new) }
        ensures seen { IfOk result (λ _. (decl : ℕ) → decl < length decls.now → has_seen visits.new file decl ≡ true) }
    {
        'decls: for (place, _decl) in decls.iter().enumerate() {
            let at = Pending {
                file,
                decl: number(place)?,
            };
            self.look_once(table, visits, at)?;
        }
        Ok(())
    }

    // Looks at a declaration that was not seen in this pass.
    fn look_once(&self, table: &mut Table, visits: &mut Visits, at: Pending) -> Result<(), Memory>
        requires ready { IsReady self.now }
        requires right { IsRight (program_data self.now.program.now) table.old }
        ensures over { IfOk result (λ _. Looks (program_data self.now.program.now) table.old table.new visits.old visits.new) }
        ensures seen { IfOk result (λ _. at.decl < count_of visits.old at.file → has_seen visits.new at.file at.decl ≡ true) }
    {
        if !visits.see(at) {
            return Ok(());
        }
        self.look_down(table, visits, at)
    }

    // Looks at a declaration that was just seen, and first at those that it hangs on, each once in a pass.
    fn look_down(&self, table: &mut Table, visits: &mut Visits, at: Pending) -> Result<(), Memory>
        requires ready { IsReady self.now }
        requires right { IsRight (program_data self.now.program.now) table.old }
        ensures { IfOk result (λ _. LooksAt (program_data self.now.program.now) table.old table.new visits.old visits.new at) }
    {
        let mut waiting = vec![in self.alloc; Waiting { at, looks: 0 }]?;
        'waiting: while let Some(top) = waiting.pop() {
            self.look_next(table, visits, &mut waiting, top)?;
        }
        Ok(())
    }

    // Looks at one that was taken from those that wait.
    fn look_next(
        &self,
        table: &mut Table,
        visits: &mut Visits,
        waiting: &mut Vec<Waiting>,
        top: Waiting,
    ) -> Result<(), Memory>
        requires ready { IsReady self.now }
        requires right { IsRight (program_data self.now.program.now) table.old }
        ensures over { IfOk result (λ _. GoesOver (program_data self.now.program.now) table.old table.new
            (λ file decl. (file ≡ top.at.file) × (decl ≡ top.at.decl))) }
        ensures waits { IfOk result (λ _. WaitsFor waiting.old.items waiting.new.items visits.old visits.new top.looks) }
    {
        match self.look_at(table, top.at)? {
            Some(pending) => wait_for(waiting, visits, top, pending),
            None => Ok(()),
        }
    }

    // Looks at a declaration if it is open: what it hangs on, where it does.
    fn look_at(&self, table: &mut Table, at: Pending) -> Result<Option<Pending>, Memory>
        requires ready { IsReady self.now }
        requires right { IsRight (program_data self.now.program.now) table.old }
        ensures { IfOk result (λ _. GoesOver (program_data self.now.program.now) table.old table.new
            (λ file decl. (file ≡ at.file) × (decl ≡ at.decl))) }
    {
        match self.find(&*table, at)? {
            Some(Finding::Found(t, rank)) => {
                table.fill(at.file, at.decl, Finding::Found(t, rank));
                Ok(None)
            }
            Some(Finding::Nothing) => {
                table.fill(at.file, at.decl, Finding::Nothing);
                Ok(None)
            }
            Some(Finding::Open(pending)) => Ok(Some(pending)),
            None => Ok(None),
        }
    }

    // What is found of a declaration, if it is open.
    fn find(&self, table: &Table, at: Pending) -> Result<Option<Finding<Type>>, Memory>
        requires ready { IsReady self.now }
        requires right { IsRight (program_data self.now.program.now) table.now }
        ensures { IfOk result (λ found. MatchOption found
            (IsShut (program_data self.now.program.now) table.now at.file at.decl)
            (λ f. FindsIn (program_data self.now.program.now) table.now at.file at.decl (finding_data f))) }
    {
        let world = World {
            alloc: self.alloc,
            program: self.program,
            names: self.names,
            table,
            left: self.left,
        };
        let Some(decl) = world.decl(at.file, at.decl) else {
            return Ok(None);
        };
        if !table.get(at.file, at.decl)?.is_open() {
            return Ok(None);
        }
        let found = look(&world, at.file, decl)?.one_further()?;
        Ok(Some(found))
    }
}
