//! The table of what is found of declarations.
ghost use Rattle.std.specs.Prelude.{◌≡◌, ◌+◌, ◌&&◌, IfOk, length, map, not, sum_by};
ghost use Rattle.dscript_program.specs.ProgramData.{FileData};
ghost use Rattle.dscript_program.specs.Views.{program_data};
ghost use Rattle.dscript_program.specs.declared.program.BoundDecl.{BoundDecl as AnyDecl};
ghost use Rattle.dscript_types_known.specs.Findings.{Nothing, Open, is_open};
ghost use Rattle.dscript_types_known.specs.Tables.{all_open, closed, entry, entry_in, filled, filled_in, if_open};
ghost use Rattle.dscript_types_known.specs.Tables.{open_count, open_in};
ghost use Rattle.dscript_types_known.specs.Views.{finding_data};

use crate::finding::{Finding, Pending};
use bx_tree::Memory;
use dscript_program::{BoundDecl, Program};
use dscript_types_data::Type;
use std::alloc::{AllocError, Global};
use std::marker::Model;

/// What is found of each declaration of a program, by the numbers of file and declaration.
#[derive(Drop)]
pub struct Table {
    files: Vec<Vec<Finding<Type>>>,
    // how many entries are open
    left: u64,
}

impl Model for Table {
    ghost use Rattle.dscript_types_known.specs.Tables.{TableData};
    ghost use Rattle.dscript_types_known.specs.Codes.{table_coded};

    ghost Value = { TableData };

    ghost coded = { table_coded };

    ghost use Rattle.std.specs.Prelude.{◌≡◌};
    ghost use Rattle.dscript_types_known.specs.Tables.{open_count};
    ghost use Rattle.dscript_types_known.specs.Views.{table_data};

    ghost view = { λ t. table_data t.files.items };

    ghost invariant = { λ t. t.left ≡ open_count (table_data t.files.items) };
}

// An open entry for each declaration of a file.
fn open_entries(alloc: Global, decls: &[BoundDecl]) -> Result<Vec<Finding<Type>>, Memory>
    ensures { IfOk result (λ entries. map finding_data entries.items ≡ map (λ (d : AnyDecl). Open) decls.now) }
{
    let mut entries = Vec::with_capacity(alloc, decls.len())?;
    'decls: for decl in decls {
        entries.push(at_first(decl))?;
    }
    Ok(entries)
}

// What is found of a declaration at first. Which it is, is said where it is asked for.
fn at_first(_decl: &BoundDecl) -> Finding<Type>
    ensures { finding_data result ≡ Open }
{
    Finding::Open(Pending { file: 0, decl: 0 })
}

// How many declarations there are. More than can be counted are out of memory long before.
fn count_decls(program: &Program) -> Result<u64, Memory>
    ensures { IfOk result (λ count. count ≡ sum_by (λ (f : FileData). length f.decls) (program_data program.now).files) }
{
    let files = program.files();
    let mut count: u64 = 0;
    'counted: for file in files {
        match count.checked_add(file.decls.len() as u64) {
            Some(sum) => count = sum,
            None => return Err(AllocError),
        }
    }
    Ok(count)
}

impl Table {
    /// The table in which everything is open.
    pub fn new(alloc: Global, program: &Program) -> Result<Table, Memory>
        ensures { IfOk result (λ table. table ≡ all_open (program_data program.now)) }
    {
        let bound = program.files();
        let mut files = Vec::with_capacity(alloc, bound.len())?;
        'bound: for file in bound {
            files.push(open_entries(alloc, file.decls.as_slice())?)?;
        }
        Ok(Table {
            files,
            left: count_decls(program)?,
        })
    }

    /// How many are open.
    pub fn count_open(&self) -> u64
        ensures { result ≡ open_count self.now }
    {
        self.left
    }

    /// What is found of a declaration; of one that is not there nothing.
    pub fn get(&self, file: u32, decl: u32) -> Result<Finding<Type>, Memory>
        ensures { IfOk result (λ f. finding_data f ≡ entry self.now file decl) }
    {
        match self.files.get(file as usize) {
            Some(entries) => entry_of(entries.as_slice(), file, decl),
            None => Ok(Finding::Nothing),
        }
    }

    /// Fills in what is found of a declaration that is open. One that is found stays as it is.
    pub fn fill(&mut self, file: u32, decl: u32, finding: Finding<Type>)
        ensures { self.new ≡ filled self.old file decl (finding_data finding) }
    {
        let place = file as usize;
        if place >= self.files.len() {
            return;
        }
        let entries = &mut self.files[place];
        let taken = fill_entry(entries, decl, finding);
        self.left -= taken;
    }

    /// The table in which what is open has no type.
    pub fn close(self, alloc: Global) -> Result<Table, Memory>
        ensures { IfOk result (λ table. table ≡ closed self) }
    {
        let mut files = Vec::with_capacity(alloc, self.files.len())?;
        'closed: for entries in self.files {
            files.push(closed_entries(alloc, entries)?)?;
        }
        Ok(Table { files, left: 0 })
    }
}

// What is found of a declaration of a file.
fn entry_of(entries: &[Finding<Type>], file: u32, decl: u32) -> Result<Finding<Type>, Memory>
    ensures { IfOk result (λ f. finding_data f ≡ entry_in (map finding_data entries.now) decl) }
{
    match entries.get(decl as usize) {
        Some(Finding::Found(t, rank)) => Ok(Finding::Found(t.share()?, *rank)),
        Some(Finding::Open(_)) => Ok(Finding::Open(Pending { file, decl })),
        Some(Finding::Nothing) | None => Ok(Finding::Nothing),
    }
}

// Whether an entry takes what is found.
fn takes(entry: &Finding<Type>, finding: &Finding<Type>) -> bool
    ensures { result ≡ (is_open (finding_data entry.now) && not (is_open (finding_data finding.now))) }
{
    entry.is_open() && !finding.is_open()
}

// Fills in an entry of a file if it is open. How many that were open are found.
fn fill_entry(entries: &mut Vec<Finding<Type>>, decl: u32, finding: Finding<Type>) -> u64
    ensures entries { map finding_data entries.new.items
        ≡ filled_in (map finding_data entries.old.items) decl (finding_data finding) }
    ensures found { open_in (map finding_data entries.old.items)
        ≡ open_in (map finding_data entries.new.items) + result }
{
    let place = decl as usize;
    if place >= entries.len() {
        return 0;
    }
    if !takes(&entries[place], &finding) {
        return 0;
    }
    entries[place] = finding;
    1
}

// The entries of a file, of which those that are open have no type.
fn closed_entries(alloc: Global, entries: Vec<Finding<Type>>) -> Result<Vec<Finding<Type>>, Memory>
    ensures { IfOk result (λ all. map finding_data all.items
        ≡ map (if_open Nothing) (map finding_data entries.items)) }
{
    let mut all = Vec::with_capacity(alloc, entries.len())?;
    'entries: for entry in entries {
        all.push(closed_entry(entry))?;
    }
    Ok(all)
}

fn closed_entry(entry: Finding<Type>) -> Finding<Type>
    ensures { finding_data result ≡ if_open Nothing (finding_data entry) }
{
    match entry {
        Finding::Found(t, rank) => Finding::Found(t, rank),
        Finding::Nothing | Finding::Open(_) => Finding::Nothing,
    }
}
