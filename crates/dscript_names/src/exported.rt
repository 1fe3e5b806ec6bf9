//! The names that the files of modules export.

ghost use Rattle.std.specs.Prelude.{◌≡◌, ◌&&◌, ◌||◌, ◌==◌, ℕ, IfOk, OnOk, map};
ghost use Rattle.std.specs.List.{filter, list_any};
ghost use Rattle.bx_tree.specs.Paths.{same_path};
ghost use Rattle.dscript_program.specs.ProgramData.{Dotted};
ghost use Rattle.dscript_names_scopes.specs.Declarations.{is_exported};
ghost use Rattle.dscript_names.specs.Exports.{exported_at, seen_in};
ghost use Rattle.dscript_names.specs.Lent.{names_lent};
ghost use Rattle.bx_tree.specs.Lent.{texts_now};

use crate::collecting::joined;
use crate::seen::see;
use bx_tree::Memory;
use dscript_names_scopes::{Declared, DottedName, Imported, Viewer};
use std::alloc::Global;
use std::collections::{BTreeMap, BTreeSet};

/// Another owner of a dotted name.
fn shared(alloc: Global, name: &DottedName) -> Result<DottedName, Memory>
    ensures { IfOk result (λ copy. copy ≡ name.now) }
{
    Ok(DottedName::new(joined(alloc, name.parts(), &[])?))
}

/// The names of declarations.
pub(crate) fn decl_names<'a>(
    alloc: Global,
    decls: &'a [Declared],
) -> Result<Vec<&'a DottedName>, Memory>
    ensures { IfOk result (λ names. names_lent names.items ≡ map (λ d. d.name) decls.entry.now) }
{
    let mut names = Vec::with_capacity(alloc, decls.len())?;
    'decls: for decl in decls {
        names.push(&decl.name)?;
    }
    Ok(names)
}

/// The names of the declarations that are exported.
pub(crate) fn exported_names(alloc: Global, decls: &[Declared]) -> Result<Vec<DottedName>, Memory>
    ensures { IfOk result (λ names. names.items
        ≡ map (λ d. d.name) (filter (λ d. is_exported d.mark) decls.now)) }
{
    let mut names = Vec::new(alloc);
    'decls: for decl in decls {
        if Viewer::Module.sees(decl.mark) {
            names.push(shared(alloc, &decl.name)?)?;
        }
    }
    Ok(names)
}

/// The names that imports give.
pub(crate) fn import_names<'a>(
    alloc: Global,
    imports: &'a [Imported],
) -> Result<Vec<&'a [u8]>, Memory>
    ensures { IfOk result (λ names. texts_now names.items ≡ map (λ i. i.name) imports.entry.now) }
{
    let mut names = Vec::with_capacity(alloc, imports.len())?;
    'imports: for import in imports {
        names.push(import.name.bytes())?;
    }
    Ok(names)
}

/// Adds names to those that were seen.
fn see_all(seen: &mut BTreeSet<DottedName>, names: Vec<DottedName>) -> Result<(), Memory>
    ensures { OnOk result ((q : Dotted) → seen_in seen.new q
        ≡ (list_any (λ x. same_path x q) names.items || seen_in seen.old q)) }
{
    'names: for name in names {
        see(seen, name)?;
    }
    Ok(())
}

/// The names that modules export, by the number of the module.
#[derive(Drop)]
pub(crate) struct Exports {
    pub(crate) tables: BTreeMap<usize, BTreeSet<DottedName>>,
}

impl Exports {
    /// Whether the module exports the name.
    fn has(&self, owner: usize, name: &DottedName) -> bool
        ensures { result ≡ exported_at self.now owner name.now }
    {
        match self.tables.get(&owner) {
            Some(table) => table.contains(name),
            None => false,
        }
    }

    /// Whether the module exports one of the names.
    pub(crate) fn has_one_of(&self, owner: usize, names: &[DottedName]) -> bool
        ensures { result ≡ list_any (exported_at self.now owner) names.now }
    {
        let mut left = names;
        'names: while let Some((name, rest)) = left.split_first() {
            if self.has(owner, name) {
                return true;
            }
            left = rest;
        }
        false
    }

    /// Adds the names that a file of the module exports.
    pub(crate) fn add(
        &mut self,
        alloc: Global,
        owner: usize,
        names: Vec<DottedName>,
    ) -> Result<(), Memory>
        ensures { OnOk result ((m : ℕ) (q : Dotted) → exported_at self.new m q
            ≡ ((owner == m && list_any (λ x. same_path x q) names.items) || exported_at self.old m q)) }
    {
        let mut table = self.tables.remove(&owner).unwrap_or(BTreeSet::new(alloc));
        see_all(&mut table, names)?;
        self.tables.insert(owner, table)?;
        Ok(())
    }
}
