//! Where expressions and annotations stand.
ghost use Rattle.std.specs.Prelude.{◌≡◌, ◌++◌, IfOk};
ghost use Rattle.std.specs.Option.{option_copied, option_map};
ghost use Rattle.dscript_program.specs.Views.{around_names, decl_data, program_data};
ghost use Rattle.dscript_types_meaning.specs.Lookups.{decl_at};

use crate::names::TypeNames;
use bx_tree::{Memory, Text};
use dscript_program::{BoundDecl, Namespace, Program};
use dscript_types_known::Table;
use std::alloc::Global;
use std::rc::Rc;

/// What is the same for all that stands in a body: the program, its names of types, what is found of its declarations,
/// and how many callbacks may stand in one another from here on.
#[derive(Clone, Copy)]
pub struct World<'a> {
    pub alloc: Global,
    pub program: &'a Program,
    pub names: &'a TypeNames,
    pub table: &'a Table,
    pub left: u64,
}

impl<'a> World<'a> {
    /// A declaration.
    pub fn decl(&self, file: u32, decl: u32) -> Option<&'a BoundDecl>
        ensures { option_map decl_data (option_copied result)
            ≡ decl_at (program_data self.now.program.now) file decl }
    {
        match self.program.files().get(file as usize) {
            Some(file) => file.decls.get(decl as usize),
            None => None,
        }
    }
}

/// The number of a file, and the namespaces and the type parameters of the declaration around what stands there.
#[derive(Clone, Copy)]
pub struct Place<'a> {
    pub file: u32,
    pub around: &'a [Text],
    pub parameters: &'a [Text],
}

/// The names of a namespace and of those around it, from the outermost.
fn add_names(names: &mut Vec<Text>, around: &Option<Rc<Namespace>>) -> Result<(), Memory>
    ensures { IfOk result (λ _. names.new.items ≡ names.old.items ++ around_names around.now) }
{
    let Some(namespace) = around else {
        return Ok(());
    };
    add_names(names, &namespace.outer)?;
    'names: for name in &namespace.names {
        names.push(name.share()?)?;
    }
    Ok(())
}

/// The names of the namespaces around a declaration, from the outermost.
pub fn names_around(alloc: Global, decl: &BoundDecl) -> Result<Vec<Text>, Memory>
    ensures { IfOk result (λ names. names.items ≡ around_names decl.now.around) }
{
    let mut names = Vec::new(alloc);
    add_names(&mut names, &decl.around)?;
    Ok(names)
}
