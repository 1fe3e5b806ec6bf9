//! Which files of a program are typed.
ghost use Rattle.std.specs.Prelude.{◌≡◌, IfOk, MatchOption, map};
ghost use Rattle.dscript_program.specs.Views.{decl_data};
ghost use Rattle.dscript_types.specs.Passes.{IsFull, IsUntypedFirst};
ghost use Rattle.dscript_types_scenes.specs.Typings.{FromOn};
ghost use Rattle.dscript_types_meaning.specs.Lookups.{decls_at};
ghost use Rattle.dscript_types_meaning.specs.Typed.{IsTyped, is_typed_file, reach};
ghost use Rattle.dscript_types_notes.specs.Means.{IsSound, program_of};

use crate::finding::number;
use bx_tree::Memory;
use dscript_program::{BoundDecl, BoundFile};
use dscript_types_exprs::is_right;
use dscript_types_notes::World;

// Whether what holds from a number on holds where so many may be looked into.
fn holds_at(right: Option<u64>, left: u64) -> bool
    ensures { FromOn right left result }
{
    match right {
        Some(from) => from <= left,
        None => false,
    }
}

// Whether each expression of a file has a type.
fn is_typed(world: &World<'_>, file: u32, decls: &[BoundDecl]) -> Result<bool, Memory>
    requires sound { IsSound world.now }
    requires full { IsFull world.now.table.now }
    requires reach { world.now.left ≡ reach (program_of world.now) }
    requires there { decls_at (program_of world.now) file ≡ map decl_data decls.now }
    ensures { IfOk result (λ typed. typed ≡ is_typed_file (program_of world.now) file) }
{
    'decls: for decl in decls {
        let right = is_right(world, file, decl)?;
        if !holds_at(right, world.left) {
            return Ok(false);
        }
    }
    Ok(true)
}

/// The first file in which some expression has no type.
pub(crate) fn first_untyped<'a>(world: &World<'a>) -> Result<Option<&'a BoundFile>, Memory>
    requires sound { IsSound world.now }
    requires full { IsFull world.now.table.now }
    requires reach { world.now.left ≡ reach (program_of world.now) }
    ensures { IfOk result (λ found. MatchOption found
        (IsTyped (program_of world.now))
        (λ file. IsUntypedFirst (program_of world.now) file.now)) }
{
    let files = world.program.files();
    'checked: for (place, file) in files.iter().enumerate() {
        let typed = is_typed(world, number(place)?, file.decls.as_slice())?;
        if !typed {
            return Ok(Some(file));
        }
    }
    Ok(None)
}
