//! What a program has at a number.
ghost use Rattle.std.specs.Prelude.{◌≡◌, option_map, IfOk, Some};
ghost use Rattle.dscript_program.specs.Views.{expr_data, kind_data, program_data};
ghost use Rattle.dscript_eval_meaning.specs.Lookups.{declared_at, path_at};
ghost use Rattle.dscript_eval_frames.specs.Consts.{const_in, const_of};

use bx_tree::{Memory, Path};
use dscript_program::{BoundExpr, DeclKind, Program};
use std::alloc::Global;

/// The path of the file with this number.
pub fn path_of(alloc: Global, program: &Program, file: u32) -> Result<Path, Memory>
    ensures { IfOk result (λ path. path ≡ path_at (program_data program.now) file) }
{
    match program.files().get(file as usize) {
        Some(file) => file.path.share(),
        None => Path::root(alloc),
    }
}

/// What is declared there.
pub fn kind_at(program: &Program, file: u32, decl: u32) -> Option<&DeclKind>
    ensures { option_map (λ kind. kind_data kind.now) result
        ≡ declared_at (program_data program.now) file decl }
{
    match program.files().get(file as usize) {
        Some(file) => match file.decls.as_slice().get(decl as usize) {
            Some(decl) => Some(&decl.kind),
            None => None,
        },
        None => None,
    }
}

// The expression of what is declared, if that is a constant.
fn expr_of(kind: &DeclKind) -> Option<&BoundExpr>
    ensures { option_map (λ e. expr_data e.now) result ≡ const_of (Some (kind_data kind.now)) }
{
    match kind {
        DeclKind::Const(_, e) => Some(e),
        DeclKind::Function(..) | DeclKind::Interface(..) | DeclKind::TypeAlias(..) => None,
    }
}

/// The expression of a declaration that is a constant.
pub fn const_at(program: &Program, file: u32, decl: u32) -> Option<&BoundExpr>
    ensures { option_map (λ e. expr_data e.now) result ≡ const_in program.now file decl }
{
    match kind_at(program, file, decl) {
        Some(kind) => expr_of(kind),
        None => None,
    }
}
