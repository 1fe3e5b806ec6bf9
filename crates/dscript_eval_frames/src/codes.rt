//! The functions of a program, with how the locals that they captured are found.
ghost use Rattle.std.specs.Prelude.{◌≡◌, map, IfOk};
ghost use Rattle.dscript_program.specs.Views.{program_data};
ghost use Rattle.dscript_eval_frames.specs.Codes.{code_data};

use crate::code::Code;
use bx_tree::Memory;
use dscript_program::Program;
use std::alloc::Global;

/// The functions of a program, by number.
pub fn codes_of<'a>(alloc: Global, program: &'a Program) -> Result<Vec<Code<'a>>, Memory>
    ensures { IfOk result (λ codes. map code_data codes.items ≡ (program_data program.now).functions) }
{
    let functions = program.functions();
    let mut codes = Vec::new(alloc);
    'functions: for function in functions {
        codes.push(Code::of(alloc, function)?)?;
    }
    Ok(codes)
}
