//! What is known of where an expression is evaluated.
ghost use Rattle.dscript_eval_frames.specs.Views.{seen};
ghost use Rattle.dscript_eval_direct.specs.Now.{Knows, knowledge};

use dscript_eval_frames::{Machine, Status};
use dscript_program::Program;
use dscript_value::Value;

/// What is known of where an expression is evaluated.
#[derive(Drop)]
pub struct Known<'a> {
    pub program: &'a Program,
    /// The number of the file of the running body.
    pub file: u32,
    /// The number of the body's first own local.
    pub first: u32,
    /// Own locals from the first one on; not all of them need be here.
    pub own: &'a [Value],
    /// The constants, by file and declaration.
    pub constants: &'a [Vec<Status>],
}

impl<'a> Known<'a> {
    /// What is known in the running body.
    pub fn of(machine: &'a Machine<'_>) -> Known<'a>
        ensures { Knows (knowledge result) (seen machine.now).program (seen machine.now).state }
    {
        Known {
            program: machine.program,
            file: machine.frame.file,
            first: machine.frame.first,
            own: machine.frame.own.as_slice(),
            constants: machine.constants.as_slice(),
        }
    }
}
