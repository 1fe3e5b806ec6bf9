//! The words of a call of the program.

use std::alloc::AllocError;
use std::env;
use std::io::ErrorKind;
use std::rt::Env;

/// The words after the program's name. Where they are not all text, there are none, which is no command.
pub fn program_words<R: Env + AllocGlobal>(rt: &R) -> Result<Vec<String>, AllocError> {
    match env::args(rt) {
        Ok(args) => args.skip(1).collect(rt.alloc()),
        Err(error) if error.kind() == ErrorKind::OutOfMemory => Err(AllocError),
        Err(_) => Ok(Vec::new(rt.alloc())),
    }
}
