//! Files that pips made, as the lines of an entry have them.
ghost use Rattle.std.specs.Prelude.{◌≡◌, IfOk};
ghost use Rattle.memo_format.specs.Found.{output_lines, outputs_digest};
ghost use Rattle.pip_model_types.specs.Made.{made_files};

use crate::entry::{OutputKind, OutputLine};
use bx_digest::{Digest, digest_of};
use pip_model_types::{Made, MadeFile};
use prints::append_lines;
use std::alloc::{AllocError, Global};

/// Files, with their contents named by digest.
pub fn outputs_of(alloc: Global, made: &[MadeFile]) -> Result<Vec<OutputLine>, AllocError>
    ensures { IfOk result (λ outputs. outputs.items ≡ output_lines (made_files made.now)) }
{
    let mut outputs = Vec::new(alloc);
    'made: for file in made {
        outputs.push(OutputLine {
            path: file.path.share()?,
            digest: file.blob.digest(),
        })?;
    }
    Ok(outputs)
}

/// The digest of the lines of files, by path, each with a newline.
pub fn digest_of_outputs(alloc: Global, made: &Made) -> Result<Digest, AllocError>
    ensures { IfOk result (λ digest. digest ≡ outputs_digest made.now) }
{
    let outputs = outputs_of(alloc, made.files())?;
    let mut text = Vec::new(alloc);
    append_lines::<OutputLine, OutputLine, OutputKind>(alloc, &mut text, outputs.as_slice())?;
    Ok(digest_of(text.as_slice()))
}
