//! Values and paths that evaluation makes.
ghost use Rattle.std.specs.Prelude.{◌≡◌, [], map, unwrap_or, IfOk};
ghost use Rattle.bx_path.specs.Joining.{parent};
ghost use Rattle.dscript_value.specs.Plain.{plain_field, plain_of};
ghost use Rattle.dscript_value.specs.declared.parts.Callee.TheVariants as callees;
ghost use Rattle.dscript_sdk_values.specs.Answers.{function_answer, text_answer};
ghost use Rattle.dscript_eval_frames.specs.Made.{Answers, object_answer};

use bx_tree::{Path, PathFault, Text};
use dscript_sdk_members::parent_of;
use dscript_sdk_values::{MAX_TEXT_BYTES, SdkFault};
use dscript_value::{DepthFault, Field, Value, object_of, place_function};
use std::alloc::Global;

/// A text, which must be short enough.
pub fn text_of(text: &Text) -> Result<Value, SdkFault>
    ensures { Answers result (text_answer text.now) }
{
    if text.bytes().len() > MAX_TEXT_BYTES {
        return Err(SdkFault::Range);
    }
    Ok(Value::Text(text.share()?))
}

/// An object of these fields.
pub fn object_value(alloc: Global, fields: Vec<Field>) -> Result<Value, SdkFault>
    ensures { Answers result (object_answer (map plain_field fields.items)) }
{
    match object_of(alloc, fields) {
        Ok(value) => Ok(value),
        Err(DepthFault::TooDeep) => Err(SdkFault::Range),
        Err(DepthFault::Memory) => Err(SdkFault::Memory),
    }
}

/// The function with this number, which captured these values.
pub fn function_at(alloc: Global, number: u32, captured: Vec<Value>) -> Result<Value, SdkFault>
    ensures { Answers result
        (function_answer (callees.Place number) (map plain_of captured.items)) }
{
    match place_function(alloc, number, captured) {
        Ok(function) => Ok(function),
        Err(DepthFault::TooDeep) => Err(SdkFault::Range),
        Err(DepthFault::Memory) => Err(SdkFault::Memory),
    }
}

/// The directory of a path; that of the root is the root.
pub fn directory_of(alloc: Global, path: &Path) -> Result<Path, PathFault>
    ensures { IfOk result (λ dir. dir ≡ unwrap_or (parent path.now) []) }
{
    match parent_of(alloc, path)? {
        Some(dir) => Ok(dir),
        None => Ok(Path::root(alloc)?),
    }
}
