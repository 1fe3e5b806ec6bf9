//! Values of a stated kind.
ghost use Rattle.std.specs.Prelude.{◌≡◌, Ok, Err, MatchResult};
ghost use Rattle.dscript_value.specs.Plain.{item_list, plain_of, plain_values};
ghost use Rattle.dscript_sdk_values.specs.Kinds.{argument_in, directory_in, file_in, flag_in, items_in};
ghost use Rattle.dscript_sdk_values.specs.Kinds.{path_in, text_in};
ghost use Rattle.dscript_sdk_values.specs.Outcomes.{Refuses};

use crate::fault::SdkFault;
use bx_tree::{FileInput, Path, Text};
use dscript_value::{Argument, FlatValues, Value, Values};
use std::alloc::Global;

/// The flag that a value is.
pub fn read_flag(value: &Value) -> Result<bool, SdkFault>
    ensures { MatchResult result
        (λ flag. flag_in (plain_of value.now) ≡ Ok flag)
        (λ fault. flag_in (plain_of value.now) ≡ Err fault) }
{
    match value {
        Value::Flag(flag) => Ok(*flag),
        _ => Err(SdkFault::Kind),
    }
}

/// The text that a value is.
pub fn read_text(value: &Value) -> Result<&Text, SdkFault>
    ensures { MatchResult result
        (λ text. text_in (plain_of value.now) ≡ Ok text.now)
        (λ fault. text_in (plain_of value.now) ≡ Err fault) }
{
    match value {
        Value::Text(text) => Ok(text),
        _ => Err(SdkFault::Kind),
    }
}

/// The path that a value is.
pub fn read_path(value: &Value) -> Result<&Path, SdkFault>
    ensures { MatchResult result
        (λ path. path_in (plain_of value.now) ≡ Ok path.now)
        (λ fault. path_in (plain_of value.now) ≡ Err fault) }
{
    match value {
        Value::Path(path) => Ok(path),
        _ => Err(SdkFault::Kind),
    }
}

/// The file that a value is.
pub fn read_file(value: &Value) -> Result<&FileInput, SdkFault>
    ensures { MatchResult result
        (λ file. file_in (plain_of value.now) ≡ Ok file.now)
        (λ fault. file_in (plain_of value.now) ≡ Err fault) }
{
    match value {
        Value::File(file) => Ok(file),
        _ => Err(SdkFault::Kind),
    }
}

/// The path of the directory that a value is.
pub fn read_directory(value: &Value) -> Result<&Path, SdkFault>
    ensures { MatchResult result
        (λ path. directory_in (plain_of value.now) ≡ Ok path.now)
        (λ fault. directory_in (plain_of value.now) ≡ Err fault) }
{
    match value {
        Value::Directory(path) => Ok(path),
        _ => Err(SdkFault::Kind),
    }
}

/// The argument of a process that a value is.
pub fn read_argument(value: &Value) -> Result<&Argument, SdkFault>
    ensures { MatchResult result
        (λ argument. argument_in (plain_of value.now) ≡ Ok argument.now)
        (λ fault. argument_in (plain_of value.now) ≡ Err fault) }
{
    match value {
        Value::Argument(argument) => Ok(argument),
        _ => Err(SdkFault::Kind),
    }
}

/// The list that a value is.
pub fn read_values(value: &Value) -> Result<&Values, SdkFault>
    ensures { MatchResult result
        (λ values. items_in (plain_of value.now) ≡ Ok (item_list (plain_values values.now).items))
        (λ fault. items_in (plain_of value.now) ≡ Err fault) }
{
    match value {
        Value::List(values) => Ok(values),
        _ => Err(SdkFault::Kind),
    }
}

/// The items of the list that a value is, in one piece.
pub fn read_items(alloc: Global, value: &Value) -> Result<FlatValues, SdkFault>
    ensures { MatchResult result
        (λ items. items_in (plain_of value.now) ≡ Ok (item_list (plain_values items).items))
        (λ fault. Refuses fault (items_in (plain_of value.now))) }
{
    Ok(read_values(value)?.flat(alloc)?)
}
