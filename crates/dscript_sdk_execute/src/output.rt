//! What a process makes.
ghost use Rattle.std.specs.Prelude.{◌≡◌, [], codes, Ok, Err, MatchResult};
ghost use Rattle.dscript_value.specs.Plain.{member_list, plain_fields, plain_of};
ghost use Rattle.dscript_sdk_values.specs.Kinds.{directory_in};
ghost use Rattle.dscript_sdk_values.specs.Objects.{field_in};
ghost use Rattle.dscript_sdk_values.specs.Outcomes.{Refuses};
ghost use Rattle.dscript_sdk_execute.specs.ExecuteObject.{output_in, shared_directory_in, shared_in};

use bx_tree::Path;
use dscript_sdk_values::{FromValue, SdkFault, read_directory, read_object, read_text};
use dscript_value::{Fields, Value};
use pip_model_types::OutDir;
use std::alloc::Global;

const SHARED_FIELDS: [&[u8]; 2] = [b"kind", b"directory"];

/// A file or a directory that a process makes.
#[derive(Drop)]
pub enum Output {
    File(Path),
    Directory(OutDir),
}

// Whether a value is the text `shared`, which it must be.
fn read_shared(value: &Value) -> Result<(), SdkFault>
    ensures { MatchResult result
        (λ _. shared_in (plain_of value.now) ≡ Ok [])
        (λ fault. shared_in (plain_of value.now) ≡ Err fault) }
{
    let text = read_text(value)?;
    if text.bytes() == b"shared".as_slice() {
        Ok(())
    } else {
        Err(SdkFault::BadArgument)
    }
}

fn kind_field(fields: &Fields) -> Result<(), SdkFault>
    ensures { MatchResult result
        (λ _. field_in (member_list (plain_fields fields.now).members) (codes "kind") shared_in ≡ Ok [])
        (λ fault. field_in (member_list (plain_fields fields.now).members) (codes "kind") shared_in
        ≡ Err fault) }
{
    match fields.find(b"kind") {
        Some(value) => read_shared(value),
        None => Err(SdkFault::BadArgument),
    }
}

fn path_field(fields: &Fields) -> Result<&Path, SdkFault>
    ensures { MatchResult result
        (λ dir. field_in (member_list (plain_fields fields.now).members) (codes "directory") directory_in
        ≡ Ok dir.now)
        (λ fault. field_in (member_list (plain_fields fields.now).members) (codes "directory") directory_in
        ≡ Err fault) }
{
    match fields.find(b"directory") {
        Some(value) => read_directory(value),
        None => Err(SdkFault::BadArgument),
    }
}

// The directory of an object that says that it is shared.
fn read_shared_directory(value: &Value) -> Result<&Path, SdkFault>
    ensures { MatchResult result
        (λ dir. shared_directory_in (plain_of value.now) ≡ Ok dir.now)
        (λ fault. shared_directory_in (plain_of value.now) ≡ Err fault) }
{
    let fields = read_object(value, &SHARED_FIELDS, &[])?;
    kind_field(fields)?;
    path_field(fields)
}

impl FromValue for Output {
    ghost reads = { output_in };

    fn from_value(_: Global, value: &Value) -> Result<Self, SdkFault> {
        match value {
            Value::Path(path) => Ok(Output::File(path.share()?)),
            Value::Directory(path) => Ok(Output::Directory(OutDir {
                path: path.share()?,
                shared: false,
            })),
            Value::Object(_) => Ok(Output::Directory(OutDir {
                path: read_shared_directory(value)?.share()?,
                shared: true,
            })),
            _ => Err(SdkFault::Kind),
        }
    }
}
