//! The tool of a process.
ghost use Rattle.std.specs.Prelude.{◌≡◌, codes, Ok, Err, MatchResult};
ghost use Rattle.dscript_value.specs.Plain.{member_list, plain_fields, plain_of};
ghost use Rattle.dscript_sdk_values.specs.Objects.{field_in};
ghost use Rattle.dscript_sdk_values.specs.Outcomes.{Refuses};
ghost use Rattle.dscript_sdk_execute.specs.ExecuteObject.{exe_in, source_of, tool_in};

use bx_tree::{FileInput, Path, Text};
use dscript_sdk_values::{SdkFault, read_file, read_object, read_optional};
use dscript_value::{Fields, Value};
use std::alloc::Global;

// The path of a source file, which an executable is.
fn source_path(file: &FileInput) -> Result<&Path, SdkFault>
    ensures { MatchResult result
        (λ path. source_of file.now ≡ Ok path.now)
        (λ fault. source_of file.now ≡ Err fault) }
{
    match file {
        FileInput::Source(path) => Ok(path),
        FileInput::Made(_, _) => Err(SdkFault::BadArgument),
    }
}

fn read_exe(value: &Value) -> Result<&Path, SdkFault>
    ensures { MatchResult result
        (λ path. exe_in (plain_of value.now) ≡ Ok path.now)
        (λ fault. exe_in (plain_of value.now) ≡ Err fault) }
{
    source_path(read_file(value)?)
}

fn exe_field(fields: &Fields) -> Result<&Path, SdkFault>
    ensures { MatchResult result
        (λ path. field_in (member_list (plain_fields fields.now).members) (codes "exe") exe_in ≡ Ok path.now)
        (λ fault. field_in (member_list (plain_fields fields.now).members) (codes "exe") exe_in ≡ Err fault) }
{
    match fields.find(b"exe") {
        Some(value) => read_exe(value),
        None => Err(SdkFault::BadArgument),
    }
}

// The executable of a tool.
fn read_tool(alloc: Global, value: &Value) -> Result<Path, SdkFault>
    ensures { MatchResult result
        (λ exe. tool_in (plain_of value.now) ≡ Ok exe)
        (λ fault. Refuses fault (tool_in (plain_of value.now))) }
{
    let fields = read_object(value, &[b"exe"], &[b"description"])?;
    let exe = exe_field(fields)?;
    let _ = read_optional::<Text>(alloc, fields, b"description")?;
    Ok(exe.share()?)
}

/// The executable of the tool in the field of this name.
pub(crate) fn tool_field(alloc: Global, fields: &Fields) -> Result<Path, SdkFault>
    ensures { MatchResult result
        (λ exe. field_in (member_list (plain_fields fields.now).members) (codes "tool") tool_in ≡ Ok exe)
        (λ fault. Refuses fault
        (field_in (member_list (plain_fields fields.now).members) (codes "tool") tool_in)) }
{
    match fields.find(b"tool") {
        Some(value) => read_tool(alloc, value),
        None => Err(SdkFault::BadArgument),
    }
}
