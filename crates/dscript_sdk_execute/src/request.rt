//! What the object of the call says.
ghost use Rattle.std.specs.Prelude.{◌≡◌, codes, map, Ok, Err, MatchResult};
ghost use Rattle.dscript_value.specs.Plain.{member_list, plain_fields, plain_of};
ghost use Rattle.dscript_sdk_values.specs.Kinds.{directory_in};
ghost use Rattle.dscript_sdk_values.specs.Objects.{optional_in};
ghost use Rattle.dscript_sdk_values.specs.Outcomes.{Refuses};
ghost use Rattle.dscript_sdk_execute.specs.ExecuteObject.{made_in, request_of, taken_in};
ghost use Rattle.dscript_sdk_execute.specs.Views.{made_data, taken_of};

use crate::dependency::Dependency;
use crate::output::Output;
use crate::tool::tool_field;
use crate::variables::variables_field;
use bx_tree::Path;
use dscript_sdk_values::{
    SdkFault, first_argument, read_directory, read_object, read_optional, read_optional_list,
};
use dscript_value::{Argument, Fields, Value};
use pip_model_types::Variables;
use std::alloc::Global;

const OPTIONAL_FIELDS: [&[u8]; 8] = [
    b"arguments",
    b"workingDirectory",
    b"dependencies",
    b"outputs",
    b"consoleOutput",
    b"environmentVariables",
    b"description",
    b"tags",
];

/// What a process takes: its executable, its arguments, the directory in which it works, and its inputs.
#[derive(Drop)]
pub(crate) struct Taken {
    pub exe: Path,
    pub arguments: Vec<Argument>,
    pub directory: Option<Path>,
    pub dependencies: Vec<Dependency>,
}

/// What a process makes, and its environment.
#[derive(Drop)]
pub(crate) struct Made {
    pub outputs: Vec<Output>,
    pub console: Option<Path>,
    pub variables: Variables,
}

// The working directory, if one is given.
fn directory_field(fields: &Fields) -> Result<Option<Path>, SdkFault>
    ensures { MatchResult result
        (λ dir. optional_in (member_list (plain_fields fields.now).members) (codes "workingDirectory")
        directory_in ≡ Ok dir)
        (λ fault. Refuses fault (optional_in (member_list (plain_fields fields.now).members)
        (codes "workingDirectory") directory_in)) }
{
    match fields.find(b"workingDirectory") {
        Some(value) => Ok(Some(read_directory(value)?.share()?)),
        None => Ok(None),
    }
}

// What an object says that a process takes.
fn read_taken(alloc: Global, fields: &Fields) -> Result<Taken, SdkFault>
    ensures { MatchResult result
        (λ taken. taken_in (member_list (plain_fields fields.now).members) ≡ Ok (taken_of taken))
        (λ fault. Refuses fault (taken_in (member_list (plain_fields fields.now).members))) }
{
    let exe = tool_field(alloc, fields)?;
    let arguments = read_optional_list::<Argument>(alloc, fields, b"arguments")?;
    let directory = directory_field(fields)?;
    let dependencies = read_optional_list::<Dependency>(alloc, fields, b"dependencies")?;
    Ok(Taken {
        exe,
        arguments,
        directory,
        dependencies,
    })
}

// What an object says that a process makes.
fn read_made(alloc: Global, fields: &Fields) -> Result<Made, SdkFault>
    ensures { MatchResult result
        (λ made. made_in (member_list (plain_fields fields.now).members) ≡ Ok (made_data made))
        (λ fault. Refuses fault (made_in (member_list (plain_fields fields.now).members))) }
{
    let outputs = read_optional_list::<Output>(alloc, fields, b"outputs")?;
    let console = read_optional::<Path>(alloc, fields, b"consoleOutput")?;
    let variables = variables_field(alloc, fields)?;
    Ok(Made {
        outputs,
        console,
        variables,
    })
}

/// What the arguments of the call say.
#[tactic(auto, unfolding(crate::specs::ExecuteObject::request_in))]
pub(crate) fn read_request(alloc: Global, args: &[Value]) -> Result<(Taken, Made), SdkFault>
    ensures { MatchResult result
        (λ request. request_of (map plain_of args.now) ≡ Ok (taken_of request.0, made_data request.1))
        (λ fault. Refuses fault (request_of (map plain_of args.now))) }
{
    let fields = read_object(first_argument(args)?, &[b"tool"], &OPTIONAL_FIELDS)?;
    let taken = read_taken(alloc, fields)?;
    let made = read_made(alloc, fields)?;
    Ok((taken, made))
}
