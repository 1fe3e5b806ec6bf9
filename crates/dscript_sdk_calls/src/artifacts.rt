//! Calls that say what a path in an argument means for its process.
ghost use Rattle.std.specs.Prelude.{◌≡◌, Ok, map, MatchResult};
ghost use Rattle.dscript_sdk_values.specs.Outcomes.{Refuses};
ghost use Rattle.dscript_sdk_calls.specs.ArtifactInput as inputs;
ghost use Rattle.dscript_sdk_calls.specs.ArtifactInput.{input_of};
ghost use Rattle.dscript_sdk_calls.specs.ArtifactNone as plain_paths;
ghost use Rattle.dscript_sdk_calls.specs.ArtifactNone.{plain_path_of};
ghost use Rattle.dscript_sdk_calls.specs.ArtifactOutput as outputs;
ghost use Rattle.dscript_sdk_calls.specs.ArtifactOutput.{output_of};
ghost use Rattle.dscript_value.specs.Plain.{plain_of};

use bx_tree::FileInput;
use dscript_sdk_values::{FromValue, SdkFault, first_argument};
use dscript_value::{Artifact, Value};
use std::alloc::Global;

fn input(alloc: Global, value: &Value) -> Result<Value, SdkFault>
    ensures { MatchResult result
        (λ artifact. input_of (plain_of value.now) ≡ Ok (plain_of artifact))
        (λ fault. Refuses fault (input_of (plain_of value.now))) }
{
    match value {
        Value::File(_) => {
            let file = FileInput::from_value(alloc, value)?;
            Ok(Value::Artifact(Artifact::Input(file)))
        }
        Value::Static(dir) => Ok(Value::Artifact(Artifact::InputDir(dir.share()?))),
        _ => Err(SdkFault::Kind),
    }
}

fn output(value: &Value) -> Result<Value, SdkFault>
    ensures { MatchResult result
        (λ artifact. output_of (plain_of value.now) ≡ Ok (plain_of artifact))
        (λ fault. Refuses fault (output_of (plain_of value.now))) }
{
    match value {
        Value::Path(path) => Ok(Value::Artifact(Artifact::Output(path.share()?))),
        Value::Directory(path) => Ok(Value::Artifact(Artifact::OutputDir(path.share()?))),
        _ => Err(SdkFault::Kind),
    }
}

fn plain_path(value: &Value) -> Result<Value, SdkFault>
    ensures { MatchResult result
        (λ artifact. plain_path_of (plain_of value.now) ≡ Ok (plain_of artifact))
        (λ fault. Refuses fault (plain_path_of (plain_of value.now))) }
{
    match value {
        Value::Path(path) => Ok(Value::Artifact(Artifact::Plain(path.share()?))),
        Value::File(file) => Ok(Value::Artifact(Artifact::Plain(file.path().share()?))),
        Value::Directory(path) => Ok(Value::Artifact(Artifact::Plain(path.share()?))),
        _ => Err(SdkFault::Kind),
    }
}

/// A file or static directory that the process takes.
#[tactic(auto, unfolding(crate::specs::ArtifactInput::artifact_input))]
pub fn artifact_input(alloc: Global, args: &[Value]) -> Result<Value, SdkFault>
    ensures { MatchResult result
        (λ value. inputs.artifact_input (map plain_of args.now) ≡ Ok (plain_of value))
        (λ fault. Refuses fault (inputs.artifact_input (map plain_of args.now))) }
{
    input(alloc, first_argument(args)?)
}

/// A file or directory that the process makes.
#[tactic(auto, unfolding(crate::specs::ArtifactOutput::artifact_output))]
pub fn artifact_output(args: &[Value]) -> Result<Value, SdkFault>
    ensures { MatchResult result
        (λ value. outputs.artifact_output (map plain_of args.now) ≡ Ok (plain_of value))
        (λ fault. Refuses fault (outputs.artifact_output (map plain_of args.now))) }
{
    output(first_argument(args)?)
}

/// A path that the process neither takes nor makes.
#[tactic(auto, unfolding(crate::specs::ArtifactNone::artifact_none))]
pub fn artifact_none(args: &[Value]) -> Result<Value, SdkFault>
    ensures { MatchResult result
        (λ value. plain_paths.artifact_none (map plain_of args.now) ≡ Ok (plain_of value))
        (λ fault. Refuses fault (plain_paths.artifact_none (map plain_of args.now))) }
{
    plain_path(first_argument(args)?)
}
