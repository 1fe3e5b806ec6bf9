//! What the arguments of a process say.
ghost use Rattle.std.specs.Prelude.{◌≡◌, ◌++◌, IfOk, option_and_then};
ghost use Rattle.std.specs.List.{filter_map};
ghost use Rattle.dscript_sdk_execute.specs.Execute.{artifacts_of, input_of as input_of_artifact, made_output};
ghost use Rattle.dscript_sdk_execute.specs.Execute.{written};

use crate::dependency::Dependency;
use crate::output::Output;
use bx_tree::{Memory, Text};
use dscript_sdk_calls::{path_bytes, path_bytes_after};
use dscript_sdk_values::share_file;
use dscript_value::{Argument, Artifact, artifact_path};
use pip_model_types::OutDir;
use std::alloc::Global;

// An argument as the process gets it; one with neither a text nor an artifact is none.
fn written_argument(alloc: Global, argument: &Argument) -> Result<Option<Text>, Memory>
    ensures { IfOk result (λ text. text ≡ written argument.now) }
{
    match (argument.text(), argument.artifact()) {
        (None, None) => Ok(None),
        (Some(text), None) => Ok(Some(text.share()?)),
        (None, Some(artifact)) => {
            let bytes = path_bytes(alloc, artifact_path(artifact))?;
            Ok(Some(Text::new(alloc, bytes)?))
        }
        (Some(text), Some(artifact)) => {
            let bytes = path_bytes_after(alloc, text.bytes(), artifact_path(artifact))?;
            Ok(Some(Text::new(alloc, bytes)?))
        }
    }
}

/// The arguments as the process gets them.
pub(crate) fn written_arguments(alloc: Global, arguments: &[Argument]) -> Result<Vec<Text>, Memory>
    ensures { IfOk result (λ texts. texts.items ≡ filter_map written arguments.now) }
{
    let mut texts = Vec::new(alloc);
    'arguments: for argument in arguments {
        if let Some(text) = written_argument(alloc, argument)? {
            texts.push(text)?;
        }
    }
    Ok(texts)
}

fn input_of(artifact: &Artifact) -> Result<Option<Dependency>, Memory>
    ensures { IfOk result (λ input. input ≡ input_of_artifact artifact.now) }
{
    match artifact {
        Artifact::Input(file) => Ok(Some(Dependency::File(share_file(file)?))),
        Artifact::InputDir(dir) => Ok(Some(Dependency::Directory(dir.share()?))),
        Artifact::Output(_) | Artifact::OutputDir(_) | Artifact::Plain(_) => Ok(None),
    }
}

fn input_of_argument(argument: &Argument) -> Result<Option<Dependency>, Memory>
    ensures { IfOk result (λ input. input ≡ option_and_then input_of_artifact argument.now.artifact) }
{
    match argument.artifact() {
        Some(artifact) => input_of(artifact),
        None => Ok(None),
    }
}

/// The inputs, and those that arguments name.
#[tactic(auto, using(crate::proofs::Artifacts::chosen))]
pub(crate) fn with_inputs(
    dependencies: Vec<Dependency>,
    arguments: &[Argument],
) -> Result<Vec<Dependency>, Memory>
    ensures { IfOk result (λ inputs. inputs.items
        ≡ dependencies.items ++ filter_map input_of_artifact (artifacts_of arguments.now)) }
{
    let mut inputs = dependencies;
    'arguments: for argument in arguments {
        if let Some(input) = input_of_argument(argument)? {
            inputs.push(input)?;
        }
    }
    Ok(inputs)
}

fn output_of(artifact: &Artifact) -> Result<Option<Output>, Memory>
    ensures { IfOk result (λ output. output ≡ made_output artifact.now) }
{
    match artifact {
        Artifact::Output(path) => Ok(Some(Output::File(path.share()?))),
        Artifact::OutputDir(path) => Ok(Some(Output::Directory(OutDir {
            path: path.share()?,
            shared: false,
        }))),
        Artifact::Input(_) | Artifact::InputDir(_) | Artifact::Plain(_) => Ok(None),
    }
}

fn output_of_argument(argument: &Argument) -> Result<Option<Output>, Memory>
    ensures { IfOk result (λ output. output ≡ option_and_then made_output argument.now.artifact) }
{
    match argument.artifact() {
        Some(artifact) => output_of(artifact),
        None => Ok(None),
    }
}

/// The outputs, and those that arguments name.
#[tactic(auto, using(crate::proofs::Artifacts::chosen))]
pub(crate) fn with_outputs(
    outputs: Vec<Output>,
    arguments: &[Argument],
) -> Result<Vec<Output>, Memory>
    ensures { IfOk result (λ all. all.items
        ≡ outputs.items ++ filter_map made_output (artifacts_of arguments.now)) }
{
    let mut all = outputs;
    'arguments: for argument in arguments {
        if let Some(output) = output_of_argument(argument)? {
            all.push(output)?;
        }
    }
    Ok(all)
}
