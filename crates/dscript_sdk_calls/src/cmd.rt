//! Calls that make arguments of processes.
ghost use Rattle.std.specs.Prelude.{◌≡◌, Ok, map, IfOk, MatchResult};
ghost use Rattle.std.specs.Fmt.{signed_decimal};
ghost use Rattle.dscript_sdk_values.specs.Outcomes.{Refuses};
ghost use Rattle.dscript_sdk_calls.specs.ArgumentTexts as texts;
ghost use Rattle.dscript_sdk_calls.specs.ArgumentTexts.{argument_after, artifact_argument};
ghost use Rattle.dscript_sdk_calls.specs.ArgumentTexts.{text_argument};
ghost use Rattle.dscript_sdk_calls.specs.CmdArgument as arguments;
ghost use Rattle.dscript_sdk_calls.specs.CmdFlag as flags;
ghost use Rattle.dscript_sdk_calls.specs.CmdFlag.{flagged};
ghost use Rattle.dscript_sdk_calls.specs.CmdOption as options;
ghost use Rattle.dscript_value.specs.Plain.{plain_of};
ghost use Rattle.dscript_sdk_values.specs.PathTexts.{path_argument};

use crate::paths::{length_with_path, path_bytes};
use bx_tree::{Memory, Path, Text};
use dscript_sdk_values::{FromValue, MAX_TEXT_BYTES, SdkFault, first_argument, two_arguments};
use dscript_value::{Argument, Artifact, Value, artifact_path};
use std::alloc::Global;

// A text with the one that follows it, if both together are short enough.
fn text_after(alloc: Global, before: &Text, text: &[u8]) -> Result<Value, SdkFault>
    ensures { MatchResult result
        (λ value. text_argument before.now text.now ≡ Ok (plain_of value))
        (λ fault. Refuses fault (text_argument before.now text.now)) }
{
    let mut bytes = before.bytes().to_vec(alloc)?;
    bytes.extend_from_slice(text)?;
    if bytes.len() > MAX_TEXT_BYTES {
        return Err(SdkFault::Range);
    }
    let text = Text::new(alloc, bytes)?;
    Ok(Value::Argument(Argument::of(alloc, Some(text), None)?))
}

fn path_after(alloc: Global, before: &Text, path: &Path) -> Result<Value, SdkFault>
    ensures { MatchResult result
        (λ value. text_argument before.now (path_argument path.now) ≡ Ok (plain_of value))
        (λ fault. Refuses fault (text_argument before.now (path_argument path.now))) }
{
    let bytes = path_bytes(alloc, path)?;
    text_after(alloc, before, bytes.as_slice())
}

// A text that an artifact's path follows, if both together are short enough.
fn artifact_after(alloc: Global, before: &Text, artifact: &Artifact) -> Result<Value, SdkFault>
    ensures { MatchResult result
        (λ value. artifact_argument before.now artifact.now ≡ Ok (plain_of value))
        (λ fault. Refuses fault (artifact_argument before.now artifact.now)) }
{
    if length_with_path(before.bytes(), artifact_path(artifact)) > MAX_TEXT_BYTES {
        return Err(SdkFault::Range);
    }
    let text = before.share()?;
    let argument = Argument::of(alloc, Some(text), Some(artifact.share()?))?;
    Ok(Value::Argument(argument))
}

fn number_after(alloc: Global, before: &Text, number: i32) -> Result<Value, SdkFault>
    ensures { MatchResult result
        (λ value. text_argument before.now (signed_decimal number) ≡ Ok (plain_of value))
        (λ fault. Refuses fault (text_argument before.now (signed_decimal number))) }
{
    let digits = number.to_string(alloc)?;
    text_after(alloc, before, digits.as_str().as_bytes())
}

// One argument: a text, and then the value; none where the value is undefined.
fn value_after(alloc: Global, before: &Text, value: &Value) -> Result<Value, SdkFault>
    ensures { MatchResult result
        (λ argument. argument_after before.now (plain_of value.now) ≡ Ok (plain_of argument))
        (λ fault. Refuses fault (argument_after before.now (plain_of value.now))) }
{
    match value {
        Value::Undefined => Ok(no_argument(alloc)?),
        Value::Text(text) => text_after(alloc, before, text.bytes()),
        Value::Number(number) => number_after(alloc, before, *number),
        Value::Path(path) | Value::Directory(path) => path_after(alloc, before, path),
        Value::File(file) => path_after(alloc, before, file.path()),
        Value::Atom(atom) => text_after(alloc, before, atom.bytes()),
        Value::Artifact(artifact) => artifact_after(alloc, before, artifact),
        _ => Err(SdkFault::Kind),
    }
}

fn no_argument(alloc: Global) -> Result<Value, Memory>
    ensures { IfOk result (λ value. plain_of value ≡ texts.no_argument) }
{
    Ok(Value::Argument(Argument::of(alloc, None, None)?))
}

/// One argument, or none.
#[tactic(auto, unfolding(crate::specs::CmdArgument::cmd_argument))]
pub fn cmd_argument(alloc: Global, args: &[Value]) -> Result<Value, SdkFault>
    ensures { MatchResult result
        (λ value. arguments.cmd_argument (map plain_of args.now) ≡ Ok (plain_of value))
        (λ fault. Refuses fault (arguments.cmd_argument (map plain_of args.now))) }
{
    let value = first_argument(args)?;
    let empty = Text::new(alloc, Vec::new(alloc))?;
    value_after(alloc, &empty, value)
}

/// One argument after a text, or none.
#[tactic(auto, unfolding(crate::specs::CmdOption::cmd_option))]
pub fn cmd_option(alloc: Global, args: &[Value]) -> Result<Value, SdkFault>
    ensures { MatchResult result
        (λ value. options.cmd_option (map plain_of args.now) ≡ Ok (plain_of value))
        (λ fault. Refuses fault (options.cmd_option (map plain_of args.now))) }
{
    let (before, value) = two_arguments(args)?;
    let before = Text::from_value(alloc, before)?;
    value_after(alloc, &before, value)
}

fn flag_text(alloc: Global, text: &Text, flag: &Value) -> Result<Value, SdkFault>
    ensures { MatchResult result
        (λ value. flagged text.now (plain_of flag.now) ≡ Ok (plain_of value))
        (λ fault. Refuses fault (flagged text.now (plain_of flag.now))) }
{
    match flag {
        Value::Undefined | Value::Flag(false) => Ok(no_argument(alloc)?),
        Value::Flag(true) => {
            let empty = Text::new(alloc, Vec::new(alloc))?;
            text_after(alloc, &empty, text.bytes())
        }
        _ => Err(SdkFault::Kind),
    }
}

/// A text where a flag is true, or none.
#[tactic(auto, unfolding(crate::specs::CmdFlag::cmd_flag))]
pub fn cmd_flag(alloc: Global, args: &[Value]) -> Result<Value, SdkFault>
    ensures { MatchResult result
        (λ value. flags.cmd_flag (map plain_of args.now) ≡ Ok (plain_of value))
        (λ fault. Refuses fault (flags.cmd_flag (map plain_of args.now))) }
{
    let (text, flag) = two_arguments(args)?;
    let text = Text::from_value(alloc, text)?;
    flag_text(alloc, &text, flag)
}
