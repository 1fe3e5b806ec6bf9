//! Source files whose last atom matches a pattern.
ghost use Rattle.std.specs.Prelude.{◌≡◌, ◌≢◌, true, false, Ok, map, IfOk, MatchResult};
ghost use Rattle.bx_tree.specs.declared.file_input.FileInput.TheVariants as files;
ghost use Rattle.dscript_sdk_values.specs.Outcomes.{Refuses};
ghost use Rattle.dscript_sdk_calls.specs.Globs as spec;
ghost use Rattle.bx_path.specs.Globbing.{is_pattern};
ghost use Rattle.dscript_sdk_calls.specs.Globs.{asked_glob, found_files, source_values as values_of_sources};
ghost use Rattle.dscript_sdk_calls.specs.Sources.{glob_ask, tree_answers};
ghost use Rattle.dscript_value.specs.Plain.{plain_of};

use crate::sources::ask_tree;
use crate::tree_ask::TreeAsk;
use bx_path::Pattern;
use bx_tree::{FileInput, Memory, Path, Tree};
use dscript_sdk_values::{SdkFault, list_value, read_directory, read_text, two_arguments};
use dscript_value::Value;
use std::alloc::Global;

// Source files as values, in their order.
pub(crate) fn source_values(alloc: Global, paths: &[Path]) -> Result<Vec<Value>, Memory>
    ensures { IfOk result (λ values. map plain_of values.items ≡ values_of_sources paths.now) }
{
    let mut values = Vec::new(alloc);
    'paths: for path in paths {
        values.push(Value::File(FileInput::Source(path.share()?)))?;
    }
    Ok(values)
}

// The pattern that a text is.
fn read_pattern(alloc: Global, text: &[u8]) -> Result<Pattern, SdkFault>
    ensures { MatchResult result
        (λ pattern. (is_pattern text.now ≡ true) × (pattern ≡ text.now))
        (λ fault. fault ≢ SdkFault.Memory
        → (fault ≡ SdkFault.BadArgument) × (is_pattern text.now ≡ false)) }
{
    match Pattern::of(alloc, text)? {
        Some(pattern) => Ok(pattern),
        None => Err(SdkFault::BadArgument),
    }
}

// The ask of a glob.
fn ask_of(deep: bool, dir: Path, pattern: Pattern) -> TreeAsk
    ensures { result ≡ glob_ask deep dir pattern }
{
    if deep {
        TreeAsk::GlobDeep(dir, pattern)
    } else {
        TreeAsk::Glob(dir, pattern)
    }
}

// What a glob asks at its arguments.
fn read_glob(alloc: Global, deep: bool, args: &[Value]) -> Result<TreeAsk, SdkFault>
    ensures { MatchResult result
        (λ ask. asked_glob deep (map plain_of args.now) ≡ Ok ask)
        (λ fault. Refuses fault (asked_glob deep (map plain_of args.now))) }
{
    let (dir, pattern) = two_arguments(args)?;
    let dir = read_directory(dir)?;
    let text = read_text(pattern)?;
    let pattern = read_pattern(alloc, text.bytes())?;
    Ok(ask_of(deep, dir.share()?, pattern))
}

// The files that a glob is answered.
fn found_value(alloc: Global, paths: &[Path]) -> Result<Value, SdkFault>
    ensures { MatchResult result
        (λ value. found_files paths.now ≡ Ok (plain_of value))
        (λ fault. Refuses fault (found_files paths.now)) }
{
    list_value(alloc, source_values(alloc, paths)?)
}

/// The source files in a directory, or anywhere below it where the glob is deep, that match a pattern; and
/// what was asked for them.
#[tactic(auto, unfolding(crate::specs::Globs::glob_files))]
pub fn glob_files(
    alloc: Global,
    tree: &Tree,
    deep: bool,
    args: &[Value],
) -> Result<(Value, TreeAsk), SdkFault>
    ensures { MatchResult result
        (λ given. spec.glob_files deep (map plain_of args.now) (tree_answers tree.now)
        ≡ Ok (plain_of given.0, given.1))
        (λ fault. Refuses fault (spec.glob_files deep (map plain_of args.now) (tree_answers tree.now))) }
{
    let ask = read_glob(alloc, deep, args)?;
    let paths = ask_tree(alloc, tree, &ask)?;
    let files = found_value(alloc, paths.as_slice())?;
    Ok((files, ask))
}
