//! What `===` answers.
ghost use Rattle.std.specs.Prelude.{◌≡◌, Some, None, MatchResult};
ghost use Rattle.std.specs.Str.{bytes_eq};
ghost use Rattle.bx_tree.specs.Paths.{same_path};
ghost use Rattle.dscript_value.specs.Equality as spec;
ghost use Rattle.dscript_value.specs.Equality.{artifact_kind, artifact_path as path_of_artifact, artifact_pip};
ghost use Rattle.dscript_value.specs.Equality.{both_or_neither, equal_of};
ghost use Rattle.dscript_value.specs.Equality.{same_argument, same_artifact, same_file};
ghost use Rattle.dscript_value.specs.Equality.{same_static};
ghost use Rattle.dscript_value.specs.Equality.{static_kind, static_path as path_of_static, static_pip, unanswered};
ghost use Rattle.dscript_value.specs.Plain.{plain_of};

use crate::parts::{Argument, Artifact, RelativePath, StaticDir};
use crate::value::Value;
use bx_tree::{FileInput, Path, Text};

/// Two lists, two objects or two functions: `===` has no answer for them.
#[derive(Clone, Copy, Debug, PartialEq, Eq)]
pub struct NoOrder;

fn same_files(a: &FileInput, b: &FileInput) -> bool
    ensures { result ≡ same_file a.now b.now }
{
    a.path() == b.path()
}

fn kind_of(dir: &StaticDir) -> u8
    ensures { result ≡ static_kind dir.now }
{
    match dir {
        StaticDir::Seal(_, _) => 0,
        StaticDir::Opaque(_, _) => 1,
    }
}

fn pip_of(dir: &StaticDir) -> u32
    ensures { result ≡ static_pip dir.now }
{
    match dir {
        StaticDir::Seal(pip, _) | StaticDir::Opaque(pip, _) => *pip,
    }
}

/// The path of a static directory.
pub fn static_path(dir: &StaticDir) -> &Path
    ensures { result.now ≡ path_of_static dir.now }
{
    match dir {
        StaticDir::Seal(_, path) | StaticDir::Opaque(_, path) => path,
    }
}

fn same_dirs(a: &StaticDir, b: &StaticDir) -> bool
    ensures { result ≡ same_static a.now b.now }
{
    kind_of(a) == kind_of(b) && pip_of(a) == pip_of(b) && static_path(a) == static_path(b)
}

fn kind_of_artifact(artifact: &Artifact) -> u8
    ensures { result ≡ artifact_kind artifact.now }
{
    match artifact {
        Artifact::Input(_) => 0,
        Artifact::InputDir(dir) => kind_of(dir) + 1,
        Artifact::Output(_) => 3,
        Artifact::OutputDir(_) => 4,
        Artifact::Plain(_) => 5,
    }
}

fn pip_of_artifact(artifact: &Artifact) -> u32
    ensures { result ≡ artifact_pip artifact.now }
{
    match artifact {
        Artifact::InputDir(dir) => pip_of(dir),
        _ => 0,
    }
}

/// The path of an artifact.
pub fn artifact_path(artifact: &Artifact) -> &Path
    ensures { result.now ≡ path_of_artifact artifact.now }
{
    match artifact {
        Artifact::Input(file) => file.path(),
        Artifact::InputDir(dir) => static_path(dir),
        Artifact::Output(path) | Artifact::OutputDir(path) | Artifact::Plain(path) => path,
    }
}

fn same_artifacts(a: &Artifact, b: &Artifact) -> bool
    ensures { result ≡ same_artifact a.now b.now }
{
    kind_of_artifact(a) == kind_of_artifact(b)
        && pip_of_artifact(a) == pip_of_artifact(b)
        && artifact_path(a) == artifact_path(b)
}

fn same_texts(a: &Option<Text>, b: &Option<Text>) -> bool
    ensures { result ≡ both_or_neither bytes_eq a.now b.now }
{
    match (a, b) {
        (Some(a), Some(b)) => a.bytes() == b.bytes(),
        (None, None) => true,
        _ => false,
    }
}

fn same_options(a: &Option<Artifact>, b: &Option<Artifact>) -> bool
    ensures { result ≡ both_or_neither same_artifact a.now b.now }
{
    match (a, b) {
        (Some(a), Some(b)) => same_artifacts(a, b),
        (None, None) => true,
        _ => false,
    }
}

fn same_arguments(a: &Argument, b: &Argument) -> bool
    ensures { result ≡ same_argument a.now b.now }
{
    same_texts(a.text(), b.text()) && same_options(a.artifact(), b.artifact())
}

fn same_text(a: &Text, b: &Text) -> bool
    ensures { result ≡ bytes_eq a.now b.now }
{
    a.bytes() == b.bytes()
}

fn same_atoms(a: &[Text], b: &[Text]) -> bool
    ensures { result ≡ same_path a.now b.now }
{
    if a.len() != b.len() {
        return false;
    }
    'atoms: for (place, atom) in a.iter().enumerate() {
        if !same_text(atom, &b[place]) {
            return false;
        }
    }
    true
}

fn is_undefined(value: &Value) -> bool
    ensures { result ≡ spec.is_undefined (plain_of value.now) }
{
    matches!(value, Value::Undefined)
}

fn is_flag(value: &Value, flag: bool) -> bool
    ensures { result ≡ spec.is_flag flag (plain_of value.now) }
{
    match value {
        Value::Flag(other) => *other == flag,
        _ => false,
    }
}

fn is_number(value: &Value, number: i32) -> bool
    ensures { result ≡ spec.is_number number (plain_of value.now) }
{
    match value {
        Value::Number(other) => *other == number,
        _ => false,
    }
}

fn is_text(value: &Value, text: &Text) -> bool
    ensures { result ≡ spec.is_text text.now (plain_of value.now) }
{
    match value {
        Value::Text(other) => text.bytes() == other.bytes(),
        _ => false,
    }
}

fn is_path(value: &Value, path: &Path) -> bool
    ensures { result ≡ spec.is_path path.now (plain_of value.now) }
{
    match value {
        Value::Path(other) => path == other,
        _ => false,
    }
}

fn is_file(value: &Value, file: &FileInput) -> bool
    ensures { result ≡ spec.is_file file.now (plain_of value.now) }
{
    match value {
        Value::File(other) => same_files(file, other),
        _ => false,
    }
}

fn is_directory(value: &Value, path: &Path) -> bool
    ensures { result ≡ spec.is_directory path.now (plain_of value.now) }
{
    match value {
        Value::Directory(other) => path == other,
        _ => false,
    }
}

fn is_relative(value: &Value, path: &RelativePath) -> bool
    ensures { result ≡ spec.is_relative path.now (plain_of value.now) }
{
    match value {
        Value::Relative(other) => same_atoms(path.atoms(), other.atoms()),
        _ => false,
    }
}

fn is_atom(value: &Value, atom: &Text) -> bool
    ensures { result ≡ spec.equals_atom atom.now (plain_of value.now) }
{
    match value {
        Value::Atom(other) => atom.bytes() == other.bytes(),
        _ => false,
    }
}

fn is_static(value: &Value, dir: &StaticDir) -> bool
    ensures { result ≡ spec.is_static dir.now (plain_of value.now) }
{
    match value {
        Value::Static(other) => same_dirs(dir, other),
        _ => false,
    }
}

fn is_process(value: &Value, pip: u32) -> bool
    ensures { result ≡ spec.is_process pip (plain_of value.now) }
{
    match value {
        Value::Process(other) => *other == pip,
        _ => false,
    }
}

fn is_artifact(value: &Value, artifact: &Artifact) -> bool
    ensures { result ≡ spec.is_artifact artifact.now (plain_of value.now) }
{
    match value {
        Value::Artifact(other) => same_artifacts(artifact, other),
        _ => false,
    }
}

fn is_argument(value: &Value, argument: &Argument) -> bool
    ensures { result ≡ spec.is_argument argument.now (plain_of value.now) }
{
    match value {
        Value::Argument(other) => same_arguments(argument, other),
        _ => false,
    }
}

fn is_list(value: &Value) -> bool
    ensures { result ≡ spec.is_list (plain_of value.now) }
{
    matches!(value, Value::List(_))
}

fn is_object(value: &Value) -> bool
    ensures { result ≡ spec.is_object (plain_of value.now) }
{
    matches!(value, Value::Object(_))
}

fn is_function(value: &Value) -> bool
    ensures { result ≡ spec.is_function (plain_of value.now) }
{
    matches!(value, Value::Function(_))
}

// Two values of one kind that has no order.
fn unless_both(both: bool) -> Result<bool, NoOrder>
    ensures { MatchResult result (λ same. unanswered both ≡ Some same) (λ _. unanswered both ≡ None) }
{
    if both { Err(NoOrder) } else { Ok(false) }
}

/// What `===` answers of two values: values of different kinds differ, and others are equal by what they
/// are, files by their path.
pub fn equal(a: &Value, b: &Value) -> Result<bool, NoOrder>
    ensures { MatchResult result
        (λ same. equal_of (plain_of a.now) (plain_of b.now) ≡ Some same)
        (λ _. equal_of (plain_of a.now) (plain_of b.now) ≡ None) }
{
    match a {
        Value::Undefined => Ok(is_undefined(b)),
        Value::Flag(flag) => Ok(is_flag(b, *flag)),
        Value::Number(number) => Ok(is_number(b, *number)),
        Value::Text(text) => Ok(is_text(b, text)),
        Value::Path(path) => Ok(is_path(b, path)),
        Value::File(file) => Ok(is_file(b, file)),
        Value::Directory(path) => Ok(is_directory(b, path)),
        Value::Relative(path) => Ok(is_relative(b, path)),
        Value::Atom(atom) => Ok(is_atom(b, atom)),
        Value::List(_) => unless_both(is_list(b)),
        Value::Object(_) => unless_both(is_object(b)),
        Value::Function(_) => unless_both(is_function(b)),
        Value::Static(dir) => Ok(is_static(b, dir)),
        Value::Process(pip) => Ok(is_process(b, *pip)),
        Value::Artifact(artifact) => Ok(is_artifact(b, artifact)),
        Value::Argument(argument) => Ok(is_argument(b, argument)),
    }
}
