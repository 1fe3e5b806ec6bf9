//! Values that share what another holds.
ghost use Rattle.std.specs.Prelude.{◌≡◌, IfOk};
ghost use Rattle.dscript_value.specs.Plain.{plain_function, plain_of};

use crate::parts::{Artifact, Callee, StaticDir};
use crate::value::{FunctionRef, Value};
use bx_tree::FileInput;
use std::alloc::AllocError;

/// A file like this one.
pub fn share_file(file: &FileInput) -> Result<FileInput, AllocError>
    ensures { IfOk result (λ copy. copy ≡ file.now) }
{
    match file {
        FileInput::Source(path) => Ok(FileInput::Source(path.share()?)),
        FileInput::Made(path, maker) => Ok(FileInput::Made(path.share()?, *maker)),
    }
}

impl StaticDir {
    /// A directory like this one.
    pub fn share(&self) -> Result<StaticDir, AllocError>
        ensures { IfOk result (λ copy. copy ≡ self.now) }
    {
        match self {
            StaticDir::Seal(pip, path) => Ok(StaticDir::Seal(*pip, path.share()?)),
            StaticDir::Opaque(pip, path) => Ok(StaticDir::Opaque(*pip, path.share()?)),
        }
    }
}

impl Artifact {
    /// An artifact like this one.
    pub fn share(&self) -> Result<Artifact, AllocError>
        ensures { IfOk result (λ copy. copy ≡ self.now) }
    {
        match self {
            Artifact::Input(file) => Ok(Artifact::Input(share_file(file)?)),
            Artifact::InputDir(dir) => Ok(Artifact::InputDir(dir.share()?)),
            Artifact::Output(path) => Ok(Artifact::Output(path.share()?)),
            Artifact::OutputDir(path) => Ok(Artifact::OutputDir(path.share()?)),
            Artifact::Plain(path) => Ok(Artifact::Plain(path.share()?)),
        }
    }
}

impl Callee {
    /// A callee like this one.
    pub fn share(&self) -> Result<Callee, AllocError>
        ensures { IfOk result (λ copy. copy ≡ self.now) }
    {
        match self {
            Callee::Place(number) => Ok(Callee::Place(*number)),
            Callee::Ambient(call) => Ok(Callee::Ambient(*call)),
            Callee::Member(name) => Ok(Callee::Member(name.share()?)),
        }
    }
}

impl FunctionRef {
    /// A function like this one. What it holds is shared.
    pub fn share(&self) -> Result<FunctionRef, AllocError>
        ensures { IfOk result (λ copy. plain_function copy ≡ plain_function self.now) }
    {
        let callee = self.callee().share()?;
        Ok(FunctionRef::new(callee, self.held_values().share()?))
    }
}

impl Value {
    /// A value equal to this one in all that contracts see. What it holds is shared.
    pub fn share(&self) -> Result<Value, AllocError>
        ensures { IfOk result (λ copy. plain_of copy ≡ plain_of self.now) }
    {
        match self {
            Value::Undefined => Ok(Value::Undefined),
            Value::Flag(flag) => Ok(Value::Flag(*flag)),
            Value::Number(number) => Ok(Value::Number(*number)),
            Value::Text(text) => Ok(Value::Text(text.share()?)),
            Value::Path(path) => Ok(Value::Path(path.share()?)),
            Value::File(file) => Ok(Value::File(share_file(file)?)),
            Value::Directory(path) => Ok(Value::Directory(path.share()?)),
            Value::Relative(path) => Ok(Value::Relative(path.share()?)),
            Value::Atom(text) => Ok(Value::Atom(text.share()?)),
            Value::List(values) => Ok(Value::List(values.share()?)),
            Value::Object(fields) => Ok(Value::Object(fields.share()?)),
            Value::Function(function) => Ok(Value::Function(function.share()?)),
            Value::Static(dir) => Ok(Value::Static(dir.share()?)),
            Value::Process(pip) => Ok(Value::Process(*pip)),
            Value::Artifact(artifact) => Ok(Value::Artifact(artifact.share()?)),
            Value::Argument(argument) => Ok(Value::Argument(argument.share()?)),
        }
    }
}
