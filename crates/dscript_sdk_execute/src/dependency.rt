//! What a process takes.
ghost use Rattle.dscript_sdk_execute.specs.ExecuteObject.{dependency_in};

use bx_tree::FileInput;
use dscript_sdk_values::{FromValue, SdkFault, share_file};
use dscript_value::{StaticDir, Value};
use std::alloc::Global;

/// A file or a static directory that a process takes.
#[derive(Drop)]
pub enum Dependency {
    File(FileInput),
    Directory(StaticDir),
}

impl FromValue for Dependency {
    ghost reads = { dependency_in };

    fn from_value(_: Global, value: &Value) -> Result<Self, SdkFault> {
        match value {
            Value::File(file) => Ok(Dependency::File(share_file(file)?)),
            Value::Static(dir) => Ok(Dependency::Directory(dir.share()?)),
            _ => Err(SdkFault::Kind),
        }
    }
}
