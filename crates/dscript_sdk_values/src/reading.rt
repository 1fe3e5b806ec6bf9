//! Values as the data that calls work with, one by one and in lists and fields.
ghost use Rattle.std.specs.Prelude.{◌≡◌, Ok, map, IfOk, MatchResult};
ghost use Rattle.dscript_value.specs.Plain.{Plain, plain_fields, plain_of, member_list};
ghost use Rattle.dscript_sdk_values.specs.Kinds.{argument_in, each_in, file_in, list_in, path_in, text_in};
ghost use Rattle.dscript_sdk_values.specs.Objects.{field_in, optional_in, optional_list_in};
ghost use Rattle.dscript_sdk_values.specs.Outcomes.{Outcome, Refuses};

use crate::fault::SdkFault;
use crate::kinds::{read_argument, read_file, read_items, read_path, read_text};
use bx_tree::{FileInput, Memory, Path, Text};
use dscript_value::{Argument, Fields, Value};
use std::alloc::Global;

/// Data that a value of some kind holds.
pub trait FromValue: Drop {
    // What a value gives, or its first fault.
    ghost reads: { Plain → Outcome Self };

    /// The data that a value holds, which may be shared with it.
    fn from_value(alloc: Global, value: &Value) -> Result<Self, SdkFault>
        ensures { MatchResult result
            (λ held. reads (plain_of value.now) ≡ Ok held)
            (λ fault. Refuses fault (reads (plain_of value.now))) };
}

impl FromValue for Text {
    ghost reads = { text_in };

    fn from_value(_: Global, value: &Value) -> Result<Self, SdkFault> {
        Ok(read_text(value)?.share()?)
    }
}

impl FromValue for Path {
    ghost reads = { path_in };

    fn from_value(_: Global, value: &Value) -> Result<Self, SdkFault> {
        Ok(read_path(value)?.share()?)
    }
}

impl FromValue for Argument {
    ghost reads = { argument_in };

    fn from_value(_: Global, value: &Value) -> Result<Self, SdkFault> {
        Ok(read_argument(value)?.share()?)
    }
}

/// The file, shared.
pub fn share_file(file: &FileInput) -> Result<FileInput, Memory>
    ensures { IfOk result (λ copy. copy ≡ file.now) }
{
    match file {
        FileInput::Source(path) => Ok(FileInput::Source(path.share()?)),
        FileInput::Made(path, maker) => Ok(FileInput::Made(path.share()?, *maker)),
    }
}

impl FromValue for FileInput {
    ghost reads = { file_in };

    fn from_value(_: Global, value: &Value) -> Result<Self, SdkFault> {
        Ok(share_file(read_file(value)?)?)
    }
}

/// The data of each value, from the first to the last.
pub fn read_each<T: FromValue>(alloc: Global, values: &[Value]) -> Result<Vec<T>, SdkFault>
    ensures { MatchResult result
        (λ held. each_in T.reads (map plain_of values.now) ≡ Ok held.items)
        (λ fault. Refuses fault (each_in T.reads (map plain_of values.now))) }
{
    let mut read = Vec::new(alloc);
    'values: for value in values {
        let held = T::from_value(alloc, value)?;
        read.push(held)?;
    }
    Ok(read)
}

/// The data of each item of the list that a value is.
pub fn read_list<T: FromValue>(alloc: Global, value: &Value) -> Result<Vec<T>, SdkFault>
    ensures { MatchResult result
        (λ held. list_in T.reads (plain_of value.now) ≡ Ok held.items)
        (λ fault. Refuses fault (list_in T.reads (plain_of value.now))) }
{
    let items = read_items(alloc, value)?;
    read_each(alloc, items.items())
}

/// The data of a field that must be there.
pub fn read_field<T: FromValue>(alloc: Global, fields: &Fields, name: &[u8]) -> Result<T, SdkFault>
    ensures { MatchResult result
        (λ held. field_in (member_list (plain_fields fields.now).members) name.now T.reads ≡ Ok held)
        (λ fault. Refuses fault (field_in (member_list (plain_fields fields.now).members) name.now T.reads)) }
{
    match fields.find(name) {
        Some(value) => T::from_value(alloc, value),
        None => Err(SdkFault::BadArgument),
    }
}

/// The data of the list in a field that must be there.
pub fn read_list_field<T: FromValue>(
    alloc: Global,
    fields: &Fields,
    name: &[u8],
) -> Result<Vec<T>, SdkFault>
    ensures { MatchResult result
        (λ held. field_in (member_list (plain_fields fields.now).members) name.now (list_in T.reads)
        ≡ Ok held.items)
        (λ fault. Refuses fault
        (field_in (member_list (plain_fields fields.now).members) name.now (list_in T.reads))) }
{
    match fields.find(name) {
        Some(value) => read_list(alloc, value),
        None => Err(SdkFault::BadArgument),
    }
}

/// The data of a field that may be missing.
pub fn read_optional<T: FromValue>(
    alloc: Global,
    fields: &Fields,
    name: &[u8],
) -> Result<Option<T>, SdkFault>
    ensures { MatchResult result
        (λ held. optional_in (member_list (plain_fields fields.now).members) name.now T.reads ≡ Ok held)
        (λ fault. Refuses fault
        (optional_in (member_list (plain_fields fields.now).members) name.now T.reads)) }
{
    match fields.find(name) {
        Some(value) => Ok(Some(T::from_value(alloc, value)?)),
        None => Ok(None),
    }
}

/// The data of the list in a field that may be missing; a missing list is empty.
pub fn read_optional_list<T: FromValue>(
    alloc: Global,
    fields: &Fields,
    name: &[u8],
) -> Result<Vec<T>, SdkFault>
    ensures { MatchResult result
        (λ held. optional_list_in (member_list (plain_fields fields.now).members) name.now (list_in T.reads)
        ≡ Ok held.items)
        (λ fault. Refuses fault
        (optional_list_in (member_list (plain_fields fields.now).members) name.now (list_in T.reads))) }
{
    match fields.find(name) {
        Some(value) => read_list(alloc, value),
        None => Ok(Vec::new(alloc)),
    }
}
