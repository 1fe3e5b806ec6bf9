//! The environment variables of a process.
ghost use Rattle.std.specs.Prelude.{◌≡◌, [], codes, map, Ok, Err, MatchResult};
ghost use Rattle.std.specs.Str.{bytes_eq};
ghost use Rattle.dscript_value.specs.Plain.{member_list, plain_fields, plain_of};
ghost use Rattle.pip_model_types.specs.Args.{IsSortedByName};
ghost use Rattle.dscript_sdk_values.specs.Kinds.{each_in};
ghost use Rattle.dscript_sdk_values.specs.Objects.{field_in, optional_list_in};
ghost use Rattle.dscript_sdk_values.specs.Outcomes.{Refuses};
ghost use Rattle.dscript_sdk_execute.specs.ExecuteObject.{has_distinct_names, name_in, variable_in, variables_in};

use bx_tree::Text;
use dscript_sdk_values::{SdkFault, read_field, read_items, read_object, read_text};
use dscript_value::{Fields, Value};
use pip_model_types::{EnvPair, Variables};
use std::alloc::Global;

const VARIABLE_FIELDS: [&[u8]; 2] = [b"name", b"value"];

fn read_name(value: &Value) -> Result<&Text, SdkFault>
    ensures { MatchResult result
        (λ name. name_in (plain_of value.now) ≡ Ok name.now)
        (λ fault. name_in (plain_of value.now) ≡ Err fault) }
{
    let name = read_text(value)?;
    if name.bytes().is_empty() {
        return Err(SdkFault::BadArgument);
    }
    Ok(name)
}

fn name_field(fields: &Fields) -> Result<&Text, SdkFault>
    ensures { MatchResult result
        (λ name. field_in (member_list (plain_fields fields.now).members) (codes "name") name_in
        ≡ Ok name.now)
        (λ fault. field_in (member_list (plain_fields fields.now).members) (codes "name") name_in
        ≡ Err fault) }
{
    match fields.find(b"name") {
        Some(value) => read_name(value),
        None => Err(SdkFault::BadArgument),
    }
}

fn read_variable(alloc: Global, value: &Value) -> Result<EnvPair, SdkFault>
    ensures { MatchResult result
        (λ pair. variable_in (plain_of value.now) ≡ Ok pair)
        (λ fault. Refuses fault (variable_in (plain_of value.now))) }
{
    let fields = read_object(value, &VARIABLE_FIELDS, &[])?;
    let name = name_field(fields)?;
    let value = read_field::<Text>(alloc, fields, b"value")?;
    Ok(EnvPair {
        name: name.share()?,
        value,
    })
}

// Each of some variables, from the first to the last.
fn read_each_variable(alloc: Global, values: &[Value]) -> Result<Vec<EnvPair>, SdkFault>
    ensures { MatchResult result
        (λ pairs. each_in variable_in (map plain_of values.now) ≡ Ok pairs.items)
        (λ fault. Refuses fault (each_in variable_in (map plain_of values.now))) }
{
    let mut pairs = Vec::new(alloc);
    'values: for value in values {
        pairs.push(read_variable(alloc, value)?)?;
    }
    Ok(pairs)
}

// Whether two variables have one name.
fn have_one_name(first: &EnvPair, next: &EnvPair) -> bool
    ensures { result ≡ bytes_eq first.now.name next.now.name }
{
    first.name.bytes() == next.name.bytes()
}

// Whether no two of the variables, which are sorted by name, have one name.
#[tactic(auto, using(crate::proofs::Names::equal_next))]
fn are_distinct(sorted: &[EnvPair]) -> bool
    requires { IsSortedByName sorted.now }
    ensures { result ≡ has_distinct_names sorted.now }
{
    let mut rest = sorted;
    'pairs: while let Some((first, more)) = rest.split_first() {
        let Some((next, _)) = more.split_first() else {
            return true;
        };
        if have_one_name(first, next) {
            return false;
        }
        rest = more;
    }
    true
}

// Variables of different names, by name.
fn read_variables(alloc: Global, value: &Value) -> Result<Variables, SdkFault>
    ensures { MatchResult result
        (λ variables. variables_in (plain_of value.now) ≡ Ok variables)
        (λ fault. Refuses fault (variables_in (plain_of value.now))) }
{
    let flat = read_items(alloc, value)?;
    let read = read_each_variable(alloc, flat.items())?;
    let variables = Variables::of(read);
    if !are_distinct(variables.pairs()) {
        return Err(SdkFault::BadArgument);
    }
    Ok(variables)
}

fn no_variables(alloc: Global) -> Variables
    ensures { result ≡ [] }
{
    Variables::of(Vec::new(alloc))
}

/// The variables in the field of this name, and none where it is missing.
pub(crate) fn variables_field(alloc: Global, fields: &Fields) -> Result<Variables, SdkFault>
    ensures { MatchResult result
        (λ variables. optional_list_in (member_list (plain_fields fields.now).members)
        (codes "environmentVariables") variables_in ≡ Ok variables)
        (λ fault. Refuses fault (optional_list_in (member_list (plain_fields fields.now).members)
        (codes "environmentVariables") variables_in)) }
{
    match fields.find(b"environmentVariables") {
        Some(value) => read_variables(alloc, value),
        None => Ok(no_variables(alloc)),
    }
}
