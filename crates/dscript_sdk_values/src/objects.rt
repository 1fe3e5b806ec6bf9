//! Objects whose fields are known.
ghost use Rattle.std.specs.Prelude.{◌≡◌, Ok, Err, Some, None, is_some, map, ◌||◌, MatchResult};
ghost use Rattle.std.specs.Str.{bytes_eq};
ghost use Rattle.dscript_value.specs.Depths.{field_at};
ghost use Rattle.dscript_value.specs.Plain.{member_list, plain_field, plain_fields, plain_of};
ghost use Rattle.dscript_sdk_values.specs.Kinds.{object_in};
ghost use Rattle.dscript_sdk_values.specs.Objects.{fields_in, has_all as has_names, has_only as has_known, is_among};
ghost use Rattle.bx_tree.specs.Lent.{texts_now};

use crate::fault::SdkFault;
use dscript_value::{Field, Fields, Value, field_name};

fn is_name(names: &[&[u8]], name: &[u8]) -> bool
    ensures { result ≡ is_among (texts_now names.now) name.now }
{
    'names: for other in names {
        if name == *other {
            return true;
        }
    }
    false
}

fn is_known(field: &Field, required: &[&[u8]], optional: &[&[u8]]) -> bool
    ensures { result ≡ (is_among (texts_now required.now) (plain_field field.now).0
        || is_among (texts_now optional.now) (plain_field field.now).0) }
{
    let name = field_name(field);
    is_name(required, name) || is_name(optional, name)
}

// Whether each field is known.
fn has_only(fields: &[Field], required: &[&[u8]], optional: &[&[u8]]) -> bool
    ensures { result
        ≡ has_known (texts_now required.now) (texts_now optional.now) (map plain_field fields.now) }
{
    'fields: for field in fields {
        if !is_known(field, required, optional) {
            return false;
        }
    }
    true
}

fn has_field(fields: &Fields, name: &[u8]) -> bool
    ensures { result ≡ is_some (field_at (member_list (plain_fields fields.now).members) name.now) }
{
    fields.find(name).is_some()
}

// Whether there is a field with each of these names.
fn has_all(fields: &Fields, required: &[&[u8]]) -> bool
    ensures { result ≡ has_names (texts_now required.now) (member_list (plain_fields fields.now).members) }
{
    'names: for name in required {
        if !has_field(fields, name) {
            return false;
        }
    }
    true
}

fn as_object(value: &Value) -> Result<&Fields, SdkFault>
    ensures { MatchResult result
        (λ fields. object_in (plain_of value.now) ≡ Ok (member_list (plain_fields fields.now).members))
        (λ fault. object_in (plain_of value.now) ≡ Err fault) }
{
    match value {
        Value::Object(fields) => Ok(fields),
        _ => Err(SdkFault::Kind),
    }
}

/// The fields of the object that a value is, which must have all required fields, and besides these only
/// optional ones.
pub fn read_object<'a>(
    value: &'a Value,
    required: &[&[u8]],
    optional: &[&[u8]],
) -> Result<&'a Fields, SdkFault>
    ensures { MatchResult result
        (λ fields. fields_in (texts_now required.now) (texts_now optional.now) (plain_of value.now)
        ≡ Ok (member_list (plain_fields fields.now).members))
        (λ fault. fields_in (texts_now required.now) (texts_now optional.now) (plain_of value.now)
        ≡ Err fault) }
{
    let fields = as_object(value)?;
    if has_only(fields.fields(), required, optional) && has_all(fields, required) {
        Ok(fields)
    } else {
        Err(SdkFault::BadArgument)
    }
}
