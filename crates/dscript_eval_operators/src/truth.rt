//! Which values count as true.
ghost use Rattle.std.specs.Prelude.{◌≡◌};
ghost use Rattle.dscript_value.specs.Plain.{plain_of};
ghost use Rattle.dscript_eval_operators.specs.Truth as spec;

use dscript_value::Value;

/// Whether a value counts as true, as all but `undefined`, `false`, 0 and the empty text do.
#[tactic(auto, unfolding(crate::specs::Truth::is_true))]
pub fn is_true(value: &Value) -> bool
    ensures { result ≡ spec.is_true (plain_of value.now) }
{
    match value {
        Value::Undefined => false,
        Value::Flag(flag) => *flag,
        Value::Number(number) => *number != 0,
        Value::Text(text) => !text.bytes().is_empty(),
        _ => true,
    }
}
