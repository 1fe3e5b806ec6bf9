//! `===` and `!==`.
ghost use Rattle.std.specs.Prelude.{◌≡◌, Ok, Err, MatchResult};
ghost use Rattle.dscript_value.specs.Plain.{plain_of};
ghost use Rattle.dscript_eval_operators.specs.Equalities as spec;

use dscript_sdk_values::SdkFault;
use dscript_value::{NoOrder, Value, equal};

// `===`
#[tactic(auto, unfolding(crate::specs::Equalities::is_equal))]
pub(crate) fn is_equal(a: &Value, b: &Value) -> Result<Value, SdkFault>
    ensures { MatchResult result
        (λ value. spec.is_equal (plain_of a.now) (plain_of b.now) ≡ Ok (plain_of value))
        (λ fault. spec.is_equal (plain_of a.now) (plain_of b.now) ≡ Err fault) }
{
    match equal(a, b) {
        Ok(same) => Ok(Value::Flag(same)),
        Err(NoOrder) => Err(SdkFault::Kind),
    }
}

// `!==`
#[tactic(auto, unfolding(crate::specs::Equalities::is_unequal))]
pub(crate) fn is_unequal(a: &Value, b: &Value) -> Result<Value, SdkFault>
    ensures { MatchResult result
        (λ value. spec.is_unequal (plain_of a.now) (plain_of b.now) ≡ Ok (plain_of value))
        (λ fault. spec.is_unequal (plain_of a.now) (plain_of b.now) ≡ Err fault) }
{
    match equal(a, b) {
        Ok(same) => Ok(Value::Flag(!same)),
        Err(NoOrder) => Err(SdkFault::Kind),
    }
}
