//! The arguments of members that call functions.
ghost use Rattle.std.specs.Prelude.{◌≡◌, Ok, Err, map, MatchResult};
ghost use Rattle.dscript_value.specs.Plain.{item_list, plain_function, plain_of};
ghost use Rattle.dscript_eval_operators.specs.CallbackArguments.{callback_in, function_in, reduction_in};

use dscript_sdk_values::{SdkFault, first_argument, two_arguments};
use dscript_value::{FunctionRef, Value};

fn read_function(value: &Value) -> Result<&FunctionRef, SdkFault>
    ensures { MatchResult result
        (λ f. function_in (plain_of value.now)
        ≡ Ok ((plain_function f.now).callee, item_list (plain_function f.now).held.items))
        (λ fault. function_in (plain_of value.now) ≡ Err fault) }
{
    match value {
        Value::Function(function) => Ok(function),
        _ => Err(SdkFault::Kind),
    }
}

/// The function that is to be called with each item: the first argument.
#[tactic(auto, unfolding(crate::specs::CallbackArguments::callback_in))]
pub fn callback(args: &[Value]) -> Result<&FunctionRef, SdkFault>
    ensures { MatchResult result
        (λ f. callback_in (map plain_of args.now)
        ≡ Ok ((plain_function f.now).callee, item_list (plain_function f.now).held.items))
        (λ fault. callback_in (map plain_of args.now) ≡ Err fault) }
{
    read_function(first_argument(args)?)
}

/// The function that is to be called with each item, and the value with which a reduction begins.
#[tactic(auto, unfolding(crate::specs::CallbackArguments::reduction_in))]
pub fn reduction(args: &[Value]) -> Result<(&FunctionRef, &Value), SdkFault>
    ensures { MatchResult result
        (λ r. reduction_in (map plain_of args.now)
        ≡ Ok (
          ((plain_function r.0.now).callee, item_list (plain_function r.0.now).held.items),
          plain_of r.1.now,
        ))
        (λ fault. reduction_in (map plain_of args.now) ≡ Err fault) }
{
    let (function, value) = two_arguments(args)?;
    Ok((read_function(function)?, value))
}
