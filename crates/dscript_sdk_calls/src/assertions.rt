//! Refusals that a specification asks for.
ghost use Rattle.std.specs.Prelude.{◌≡◌, Ok, map, MatchResult};
ghost use Rattle.dscript_sdk_values.specs.Outcomes.{Refuses};
ghost use Rattle.dscript_sdk_calls.specs.ContractAssert as assertions;
ghost use Rattle.dscript_sdk_calls.specs.ContractFail as failures;
ghost use Rattle.dscript_value.specs.Plain.{plain_of};

use bx_tree::Text;
use dscript_sdk_values::{FromValue, SdkFault, first_argument, read_flag, two_arguments};
use dscript_value::Value;
use std::alloc::Global;

/// Always refuses, with a message.
#[tactic(auto, unfolding(crate::specs::ContractFail::contract_fail))]
pub fn contract_fail(alloc: Global, args: &[Value]) -> Result<Value, SdkFault>
    ensures { MatchResult result
        (λ value. failures.contract_fail (map plain_of args.now) ≡ Ok (plain_of value))
        (λ fault. Refuses fault (failures.contract_fail (map plain_of args.now))) }
{
    let message = Text::from_value(alloc, first_argument(args)?)?;
    Err(SdkFault::User(message))
}

/// Refuses with a message unless a flag is true.
#[tactic(auto, unfolding(crate::specs::ContractAssert::contract_assert))]
pub fn contract_assert(alloc: Global, args: &[Value]) -> Result<Value, SdkFault>
    ensures { MatchResult result
        (λ value. assertions.contract_assert (map plain_of args.now) ≡ Ok (plain_of value))
        (λ fault. Refuses fault (assertions.contract_assert (map plain_of args.now))) }
{
    let (holds, message) = two_arguments(args)?;
    let holds = read_flag(holds)?;
    let message = Text::from_value(alloc, message)?;
    if holds {
        Ok(Value::Undefined)
    } else {
        Err(SdkFault::User(message))
    }
}
