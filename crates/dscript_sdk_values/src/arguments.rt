//! The arguments of a call.
ghost use Rattle.std.specs.Prelude.{◌≡◌, Ok, Err, map, MatchResult};
ghost use Rattle.dscript_value.specs.Plain.{plain_of};
ghost use Rattle.dscript_sdk_values.specs.Arguments.{one_of, two_of};

use crate::fault::SdkFault;
use dscript_value::Value;

/// The first argument. Further ones are dropped.
pub fn first_argument(args: &[Value]) -> Result<&Value, SdkFault>
    ensures { MatchResult result
        (λ value. one_of (map plain_of args.now) ≡ Ok (plain_of value.now))
        (λ fault. one_of (map plain_of args.now) ≡ Err fault) }
{
    match args.split_first() {
        Some((value, _)) => Ok(value),
        None => Err(SdkFault::BadArgument),
    }
}

/// The first two arguments. Further ones are dropped.
pub fn two_arguments(args: &[Value]) -> Result<(&Value, &Value), SdkFault>
    ensures { MatchResult result
        (λ two. two_of (map plain_of args.now) ≡ Ok (plain_of two.0.now, plain_of two.1.now))
        (λ fault. two_of (map plain_of args.now) ≡ Err fault) }
{
    match args {
        [first, second, ..] => Ok((first, second)),
        _ => Err(SdkFault::BadArgument),
    }
}
