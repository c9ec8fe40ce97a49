//! How many bytes an activation record has.

ghost use Rattle.std.specs.Prelude.{◌≡◌};
ghost use Rattle.flat_code.specs.Calls.{record_bytes};

use flat_code::FlatFunction;

/// The bytes of the activation record of a function.
pub fn record_bytes(function: &FlatFunction) -> u128
    ensures { result ≡ record_bytes function.now }
{
    if function.is_runtime {
        u128::from(function.room)
    } else {
        2 * u128::from(function.room)
    }
}
