//! Values that are needed no more. The function is generic, since the proof of a drop writes out the whole type unless
//! the type is a parameter.

ghost use Rattle.std.specs.Prelude.{◌≡◌};

/// What was made of a value, which is dropped.
pub(crate) fn without<T: Drop, U>(_value: T, made: U) -> U
    ensures { result ≡ made }
{
    made
}
