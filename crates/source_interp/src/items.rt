//! Items of slices and vectors.

ghost use Rattle.std.specs.Prelude.{◌≡◌, ◌<◌, ◌++◌, [], ◌∷◌, get_or, length, OnOk};

use std::alloc::AllocError;

/// The item with a number.
pub fn nth<T: Copy>(items: &[T], number: usize) -> T
    requires { number < length items.now }
    ensures { result ≡ get_or items.now number result }
{
    items[number]
}

/// One byte more.
pub fn append(bytes: &mut Vec<u8>, byte: u8) -> Result<(), AllocError>
    ensures { OnOk result (bytes.new.items ≡ bytes.old.items ++ (byte ∷ [])) }
{
    bytes.push(byte)?;
    Ok(())
}
