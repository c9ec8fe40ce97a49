//! Lists that items are put behind.

ghost use Rattle.std.specs.Prelude.{◌≡◌, ◌++◌, ◌∷◌, [], OnOk};

use std::alloc::AllocError;

// Puts an item behind a list.
pub(crate) fn put<T: Copy>(code: &mut Vec<T>, item: T) -> Result<(), AllocError>
    ensures { OnOk result (code.new.items ≡ code.old.items ++ item ∷ []) }
{
    code.push(item)?;
    Ok(())
}

// Puts a list behind another.
pub(crate) fn append<T: Copy>(code: &mut Vec<T>, list: &[T]) -> Result<(), AllocError>
    ensures { OnOk result (code.new.items ≡ code.old.items ++ list.now) }
{
    code.extend_from_slice(list)?;
    Ok(())
}
