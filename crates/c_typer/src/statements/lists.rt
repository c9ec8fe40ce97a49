//! Lists that grow. The functions are generic, since the proof of a drop writes out the whole type unless the type is a
//! parameter.

ghost use Rattle.std.specs.Prelude.{◌≡◌, ◌++◌, ◌∷◌, [], IfOk, OnOk};

use std::alloc::AllocError;

/// Puts an item behind the others.
pub(crate) fn put<T: Drop>(items: &mut Vec<T>, item: T) -> Result<(), AllocError>
    ensures { OnOk result (items.new.items ≡ items.old.items ++ item ∷ []) }
{
    items.push(item)?;
    Ok(())
}

/// The items and one more.
pub(crate) fn with_item<T: Drop>(items: Vec<T>, item: T) -> Result<Vec<T>, AllocError>
    ensures { IfOk result (λ more. more.items ≡ items.items ++ item ∷ []) }
{
    let mut items = items;
    items.push(item)?;
    Ok(items)
}
