//! Lists that items are put behind.

ghost use Rattle.std.specs.Prelude.{◌≡◌, ◌++◌, ◌∷◌, [], IfOk, OnOk};

use std::alloc::AllocError;

// Puts an item behind a list.
pub(crate) fn put<T: Copy>(code: &mut Vec<T>, item: T) -> Result<(), AllocError>
    ensures { OnOk result (code.new.items ≡ code.old.items ++ item ∷ []) }
{
    code.push(item)?;
    Ok(())
}

// Puts an owned item behind a list.
pub(crate) fn push<T: Drop>(list: &mut Vec<T>, item: T) -> Result<(), AllocError>
    ensures { OnOk result (list.new.items ≡ list.old.items ++ item ∷ []) }
{
    list.push(item)?;
    Ok(())
}

// A list with others behind it, and one more at its end.
pub(crate) fn joined<T: Drop>(list: Vec<T>, others: Vec<T>, last: T) -> Result<Vec<T>, AllocError>
    ensures { IfOk result (λ all. all.items ≡ list.items ++ (others.items ++ last ∷ [])) }
{
    let mut list = list;
    let mut others = others;
    others.push(last)?;
    list.append(&mut others)?;
    Ok(list)
}
