//! Lists that grow. The functions are generic, since the proof of a drop writes out the whole type unless the type is a
//! parameter.

ghost use Rattle.std.specs.Prelude.{◌≡◌, ◌==◌, ◌++◌, ◌∷◌, [], IfErr, IfOk, OnOk, false, length};

use std::alloc::{AllocError, Global};

/// Puts an item behind the others.
pub(crate) fn put<T: Drop>(items: &mut Vec<T>, item: T) -> Result<(), AllocError>
    ensures { OnOk result (items.new.items ≡ items.old.items ++ item ∷ []) }
{
    items.push(item)?;
    Ok(())
}

/// One item.
pub(crate) fn only<T: Drop>(alloc: Global, item: T) -> Result<Vec<T>, AllocError>
    ensures { IfOk result (λ items. items.items ≡ item ∷ []) }
{
    let mut items = Vec::new(alloc);
    items.push(item)?;
    Ok(items)
}

/// The items and others behind them.
pub(crate) fn joined<T: Drop>(before: Vec<T>, more: Vec<T>) -> Result<Vec<T>, AllocError>
    ensures { IfOk result (λ all. all.items ≡ before.items ++ more.items) }
{
    let mut before = before;
    let mut more = more;
    before.append(&mut more)?;
    Ok(before)
}

/// The item of a list that has no other one; the list where it has none or several.
pub(crate) fn single<T: Drop>(items: Vec<T>) -> Result<T, Vec<T>>
    ensures one { IfOk result (λ item. items.items ≡ item ∷ []) }
    ensures other { IfErr result (λ others. others.items ≡ items.items) }
    ensures several { IfErr result (λ others. (length others.items == 1) ≡ false) }
{
    let mut items = items;
    if items.len() != 1 {
        return Err(items);
    }
    match items.pop() {
        Some(item) => Ok(item),
        None => Err(items),
    }
}
