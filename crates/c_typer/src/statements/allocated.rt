//! A value in a block of memory of its own, which can be taken out again. What hands a statement on, and its proof, pay
//! for the size of the statement itself; they hand this on.

ghost use Rattle.std.specs.Prelude.{◌≡◌, ◌++◌, ◌∷◌, [], IfOk};

use std::alloc::{AllocError, Global};
use std::marker::Model;
use tree_containers::Boxed;

/// A value in a block of its own. Contracts see the value.
#[derive(Drop)]
pub struct Allocated<T> {
    inner: Box<T>,
}

impl<T> Model for Allocated<T> {
    ghost Value = { T };

    ghost coded = { T.code };

    ghost view = { λ allocated. allocated.inner.value };
}

impl<T: Drop> Allocated<T> {
    /// The value in a block of its own, or the answer that there is no memory for it.
    pub(crate) fn new(alloc: Global, value: T) -> Result<Allocated<T>, AllocError>
        ensures { IfOk result (λ allocated. allocated ≡ value) }
    {
        Ok(Allocated {
            inner: Box::new(alloc, value)?,
        })
    }

    /// The value where it lies.
    pub(crate) fn get(&self) -> &T
        ensures { result.now ≡ self.now }
    {
        &self.inner
    }

    /// The value.
    pub(crate) fn take(self) -> T
        ensures { result ≡ self }
    {
        let Allocated { inner } = self;
        Box::into_inner(inner)
    }
}

/// The value as a part of a tree.
pub(crate) fn boxed<T: Drop>(alloc: Global, value: Allocated<T>) -> Result<Boxed<T>, AllocError>
    ensures { IfOk result (λ boxed. boxed ≡ value) }
{
    Boxed::new(alloc, value.take())
}

/// Two values as parts of a tree.
pub(crate) fn boxed_pair<T: Drop>(
    alloc: Global,
    first: Allocated<T>,
    second: Allocated<T>,
) -> Result<(Boxed<T>, Boxed<T>), AllocError>
    ensures { IfOk result (λ both. (both.0 ≡ first) × (both.1 ≡ second)) }
{
    let first = boxed(alloc, first)?;
    let second = boxed(alloc, second)?;
    Ok((first, second))
}

/// The items and one more.
pub(crate) fn with_allocated<T: Drop>(
    items: Vec<T>,
    item: Allocated<T>,
) -> Result<Vec<T>, AllocError>
    ensures { IfOk result (λ more. more.items ≡ items.items ++ item ∷ []) }
{
    let mut items = items;
    items.push(item.take())?;
    Ok(items)
}

/// The value, if it is there.
pub(crate) fn taken<T: Drop>(value: Option<Allocated<T>>) -> Option<T>
    ensures { result ≡ value }
{
    match value {
        None => None,
        Some(value) => Some(value.take()),
    }
}
