//! Building of trees from trees. These functions are generic: a `?` beside an owned tree drops it, and the proof of a
//! drop
//! writes out the whole type unless the type is a parameter.

ghost use Rattle.std.specs.Prelude.{◌≡◌, IfOk, Ok, Err};

use std::alloc::{AllocError, Global};
use tree_containers::Boxed;

/// A value, and what was made beside it, if that was made.
pub fn beside<T: Drop, U, E>(first: T, second: Result<U, E>) -> Result<(T, U), E>
    ensures ok { IfOk result (λ both. (both.0 ≡ first) × (second ≡ Ok both.1)) }
    ensures err { (fault : E) → result ≡ Err fault → second ≡ Err fault }
{
    match second {
        Ok(second) => Ok((first, second)),
        Err(fault) => Err(fault),
    }
}

/// Two values, each in a block of its own, or the answer that there is no memory for them.
pub fn boxed_pair<T: Drop, U: Drop>(
    alloc: Global,
    first: T,
    second: U,
) -> Result<(Boxed<T>, Boxed<U>), AllocError>
    ensures { IfOk result (λ both. (both.0 ≡ first) × (both.1 ≡ second)) }
{
    let first = Boxed::new(alloc, first)?;
    let second = Boxed::new(alloc, second)?;
    Ok((first, second))
}
