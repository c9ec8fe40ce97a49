//! Things by their numbers, of which the first with a number counts.

ghost use Rattle.std.specs.Prelude.{◌≡◌, ◌+◌, drop, get_or, length, replicate, IfOk, None};
ghost use Rattle.c_programs.specs.Slots.{placed};

use std::alloc::{AllocError, Global};

/// So many places, which are empty.
#[tactic(auto, using(crate::proofs::Placing::one_more))]
pub fn empty<T: Drop>(alloc: Global, count: usize) -> Result<Vec<Option<T>>, AllocError>
    ensures { IfOk result (λ slots. slots.items ≡ replicate count None) }
{
    let mut slots = Vec::new(alloc);
    for _place in 0..count {
        slots.push(None)?;
    }
    Ok(slots)
}

/// Puts a thing at the place with its number, where that is there and empty.
#[tactic(auto, using(crate::proofs::Placing::placing))]
pub fn put<T: Drop>(slots: &mut Vec<Option<T>>, number: usize, item: T)
    ensures { slots.new.items ≡ placed number item slots.old.items }
{
    if number >= slots.len() {
        return;
    }
    if slots[number].is_none() {
        slots[number] = Some(item);
    }
}

/// Takes the thing with a number, where there is one.
pub fn taken<T: Drop>(slots: &mut Vec<Option<T>>, number: usize) -> Option<T>
    ensures value { result ≡ get_or slots.old.items number None }
    ensures others { drop (number + 1) slots.new.items ≡ drop (number + 1) slots.old.items }
    ensures size { length slots.new.items ≡ length slots.old.items }
{
    if number < slots.len() {
        slots[number].take()
    } else {
        None
    }
}
