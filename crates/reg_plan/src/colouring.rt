//! Registers by greedy colouring: each virtual register gets, in turn, a register in which none is kept that shares an
//! instruction with it; of these the one in which most are kept that copies join to it.

ghost use Rattle.std.specs.Prelude.{◌≡◌, ◌<◌, ◌≤◌, ◌+◌, ◌⊎◌, ℕ, length, None, Some, true, false, slice_get};
ghost use Rattle.std.specs.Prelude.{IfOk, OnOk};
ghost use Rattle.reg_plan.specs.Accepted.{covers};
ghost use Rattle.reg_plan.specs.declared.plan.Place.{Place};
ghost use Rattle.reg_plan.specs.declared.plan.Place.TheVariants.{Home};
ghost use Rattle.reg_plan.specs.Colours.{IsColoured, range_of};
ghost use Rattle.reg_plan.specs.Occupied.{AreSpread, AreAllSpread, Occupies, IsColouring};
ghost use Rattle.reg_plan.specs.Registers.{registers_given_out};

use crate::copies::{Votes, copies_of};
use crate::occupied::{is_free, occupy};
use crate::plan::{LiveInterval, Place, REGISTERS};
use flat_code::FlatInstruction;
use std::alloc::{AllocError, Global};

// Whether a register is in use at no instruction of a live range.
fn is_register_free(used: &[Vec<LiveInterval>], register: u32, range: &[LiveInterval]) -> bool
    requires inside { register < length used.now }
    requires spread { AreAllSpread used.now }
    ensures free { result ≡ true → (pc : ℕ) → covers range.now pc ≡ true
        → covers (range_of used.now register) pc ≡ false }
    ensures taken { result ≡ false → (pc : ℕ) × (covers range.now pc ≡ true)
        × (covers (range_of used.now register) pc ≡ true) }
{
    is_free(used[register as usize].as_slice(), range)
}

// A register that is in use at no instruction of a live range; if there are several, one with the most votes.
fn free_register(used: &[Vec<LiveInterval>], range: &[LiveInterval], votes: &Votes) -> Option<u32>
    requires count { length used.now ≡ registers_given_out }
    requires spread { AreAllSpread used.now }
    ensures given { (r : ℕ) → result ≡ Some r → r < registers_given_out }
    ensures free { (r : ℕ) → result ≡ Some r → (pc : ℕ) → covers range.now pc ≡ true
        → covers (range_of used.now r) pc ≡ false }
    ensures taken { result ≡ None → (r : ℕ) → r < registers_given_out → (pc : ℕ) × (covers range.now pc ≡ true)
        × (covers (range_of used.now r) pc ≡ true) }
{
    let mut best = None;
    for register in 0..REGISTERS {
        best = better(used, range, votes, best, register);
    }
    best
}

// The same of one that was found, if one was, and one register more.
fn better(
    used: &[Vec<LiveInterval>],
    range: &[LiveInterval],
    votes: &Votes,
    best: Option<u32>,
    register: u32,
) -> Option<u32>
    requires inside { register < length used.now }
    requires spread { AreAllSpread used.now }
    ensures one { (r : ℕ) → result ≡ Some r → (best ≡ Some r) ⊎ ((r ≡ register)
        × ((pc : ℕ) → covers range.now pc ≡ true → covers (range_of used.now register) pc ≡ false)) }
    ensures none { result ≡ None → (best ≡ None) × ((pc : ℕ) × (covers range.now pc ≡ true)
        × (covers (range_of used.now register) pc ≡ true)) }
{
    if let Some(found) = best {
        if votes.of(register) <= votes.of(found) {
            return best;
        }
    }
    if is_register_free(used, register, range) {
        return Some(register);
    }
    best
}

// Puts a live range among the instructions at which a register is in use.
fn use_register(
    used: &mut Vec<Vec<LiveInterval>>,
    register: u32,
    range: &[LiveInterval],
) -> Result<(), AllocError>
    requires inside { register < length used.old.items }
    requires spread { AreSpread (range_of used.old.items register) }
    ensures { OnOk result (Occupies used.old.items used.new.items register range.now) }
{
    let row = &mut used[register as usize];
    occupy(row, range)
}

// A place for one virtual register more, of a live range.
fn give(
    places: &mut Vec<Place>,
    used: &mut Vec<Vec<LiveInterval>>,
    ranges: &[Vec<LiveInterval>],
    next: usize,
    votes: &Votes,
) -> Result<(), AllocError>
    requires next { length places.old.items ≡ next }
    requires inside { next < length ranges.now }
    requires colouring { IsColouring ranges.now places.old.items used.old.items }
    ensures colouring { OnOk result (IsColouring ranges.now places.new.items used.new.items) }
    ensures size { OnOk result (length places.new.items ≡ next + 1) }
{
    let range = ranges[next].as_slice();
    match free_register(used.as_slice(), range, votes) {
        Some(register) => {
            use_register(used, register, range)?;
            places.push(Place::Register(register))?;
        }
        None => places.push(Place::Home)?,
    }
    Ok(())
}

// For each register the instructions at which it is in use: none.
fn none_used(alloc: Global) -> Result<Vec<Vec<LiveInterval>>, AllocError>
    ensures count { IfOk result (λ used. length used.items ≡ registers_given_out) }
    ensures none { IfOk result (λ used. (r pc : ℕ) → covers (range_of used.items r) pc ≡ false) }
    ensures spread { IfOk result (λ used. AreAllSpread used.items) }
{
    let mut used = Vec::new(alloc);
    for _ in 0..REGISTERS {
        used.push(Vec::new(alloc))?;
    }
    Ok(used)
}

/// A place for each virtual register of a function, from the live ranges. An interval is looked for by halving, and put
/// in by moving those behind it in its register.
pub fn coloured(
    alloc: Global,
    body: &[FlatInstruction],
    ranges: &[Vec<LiveInterval>],
) -> Result<Vec<Place>, AllocError>
    ensures coloured { IfOk result (λ places. IsColoured ranges.now places.items registers_given_out) }
    ensures size { IfOk result (λ places. length places.items ≡ length ranges.now) }
{
    let copies = copies_of(alloc, body, ranges.len())?;
    let mut votes = Votes::new(alloc)?;
    let mut used = none_used(alloc)?;
    let mut places = Vec::new(alloc);
    for next in 0..ranges.len() {
        votes.count(places.as_slice(), copies.images(next));
        give(&mut places, &mut used, ranges, next, &votes)?;
    }
    Ok(places)
}

/// The places of so many virtual registers, each in its home.
pub fn all_at_home(alloc: Global, count: usize) -> Result<Vec<Place>, AllocError>
    ensures home { IfOk result
        (λ places. (y : ℕ) (place : Place) → slice_get places.items y ≡ Some place → place ≡ Home) }
    ensures size { IfOk result (λ places. length places.items ≡ count) }
{
    let mut places = Vec::new(alloc);
    for _ in 0..count {
        places.push(Place::Home)?;
    }
    Ok(places)
}
