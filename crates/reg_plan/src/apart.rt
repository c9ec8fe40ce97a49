//! Whether values that are live together are kept apart.

ghost use Rattle.std.specs.Prelude.{◌≡◌, ◌≢◌, ◌<◌, ◌≤◌, ◌+◌, ◌*◌, ◌^◌, ℕ, Option, length};
ghost use Rattle.std.specs.Prelude.{Some, true, false, slice_get};
ghost use Rattle.reg_plan.specs.declared.plan.Place.{Place};
ghost use Rattle.reg_plan.specs.declared.plan.Place.TheVariants.{Register};
ghost use Rattle.reg_plan.specs.Accepted.{holds, covers, is_live, IsLive, intervals_of};
ghost use Rattle.reg_plan.specs.Colours.{range_of};
ghost use Rattle.reg_plan.specs.Tests.{Meet, AreApart, IsPlaced};

use crate::plan::{FunctionPlan, LiveInterval, Place};
use flat_code::FlatFunction;

// Whether two intervals have an instruction in common, one of the first so many.
pub(crate) fn overlap(left: LiveInterval, right: LiveInterval, count: u64) -> bool
    ensures yes { result ≡ true → (pc : ℕ) × (pc < count) × (holds left pc ≡ true) × (holds right pc ≡ true) }
    ensures no { (pc : ℕ) → pc < count → holds left pc ≡ true → holds right pc ≡ true → result ≡ true }
{
    let start = u64::from(left.start.max(right.start));
    start < u64::from(left.end.min(right.end)) && start < count
}

// The same of an interval and a live range.
fn interval_meets(left: LiveInterval, range: &[LiveInterval], count: u64) -> bool
    ensures yes { result ≡ true → (pc : ℕ) × (pc < count) × (holds left pc ≡ true) × (covers range.now pc ≡ true) }
    ensures no { (pc : ℕ) → pc < count → holds left pc ≡ true → covers range.now pc ≡ true → result ≡ true }
{
    for right in range {
        if overlap(left, *right, count) {
            return true;
        }
    }
    false
}

// The same of two live ranges.
fn meet(left: &[LiveInterval], right: &[LiveInterval], count: u64) -> bool
    ensures yes { result ≡ true → Meet count left.now right.now }
    ensures no { Meet count left.now right.now → result ≡ true }
{
    for interval in left {
        if interval_meets(*interval, right, count) {
            return true;
        }
    }
    false
}

// The live range of a virtual register.
pub(crate) fn range_of(plan: &FunctionPlan, register: usize) -> &[LiveInterval]
    ensures { result.now ≡ range_of plan.now.live.items register }
{
    match plan.live.get(register) {
        Some(range) => range.as_slice(),
        None => &[],
    }
}

// The home of a virtual register.
pub(crate) fn home_of(function: &FlatFunction, register: usize) -> Option<u32>
    ensures { result ≡ slice_get function.now.homes register }
{
    match function.homes.as_slice().get(register) {
        Some(word) => Some(*word),
        None => None,
    }
}

// The place of a virtual register.
pub(crate) fn place_of(plan: &FunctionPlan, register: usize) -> Option<Place>
    ensures { result ≡ slice_get plan.now.places.items register }
{
    match plan.places.get(register) {
        Some(place) => Some(*place),
        None => None,
    }
}

// Whether two homes are one.
fn is_same_home(left: Option<u32>, right: Option<u32>) -> bool
    ensures yes { result ≡ true → (w : ℕ) × (left ≡ Some w) × (right ≡ Some w) }
    ensures no { (w : ℕ) → left ≡ Some w → right ≡ Some w → result ≡ true }
{
    match (left, right) {
        (Some(one), Some(other)) => one == other,
        _ => false,
    }
}

// Whether two places are one register.
fn is_same_register(left: Option<Place>, right: Option<Place>) -> bool
    ensures yes { result ≡ true → (r : ℕ) × (left ≡ Some (Register r)) × (right ≡ Some (Register r)) }
    ensures no { (r : ℕ) → left ≡ Some (Register r) → right ≡ Some (Register r) → result ≡ true }
{
    match (left, right) {
        (Some(Place::Register(one)), Some(Place::Register(other))) => one == other,
        _ => false,
    }
}

// Whether two virtual registers may be live together.
fn are_apart(function: &FlatFunction, plan: &FunctionPlan, x: usize, y: usize) -> bool
    ensures yes { result ≡ true → AreApart function.now plan.now x y }
    ensures no { AreApart function.now plan.now x y → result ≡ true }
{
    !is_same_home(home_of(function, x), home_of(function, y))
        && !is_same_register(place_of(plan, x), place_of(plan, y))
}

// Whether two virtual registers are kept apart: they may be live together, or never are.
pub(crate) fn are_kept_apart(
    function: &FlatFunction,
    plan: &FunctionPlan,
    x: usize,
    y: usize,
    count: u64,
) -> bool
    ensures yes { result ≡ true → Meet count (range_of plan.now.live.items x) (range_of plan.now.live.items y)
        → AreApart function.now plan.now x y }
    ensures no { (Meet count (range_of plan.now.live.items x) (range_of plan.now.live.items y)
        → AreApart function.now plan.now x y) → result ≡ true }
{
    are_apart(function, plan, x, y) || !meet(range_of(plan, x), range_of(plan, y), count)
}
