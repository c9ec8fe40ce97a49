//! Whether a plan is accepted. The test takes no memory, and time that grows with the product of the numbers of
//! instructions and of virtual registers; plans that `slots` and `registers` make need no test.

ghost use Rattle.std.specs.Prelude.{◌≡◌, ◌<◌, ◌≤◌, ◌+◌, ◌*◌, ◌^◌, ℕ, Option, length, Some, true};
ghost use Rattle.std.specs.Prelude.{false, slice_get};
ghost use Rattle.flat_code.specs.declared.function.FlatFunction.{FlatFunction};
ghost use Rattle.reg_plan.specs.declared.plan.Place.{Place};
ghost use Rattle.reg_plan.specs.declared.plan.Place.TheVariants.{Register};
ghost use Rattle.reg_plan.specs.Accepted.{covers, is_live, IsLive, HasHome, IsAccepted};
ghost use Rattle.reg_plan.specs.Colours.{range_of};
ghost use Rattle.reg_plan.specs.Registers.{registers_given_out};
ghost use Rattle.reg_plan.specs.Tests.{Meet, AreApart, IsPlaced, IsKept, AreAccepted};

use crate::apart::{are_kept_apart, home_of, overlap, place_of, range_of};
use crate::closed::{is_closed, is_live};
use crate::plan::{FunctionPlan, LiveInterval, Place, Plan, REGISTERS};
use crate::record::record_bytes;
use flat_code::{FlatFunction, FlatProgram};

// Whether a live range has one of the first so many instructions.
fn is_somewhere(range: &[LiveInterval], count: u64) -> bool
    ensures yes { result ≡ true → (pc : ℕ) × (pc < count) × (covers range.now pc ≡ true) }
    ensures no { (pc : ℕ) → pc < count → covers range.now pc ≡ true → result ≡ true }
{
    for interval in range {
        if overlap(*interval, *interval, count) {
            return true;
        }
    }
    false
}

// Whether a virtual register has a home within the activation record.
fn has_home(function: &FlatFunction, register: usize) -> bool
    ensures yes { result ≡ true → HasHome function.now register }
    ensures no { HasHome function.now register → result ≡ true }
{
    match home_of(function, register) {
        Some(word) => 8 * u128::from(word) + 16 <= record_bytes(function),
        None => false,
    }
}

// Whether it has a place, which is none but its home and the registers that are given out.
fn has_place(plan: &FunctionPlan, register: usize) -> bool
    ensures place { result ≡ true → (place : Place) × (slice_get plan.now.places.items register ≡ Some place) }
    ensures given { result ≡ true → (r : ℕ) → slice_get plan.now.places.items register ≡ Some (Register r)
        → r < registers_given_out }
    ensures no { (place : Place) → slice_get plan.now.places.items register ≡ Some place
        → ((r : ℕ) → slice_get plan.now.places.items register ≡ Some (Register r) → r < registers_given_out) → result ≡ true }
{
    match place_of(plan, register) {
        Some(Place::Home) => true,
        Some(Place::Register(number)) => number < REGISTERS,
        None => false,
    }
}

// Whether a virtual register has both, where it is live.
fn is_placed(function: &FlatFunction, plan: &FunctionPlan, register: usize, count: u64) -> bool
    ensures yes { result ≡ true → (pc : ℕ) → pc < count → IsLive plan.now pc register
        → IsPlaced function.now plan.now register }
    ensures no { ((pc : ℕ) → pc < count → IsLive plan.now pc register → IsPlaced function.now plan.now register)
        → result ≡ true }
{
    if !is_somewhere(range_of(plan, register), count) {
        return true;
    }
    has_home(function, register) && has_place(plan, register)
}

// Whether a virtual register that is live at the entry is a parameter.
fn is_entered(function: &FlatFunction, plan: &FunctionPlan, register: usize, count: u64) -> bool
    ensures yes { result ≡ true → 0 < count → IsLive plan.now 0 register → register < function.now.parameters }
    ensures no { (0 < count → IsLive plan.now 0 register → register < function.now.parameters) → result ≡ true }
{
    if count == 0 || !is_live(plan, 0, register as u64) {
        return true;
    }
    (register as u64) < u64::from(function.parameters)
}

// Whether a virtual register is kept apart from those before it.
fn is_apart(function: &FlatFunction, plan: &FunctionPlan, register: usize, count: u64) -> bool
    ensures yes { result ≡ true → (y : ℕ) → y < register
        → Meet count (range_of plan.now.live.items register) (range_of plan.now.live.items y)
        → AreApart function.now plan.now register y }
    ensures no { ((y : ℕ) → y < register
        → Meet count (range_of plan.now.live.items register) (range_of plan.now.live.items y)
        → AreApart function.now plan.now register y) → result ≡ true }
{
    for other in 0..register {
        if !are_kept_apart(function, plan, register, other, count) {
            return false;
        }
    }
    true
}

// Whether a virtual register is kept as it must be.
fn is_kept(function: &FlatFunction, plan: &FunctionPlan, register: usize, count: u64) -> bool
    ensures yes { result ≡ true → IsKept function.now plan.now count register }
    ensures no { IsKept function.now plan.now count register → result ≡ true }
{
    is_placed(function, plan, register, count)
        && is_entered(function, plan, register, count)
        && is_apart(function, plan, register, count)
}

// Whether all virtual registers are.
fn are_kept(function: &FlatFunction, plan: &FunctionPlan, count: u64) -> bool
    ensures yes { result ≡ true → (x : ℕ) → IsKept function.now plan.now count x }
    ensures no { ((x : ℕ) → IsKept function.now plan.now count x) → result ≡ true }
{
    for register in 0..plan.live.len() {
        if !is_kept(function, plan, register, count) {
            return false;
        }
    }
    true
}

// Whether the plan of a function is accepted.
fn is_accepted(
    program: &FlatProgram,
    number: u32,
    function: &FlatFunction,
    plan: &FunctionPlan,
) -> bool
    requires { length function.now.body < 2 ^ 32 }
    ensures yes { result ≡ true → IsAccepted program.now number function.now plan.now }
    ensures no { IsAccepted program.now number function.now plan.now → result ≡ true }
{
    let body = function.body.as_slice();
    is_closed(program, number, body, plan) && are_kept(function, plan, body.len() as u64)
}

/// Whether the plans of all functions of a program are accepted.
pub fn accepts(program: &FlatProgram, plan: &Plan) -> bool
    requires functions { length program.now.functions < 2 ^ 32 }
    requires instructions { (k : ℕ) (f : FlatFunction) → slice_get program.now.functions k ≡ Some f
        → length f.body < 2 ^ 32 }
    ensures yes { result ≡ true → AreAccepted program.now plan.now.functions.items }
    ensures no { AreAccepted program.now plan.now.functions.items → result ≡ true }
{
    let functions = program.functions.as_slice();
    let plans = plan.functions.as_slice();
    if functions.len() != plans.len() {
        return false;
    }
    for number in 0..functions.len() {
        if !is_accepted(program, number as u32, &functions[number], &plans[number]) {
            return false;
        }
    }
    true
}
