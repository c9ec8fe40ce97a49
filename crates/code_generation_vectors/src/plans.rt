//! Which programs can be planned.

ghost use Rattle.std.specs.Prelude.{◌≡◌, ◌<◌, ◌^◌, ℕ, IfOk, length, Some, true, slice_get};
ghost use Rattle.flat_code.specs.declared.function.FlatFunction.{FlatFunction};
ghost use Rattle.reg_plan.specs.Effects.{is_among};
ghost use Rattle.reg_plan.specs.Flow.{IsNamed};
ghost use Rattle.reg_plan.specs.Planned.{ArePlannable, ArePlanned};
ghost use Rattle.code_generation_vectors.specs.Named.{HasNames, IsSmall, AreNamed, HasNeeded};

use flat_code::{FlatFunction, FlatInstruction, FlatProgram};
use reg_plan::accepts::accepts;
use reg_plan::colouring::all_at_home;
use reg_plan::effects::{Span, made_by, read_by};
use reg_plan::live::live_ranges;
use reg_plan::{FunctionPlan, Plan};
use std::alloc::{AllocError, Global};

// Whether registers have numbers below a count.
fn is_within(span: Span, count: usize) -> bool
    ensures { result ≡ true → (y : ℕ) → is_among span y ≡ true → y < count }
{
    u64::from(span.first) + u64::from(span.count) <= count as u64
}

// Whether all that an instruction reads and makes has a home.
fn has_names(
    program: &FlatProgram,
    number: u32,
    instruction: &FlatInstruction,
    count: usize,
) -> bool
    ensures { result ≡ true → HasNames program.now number instruction.now count }
{
    let reads = read_by(program, number, instruction);
    let made = made_by(program, instruction);
    is_within(reads.left, count)
        && is_within(reads.right, count)
        && is_within(reads.others, count)
        && is_within(made, count)
}

// Whether all that a function reads and makes has a home.
fn is_named(program: &FlatProgram, number: u32, body: &[FlatInstruction], count: usize) -> bool
    ensures { result ≡ true → IsNamed program.now number body.now count }
{
    for place in 0..body.len() {
        if !has_names(program, number, &body[place], count) {
            return false;
        }
    }
    true
}

// Whether the instructions of a function have numbers of 32 bits.
fn has_few_instructions(function: &FlatFunction) -> bool
    ensures { result ≡ true → length function.now.body < 2 ^ 32 }
{
    function.body.as_slice().len() <= 10_000_000
}

// Whether functions and instructions have numbers of 32 bits.
fn is_small(program: &FlatProgram) -> bool
    ensures { result ≡ true → IsSmall program.now }
{
    let functions = program.functions.as_slice();
    if functions.len() > 4096 {
        return false;
    }
    for number in 0..functions.len() {
        if !has_few_instructions(&functions[number]) {
            return false;
        }
    }
    true
}

// Whether all names of a function have homes.
fn has_homes(program: &FlatProgram, number: u32, function: &FlatFunction) -> bool
    ensures { result ≡ true → IsNamed program.now number function.now.body (length function.now.homes) }
{
    let count = function.homes.as_slice().len();
    is_named(program, number, function.body.as_slice(), count)
}

// Whether all names of all functions have homes.
fn are_named(program: &FlatProgram) -> bool
    requires { IsSmall program.now }
    ensures { result ≡ true → AreNamed program.now (length program.now.functions) }
{
    let functions = program.functions.as_slice();
    for number in 0..functions.len() {
        if !has_homes(program, number as u32, &functions[number]) {
            return false;
        }
    }
    true
}

// The plan of a function that keeps all values in their homes.
fn plan_of(
    alloc: Global,
    program: &FlatProgram,
    number: u32,
    function: &FlatFunction,
) -> Result<FunctionPlan, AllocError>
    requires small { length function.now.body < 2 ^ 32 }
    requires named { IsNamed program.now number function.now.body (length function.now.homes) }
    ensures { IfOk result (λ plan. HasNeeded program.now number function.now plan) }
{
    let count = function.homes.as_slice().len();
    let live = live_ranges(alloc, program, number, function.body.as_slice(), count)?;
    let places = all_at_home(alloc, count)?;
    Ok(FunctionPlan { places, live })
}

// The plans of all functions.
fn plan_at_home(alloc: Global, program: &FlatProgram) -> Result<Plan, AllocError>
    requires small { IsSmall program.now }
    requires named { AreNamed program.now (length program.now.functions) }
    ensures { IfOk result (λ plan. ArePlanned program.now plan.functions.items (length program.now.functions)
        (HasNeeded program.now)) }
{
    let mut plans = Vec::new(alloc);
    let functions = program.functions.as_slice();
    for number in 0..functions.len() {
        let plan = plan_of(alloc, program, number as u32, &functions[number])?;
        plans.push(plan)?;
    }
    Ok(Plan { functions: plans })
}

/// Whether functions and instructions have numbers of 32 bits, and all names have homes.
pub fn is_readable(program: &FlatProgram) -> bool
    ensures small { result ≡ true → IsSmall program.now }
    ensures named { result ≡ true → AreNamed program.now (length program.now.functions) }
{
    is_small(program) && are_named(program)
}

/// Whether a program can be planned: the plan that keeps all values in their homes is accepted.
pub fn is_plannable(alloc: Global, program: &FlatProgram) -> Result<bool, AllocError>
    requires small { IsSmall program.now }
    requires named { AreNamed program.now (length program.now.functions) }
    ensures { IfOk result (λ yes. yes ≡ true → ArePlannable program.now) }
{
    let plan = plan_at_home(alloc, program)?;
    Ok(accepts(program, &plan))
}
