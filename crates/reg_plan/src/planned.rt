//! Plans of all functions of a program.

ghost use Rattle.std.specs.Prelude.{◌≡◌, ◌<◌, ◌^◌, ℕ, IfOk, length, Some, slice_get};
ghost use Rattle.flat_code.specs.declared.function.FlatFunction.{FlatFunction};
ghost use Rattle.reg_plan.specs.Planned.{IsPlannable, ArePlannable, IsPlanOfSlots, IsPlanOfRegisters, ArePlanned};

use crate::colouring::{all_at_home, coloured};
use crate::live::live_ranges;
use crate::plan::{FunctionPlan, Plan};
use flat_code::{FlatFunction, FlatProgram};
use std::alloc::{AllocError, Global};

// The plan of one function that keeps all values in their homes.
fn slots_of(
    alloc: Global,
    program: &FlatProgram,
    number: u32,
    function: &FlatFunction,
) -> Result<FunctionPlan, AllocError>
    requires { IsPlannable program.now number function.now }
    ensures { IfOk result (λ plan. IsPlanOfSlots program.now number function.now plan) }
{
    let registers = function.homes.as_slice().len();
    let live = live_ranges(alloc, program, number, function.body.as_slice(), registers)?;
    let places = all_at_home(alloc, registers)?;
    Ok(FunctionPlan { places, live })
}

// The plan of one function that gives out registers.
fn registers_of(
    alloc: Global,
    program: &FlatProgram,
    number: u32,
    function: &FlatFunction,
) -> Result<FunctionPlan, AllocError>
    requires { IsPlannable program.now number function.now }
    ensures { IfOk result (λ plan. IsPlanOfRegisters program.now number function.now plan) }
{
    let registers = function.homes.as_slice().len();
    let body = function.body.as_slice();
    let live = live_ranges(alloc, program, number, body, registers)?;
    let places = coloured(alloc, body, &live)?;
    Ok(FunctionPlan { places, live })
}

/// The plan that keeps each value in its home.
pub fn slots(alloc: Global, program: &FlatProgram) -> Result<Plan, AllocError>
    requires count { length program.now.functions < 2 ^ 32 }
    requires plannable { ArePlannable program.now }
    ensures { IfOk result
        (λ plan. ArePlanned program.now plan.functions.items (length program.now.functions)
        (IsPlanOfSlots program.now)) }
{
    let mut plans = Vec::new(alloc);
    let functions = program.functions.as_slice();
    for number in 0..functions.len() {
        let plan = slots_of(alloc, program, number as u32, &functions[number])?;
        plans.push(plan)?;
    }
    Ok(Plan { functions: plans })
}

/// The plan that gives out registers, as many as the live ranges allow one after another.
pub fn registers(alloc: Global, program: &FlatProgram) -> Result<Plan, AllocError>
    requires count { length program.now.functions < 2 ^ 32 }
    requires plannable { ArePlannable program.now }
    ensures { IfOk result
        (λ plan. ArePlanned program.now plan.functions.items (length program.now.functions)
        (IsPlanOfRegisters program.now)) }
{
    let mut plans = Vec::new(alloc);
    let functions = program.functions.as_slice();
    for number in 0..functions.len() {
        let plan = registers_of(alloc, program, number as u32, &functions[number])?;
        plans.push(plan)?;
    }
    Ok(Plan { functions: plans })
}
