//! Whether a program is within limits.

ghost use Rattle.std.specs.Prelude.{◌≡◌, ◌<◌, ◌≤◌, ◌^◌, ◌↔◌, length, IfOk, IsTrue, Some, slice_get};
ghost use Rattle.metadata_plan.specs.Registers.{most_temporaries};
ghost use Rattle.metadata_relation.specs.StartData.{statics_end};
ghost use Rattle.metadata_relation.specs.Structures.{HasAreas};
ghost use Rattle.program_expansion.specs.Limits.{AreWithinLimits, IsSmall, IsWithinLimits};

use crate::names::name_own;
use crate::sizes::{has_few_registers, have_few_bytes, have_objects_of};
use instruction_selection::areas::structure_areas;
use static_data::pointers::rounded;
use std::alloc::{AllocError, Global};
use tac_ir::{CodeFunction, StaticData, Tac};

// Whether the numbers of a function fit, and its body declares its own objects.
fn is_small(function: &CodeFunction) -> bool
    ensures { IsTrue result ↔ IsSmall function.now }
{
    let parameters = function.parameters.as_slice();
    let variables = function.variables.as_slice();
    let entered = function.entered.as_slice();
    has_few_registers(function)
        && have_few_bytes(parameters, variables)
        && have_few_bytes(parameters, entered)
        && have_objects_of(variables, entered)
}

// Whether what the calls are charged for a function has room for its structures by value.
fn has_areas(alloc: Global, program: &Tac, function: &CodeFunction) -> Result<bool, AllocError>
    requires { most_temporaries function.now.code < 2 ^ 31 }
    ensures { IfOk result (λ b. IsTrue b ↔ HasAreas program.now function.now) }
{
    match structure_areas(alloc, program, function)? {
        Some(_) => Ok(true),
        None => Ok(false),
    }
}

// Whether a function is within limits.
fn is_within_limits(
    alloc: Global,
    program: &Tac,
    function: &CodeFunction,
) -> Result<bool, AllocError>
    ensures { IfOk result (λ b. IsTrue b ↔ IsWithinLimits program.now function.now) }
{
    if !is_small(function) {
        return Ok(false);
    }
    if !has_areas(alloc, program, function)? {
        return Ok(false);
    }
    name_own(alloc, program, function)
}

// Whether static objects take at most 4 MiB.
fn are_few_statics(statics: &[StaticData]) -> bool
    ensures { IsTrue result ↔ (statics_end statics.now 0 ≤ 0x400000) }
{
    let mut end = 0;
    for i in 0..statics.len() {
        let size = statics[i].size;
        if size > 0x400000 {
            return false;
        }
        end = rounded(end) + size;
        if end > 0x400000 {
            return false;
        }
    }
    true
}

/// A function by its number.
pub fn function_at(program: &Tac, number: usize) -> &CodeFunction
    requires { number < length program.now.functions }
    ensures { slice_get program.now.functions number ≡ Some result.now }
{
    &program.functions.as_slice()[number]
}

/// Whether a program is within limits. It fails only for want of memory.
pub fn are_within_limits(alloc: Global, program: &Tac) -> Result<bool, AllocError>
    ensures { IfOk result (λ b. IsTrue b ↔ AreWithinLimits program.now) }
{
    let count = program.functions.as_slice().len();
    if count > 1 << 12 || program.main >= count || !are_few_statics(program.statics.as_slice()) {
        return Ok(false);
    }
    for number in 0..count {
        if !is_within_limits(alloc, program, function_at(program, number))? {
            return Ok(false);
        }
    }
    Ok(true)
}
