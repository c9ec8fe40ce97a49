//! Whether a program is covered: whether the code of each of its instructions is known to do what the instruction
//! means.

ghost use Rattle.std.specs.Prelude.{◌≡◌, ◌<◌, ◌^◌, true, false, length, IfOk, Some, slice_get};
ghost use Rattle.std.specs.List.{list_all};
ghost use Rattle.metadata_plan.specs.Registers.{all_variables};
ghost use Rattle.instruction_selection.specs.Covered.{no_contents, may_have, is_covered_in, is_covered_without};
ghost use Rattle.instruction_selection.specs.Covered.{AreCoveredFunctions, IsCoveredCode, IsCoveredFunction};
ghost use Rattle.instruction_selection.specs.Covered.{IsCoveredProgram, IsTabled};

mod calls;
pub mod contents;
mod instructions;
pub mod laws;

use crate::covered::calls::{admits, are_all, callable_functions, is_covered_main};
use crate::covered::contents::{FunctionContents, contents_of};
use crate::covered::instructions::covers;
use std::alloc::{AllocError, Global};
use tac_ir::{CodeFunction, Instruction, Tac};

/// A program, with whether calls of each of its functions are covered.
#[derive(Clone, Copy)]
pub struct Coverage<'a> {
    /// The allocator of what is tested.
    pub alloc: Global,
    /// The program.
    pub program: &'a Tac,
    /// Whether a call of each of its functions is covered.
    pub callable: &'a [bool],
    /// Whether all are.
    pub are_all: bool,
}

// A function has fewer variables than addresses.
fn has_few_variables(function: &CodeFunction)
    ensures { length (all_variables function.now) < 2 ^ 64 }
{
    let parameters = function.parameters.as_slice();
    let variables = function.variables.as_slice();
    let _count = parameters.len() + variables.len();
}

// Whether an instruction of a function with contents is covered.
fn is_covered(
    coverage: &Coverage,
    function: &CodeFunction,
    contents: &FunctionContents,
    instruction: &Instruction,
) -> Result<bool, AllocError>
    requires tabled { IsTabled coverage.now }
    requires variables { length (all_variables function.now) < 2 ^ 64 }
    ensures { IfOk result (λ yes. yes
        ≡ is_covered_in coverage.now.program.now function.now (may_have contents.now) instruction.now) }
{
    let covered = covers(coverage.alloc, function, instruction)?;
    let admitted = admits(coverage, function, contents, instruction)?;
    Ok(covered && admitted)
}

// Whether instructions of a function are.
fn are_covered(
    coverage: &Coverage,
    function: &CodeFunction,
    contents: &FunctionContents,
    instructions: &[Instruction],
) -> Result<bool, AllocError>
    requires tabled { IsTabled coverage.now }
    requires variables { length (all_variables function.now) < 2 ^ 64 }
    ensures { IfOk result (λ yes. yes
        ≡ list_all (is_covered_in coverage.now.program.now function.now (may_have contents.now)) instructions.now) }
{
    for i in 0..instructions.len() {
        if !is_covered(coverage, function, contents, &instructions[i])? {
            return Ok(false);
        }
    }
    Ok(true)
}

// Whether all instructions of a function are, with contents that it keeps.
#[tactic(auto, using(crate::proofs::Coverages::function_covered, crate::proofs::Coverages::function_not_covered))]
fn is_covered_function(coverage: &Coverage, function: &CodeFunction) -> Result<bool, AllocError>
    requires { IsTabled coverage.now }
    ensures yes { IfOk result (λ yes. yes ≡ true → IsCoveredFunction coverage.now.program.now function.now) }
    ensures no { IfOk result (λ yes. yes ≡ false → is_covered_without coverage.now.program.now function.now ≡ true
        → ⊥) }
{
    has_few_variables(function);
    let contents = contents_of(coverage.alloc, coverage.program, function)?;
    are_covered(coverage, function, &contents, function.code.as_slice())
}

// One of some functions, by its number.
fn function_at(functions: &[CodeFunction], number: usize) -> &CodeFunction
    requires { number < length functions.now }
    ensures { slice_get functions.now number ≡ Some result.now }
{
    &functions[number]
}

// Whether all instructions of functions are.
#[tactic(auto, using(crate::proofs::Coverages::one_more_covered, crate::proofs::Coverages::one_not_covered))]
fn are_covered_functions(
    coverage: &Coverage,
    functions: &[CodeFunction],
) -> Result<bool, AllocError>
    requires { IsTabled coverage.now }
    ensures yes { IfOk result (λ yes. yes ≡ true → AreCoveredFunctions coverage.now.program.now functions.now) }
    ensures no { IfOk result (λ yes. yes ≡ false
        → list_all (is_covered_without coverage.now.program.now) functions.now ≡ true → ⊥) }
{
    for i in 0..functions.len() {
        if !is_covered_function(coverage, function_at(functions, i))? {
            return Ok(false);
        }
    }
    Ok(true)
}

// Whether those of a program are, and the first call.
#[tactic(auto, using(crate::proofs::Coverages::program_covered, crate::proofs::Coverages::main_not_covered, crate::proofs::Coverages::functions_not_covered))]
fn is_covered_program(coverage: &Coverage) -> Result<bool, AllocError>
    requires { IsTabled coverage.now }
    ensures yes { IfOk result (λ yes. yes ≡ true → IsCoveredProgram coverage.now.program.now) }
    ensures no { IfOk result (λ yes. yes ≡ false → IsCoveredCode coverage.now.program.now no_contents → ⊥) }
{
    if !is_covered_main(coverage) {
        return Ok(false);
    }
    are_covered_functions(coverage, coverage.program.functions.as_slice())
}

/// Whether all instructions of a program are covered, and its first call, with contents that each function keeps. It is
/// so where they are covered with no temporary that has contents. It fails only for want of memory.
pub fn covers_all(alloc: Global, program: &Tac) -> Result<bool, AllocError>
    ensures yes { IfOk result (λ yes. yes ≡ true → IsCoveredProgram program.now) }
    ensures no { IfOk result (λ yes. yes ≡ false → IsCoveredCode program.now no_contents → ⊥) }
{
    let table = callable_functions(alloc, program)?;
    let callable = table.as_slice();
    let are_all = are_all(callable);
    let coverage = Coverage {
        alloc,
        program,
        callable,
        are_all,
    };
    is_covered_program(&coverage)
}
