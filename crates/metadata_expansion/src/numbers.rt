//! Whether the numbers of an expansion fit the instructions of flat code.

ghost use Rattle.std.specs.Prelude.{◌≡◌, ℕ, ◌↔◌, max, ◌+◌, ◌*◌, ◌<◌, ◌≤◌, ◌^◌, length};
ghost use Rattle.std.specs.Prelude.{Some, slice_get, IfOk, IsTrue};
ghost use Rattle.metadata_plan.specs.Registers.{most_temporaries, words_in};
ghost use Rattle.metadata_expansion.specs.Numbering.{AreRegisters};
ghost use Rattle.metadata_expansion.specs.Numbers.{AreAllSmall, AreSmall, body_size, callee, greatest_callee};
ghost use Rattle.metadata_expansion.specs.Numbers.{greatest_line, greatest_word, line_in, register_count, word_in};

use crate::context::FunctionContext;
use crate::homes::{free_count, greater};
use crate::layout::is_short;
use crate::registers::{Registers, most_temporaries, words_of};
use addr_map::AddrMap;
use c_tree::Variable;
use std::alloc::{AllocError, Global};
use tac_ir::{CodeFunction, Instruction, Tac};

// How many registers variables have together.
fn word_count(variables: &[Variable]) -> u128
    ensures value { result ≡ words_in variables.now }
    ensures few { result ≤ 5 * 2 ^ 64 }
{
    let mut sum = 0;
    for variable in variables {
        sum += u128::from(words_of(variable.kind));
    }
    sum
}

// How many virtual registers a function with so many temporaries has.
fn register_total(function: &CodeFunction, temporaries: u128) -> u128
    requires count { temporaries ≡ most_temporaries function.now.code }
    requires few { temporaries < 2 ^ 32 }
    ensures { result ≡ register_count function.now }
{
    let parameters = word_count(function.parameters.as_slice());
    let variables = word_count(function.variables.as_slice());
    parameters + variables + 5 * temporaries + free_count(function) as u128
}

// Whether the registers of a function have numbers of 32 bits.
fn has_few_registers(function: &CodeFunction) -> bool
    ensures { IsTrue result ↔ (register_count function.now < 2 ^ 32) }
{
    let temporaries = most_temporaries(function.code.as_slice());
    if temporaries >= 1 << 32 {
        return false;
    }
    register_total(function, temporaries) < 1 << 32
}

// The number of the function that an instruction calls. A word that it gives, or with which it compares, has 64 bits,
// and the number of a line 32.
fn callee(instruction: &Instruction) -> usize
    ensures value { result ≡ callee instruction.now }
    ensures word { word_in instruction.now < 2 ^ 64 }
    ensures line { line_in instruction.now < 2 ^ 32 }
{
    // A number that is read is known to be in the range of its type: so the reads of words and lines bring both bounds.
    match instruction {
        Instruction::Call { function, line, .. } => {
            let _line = line.number();
            *function
        }
        Instruction::UpdatePlain { line, .. }
        | Instruction::Binary { line, .. }
        | Instruction::Library { line, .. } => {
            let _line = line.number();
            0
        }
        Instruction::Constant { word, .. } => {
            let _word = *word;
            0
        }
        Instruction::Case { word, .. } => {
            let _word = *word;
            0
        }
        _ => 0,
    }
}

// The greatest number of a function that instructions call. All their words have 64 bits, and their lines 32.
fn greatest_callee(instructions: &[Instruction]) -> usize
    ensures value { result ≡ greatest_callee instructions.now }
    ensures words { greatest_word instructions.now < 2 ^ 64 }
    ensures lines { greatest_line instructions.now < 2 ^ 32 }
{
    let mut greatest = 0;
    for instruction in instructions {
        greatest = greater(greatest, callee(instruction));
    }
    greatest
}

// Whether the body of a function has fewer than 2^31 instructions.
fn has_short_body(
    alloc: Global,
    map: &AddrMap,
    program: &Tac,
    function: &CodeFunction,
) -> Result<bool, AllocError>
    requires registers { register_count function.now < 2 ^ 32 }
    requires callees { greatest_callee function.now.code < 2 ^ 32 }
    ensures { IfOk result
        (λ short. IsTrue short ↔ (body_size map.now program.now function.now < 2 ^ 31)) }
{
    let registers = Registers::new(alloc, function)?;
    let context = FunctionContext {
        map,
        program,
        function,
        registers: &registers,
    };
    is_short(alloc, &context, function)
}

// Whether the numbers of a function fit.
fn is_small(
    alloc: Global,
    map: &AddrMap,
    program: &Tac,
    function: &CodeFunction,
) -> Result<bool, AllocError>
    ensures { IfOk result (λ small. IsTrue small ↔ AreSmall map.now program.now function.now) }
{
    // Read for the bound that its type gives, as above.
    let _line = function.line.number();
    let greatest = greatest_callee(function.code.as_slice());
    if greatest < 1 << 32 && has_few_registers(function) {
        return has_short_body(alloc, map, program, function);
    }
    Ok(false)
}

// A function by its number.
fn function_at(program: &Tac, number: usize) -> &CodeFunction
    requires { number < length program.now.functions }
    ensures { slice_get program.now.functions number ≡ Some result.now }
{
    &program.functions.as_slice()[number]
}

/// Whether the numbers of a program's expansion fit the instructions of flat code. It fails only for want of memory.
pub fn fits(alloc: Global, map: &AddrMap, program: &Tac) -> Result<bool, AllocError>
    ensures { IfOk result (λ fit. IsTrue fit ↔ AreAllSmall map.now program.now) }
{
    let functions = program.functions.as_slice();
    if functions.len() >= 1 << 32 || program.main >= functions.len() {
        return Ok(false);
    }
    for number in 0..functions.len() {
        if !is_small(alloc, map, program, function_at(program, number))? {
            return Ok(false);
        }
    }
    Ok(true)
}
