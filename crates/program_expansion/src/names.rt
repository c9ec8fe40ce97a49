//! Whether instructions name what is there.

ghost use Rattle.std.specs.Prelude.{◌≡◌, ◌+◌, ◌<◌, ◌≤◌, ◌^◌, ◌↔◌, Bool, IfOk, IsTrue, length, nat_le, Some, slice_get};
ghost use Rattle.std.specs.List.{list_all};
ghost use Rattle.c_tree.specs.Format.{directives, pieces};
ghost use Rattle.source_meaning.specs.Blocks.{has_objects};
ghost use Rattle.source_meaning.specs.Printing.{pieces_or_none};
ghost use Rattle.tac_ir.specs.Meaning.{objects_in, text_in};
ghost use Rattle.metadata_plan.specs.Registers.{all_variables, most_temporaries};
ghost use Rattle.instruction_selection.specs.Calls.{argument_count};
ghost use Rattle.instruction_selection.specs.Registers.{function_named, last_handed, leaves_objects};
ghost use Rattle.program_expansion.specs.Limits.{names_own};

use c_tree::Routine;
use c_tree::format::Piece;
use instruction_selection::blocks::{block_objects, has_objects};
use instruction_selection::formats::pieces_of;
use instruction_selection::initializers::text_of;
use metadata_expansion::areas::structure_put;
use metadata_expansion::registers::most_temporaries;
use std::alloc::{AllocError, Global};
use tac_ir::{CodeFunction, Instruction, Tac};

// How many arguments a routine of the library takes that is a function of the runtime.
fn argument_count(routine: Routine) -> u128
    ensures { result ≡ argument_count routine }
{
    match routine {
        Routine::Putchar | Routine::Getchar | Routine::Exit | Routine::Abort => 0,
        Routine::Malloc | Routine::Free | Routine::Strlen | Routine::Puts => 1,
        Routine::Calloc
        | Routine::Realloc
        | Routine::Strcmp
        | Routine::Strcpy
        | Routine::Strcat
        | Routine::Strchr => 2,
        Routine::Memcpy | Routine::Memmove | Routine::Memset | Routine::Memcmp | Routine::Strncpy =>
            3,
    }
}

// How many directives pieces have.
fn directive_count(pieces: &[Piece]) -> usize
    ensures { result ≡ length (directives pieces.now) }
{
    let mut count = 0;
    for piece in pieces {
        if let Piece::Directive(_) = piece {
            count += 1;
        }
    }
    count
}

// How many arguments a format has.
fn printed_count(alloc: Global, program: &Tac, text: usize) -> Result<usize, AllocError>
    ensures { IfOk result (λ n. n ≡ length (directives (pieces_or_none (pieces (text_in program.now text))))) }
{
    let pieces = pieces_of(alloc, text_of(program, text))?;
    Ok(directive_count(&pieces))
}

// One more than the last argument that an instruction hands over to the runtime.
fn last_handed(alloc: Global, program: &Tac, instruction: &Instruction) -> Result<u128, AllocError>
    ensures { IfOk result (λ n. n ≡ last_handed program.now instruction.now) }
{
    match instruction {
        Instruction::Library { routine, first, .. } => {
            Ok(*first as u128 + argument_count(*routine))
        }
        Instruction::Print { text, first, .. } => {
            let count = printed_count(alloc, program, *text)?;
            Ok(*first as u128 + count as u128)
        }
        _ => Ok(0),
    }
}

// The function that an instruction names.
fn function_named(instruction: &Instruction) -> usize
    ensures { result ≡ function_named instruction.now }
{
    match instruction {
        Instruction::FunctionPointer { function, .. } => *function,
        _ => 0,
    }
}

// Whether a block that is left has objects.
fn leaves_objects(
    alloc: Global,
    function: &CodeFunction,
    instruction: &Instruction,
) -> Result<bool, AllocError>
    requires { length (all_variables function.now) < 2 ^ 64 }
    ensures { IfOk result (λ b. b ≡ leaves_objects function.now instruction.now) }
{
    match instruction {
        Instruction::LeaveBlock { block, .. } => {
            let objects = block_objects(alloc, function, *block)?;
            Ok(has_objects(&objects))
        }
        _ => Ok(true),
    }
}

// Whether an instruction of a function with so many temporaries names what is there.
fn names_own(
    alloc: Global,
    program: &Tac,
    function: &CodeFunction,
    temporaries: u128,
    instruction: &Instruction,
) -> Result<bool, AllocError>
    requires variables { length (all_variables function.now) < 2 ^ 64 }
    requires count { temporaries ≡ most_temporaries function.now.code }
    ensures { IfOk result (λ b. b ≡ names_own program.now function.now instruction.now) }
{
    let handed = last_handed(alloc, program, instruction)? <= temporaries;
    let functions = function_named(instruction) <= 1 << 12;
    let objects = leaves_objects(alloc, function, instruction)?;
    let structures = structure_put(program, instruction).size <= 1 << 62;
    Ok(handed && (functions && (objects && structures)))
}

// Whether some instructions do.
fn all_name_own(
    alloc: Global,
    program: &Tac,
    function: &CodeFunction,
    temporaries: u128,
    instructions: &[Instruction],
) -> Result<bool, AllocError>
    requires variables { length (all_variables function.now) < 2 ^ 64 }
    requires count { temporaries ≡ most_temporaries function.now.code }
    ensures { IfOk result (λ b. b ≡ list_all (names_own program.now function.now) instructions.now) }
{
    for instruction in instructions {
        if !names_own(alloc, program, function, temporaries, instruction)? {
            return Ok(false);
        }
    }
    Ok(true)
}

/// Whether all instructions of a function name what is there. It fails only for want of memory.
pub fn name_own(alloc: Global, program: &Tac, function: &CodeFunction) -> Result<bool, AllocError>
    requires { length (all_variables function.now) < 2 ^ 64 }
    ensures { IfOk result (λ b. b ≡ list_all (names_own program.now function.now) function.now.code) }
{
    let code = function.code.as_slice();
    let temporaries = most_temporaries(code);
    all_name_own(alloc, program, function, temporaries, code)
}
