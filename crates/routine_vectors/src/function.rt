//! Routines as functions of the runtime, called at a line of a source.

ghost use Rattle.addr_map.specs.Places.{AreMapped};

use crate::machine::{Left, Machine, REGISTERS};
use crate::routine::{Allocating, Contents, Moving, Piece, Putting, Routine, RoutineCall, Strings};
use addr_map::AddrMap;
use anyhow::{Result, bail};
use flat_code::{FlatFunction, FlatInstruction};
use runtime_functions::{
    LibraryFunction, ReturnStatus, RuntimeFrame, RuntimeFunction, runtime_function,
    runtime_function_of,
};
use sb_base::Line;
use shadow_space::ShadowForm;
use std::alloc::{AllocError, Global};

/// The register of the status: the results stand behind it.
pub const STATUS: u32 = 29;

const FRAME: RuntimeFrame = RuntimeFrame {
    parameters: STATUS,
    results: 5,
    registers: REGISTERS as u32,
};

/// How many instructions a function has in front of its routine: they make the registers from the status on 0.
pub const CLEARED: u32 = 8;

const STATUSES: [ReturnStatus; 9] = [
    ReturnStatus::Completed,
    ReturnStatus::Spatial,
    ReturnStatus::Temporal,
    ReturnStatus::BadCall,
    ReturnStatus::BadFree,
    ReturnStatus::Divide,
    ReturnStatus::Stack,
    ReturnStatus::Keys,
    ReturnStatus::Abort,
];

/// The function of a routine that is none of the fixed list, over the registers of the rows.
pub fn function_of(alloc: Global, code: &[FlatInstruction]) -> Result<FlatFunction> {
    if code.len() >= (1 << 31) - CLEARED as usize {
        bail!("a routine is too long");
    }
    let function = runtime_function(alloc, code, FRAME)?;
    Ok(function)
}

// The status with a number.
fn status_of(number: u64) -> Option<ReturnStatus> {
    for status in STATUSES {
        if status.number() as u64 == number {
            return Some(status);
        }
    }
    None
}

/// Makes the registers 0 that the function makes 0.
pub fn clear(machine: &mut Machine) {
    for register in STATUS..STATUS + CLEARED {
        machine.set(register, 0);
    }
}

// How the routine of a function was left that returned a status to a call at a line.
fn left_with(machine: &mut Machine, status: u64, line: Line) -> Result<Left, AllocError> {
    let Some(status) = status_of(status) else {
        return Ok(Left::Lost);
    };
    match status.ending(line) {
        None => Ok(Left::Past),
        Some(ending) => {
            machine.report_of(&ending)?;
            Ok(Left::Over(ending.code()))
        }
    }
}

/// Calls a function over the registers of the rows at a line, and tells how its routine was left.
pub fn call_function(
    machine: &mut Machine,
    function: &FlatFunction,
    line: Line,
) -> Result<Left, AllocError> {
    machine.set(STATUS, 0);
    let left = machine.run(function.body.as_slice())?;
    let Left::Returned(STATUS) = left else {
        return Ok(Left::Lost);
    };
    let status = machine.value(STATUS);
    left_with(machine, status, line)
}

/// The function of the fixed list that does what a row asks for, if there is one.
pub fn function_in_list(call: &RoutineCall) -> Option<RuntimeFunction> {
    let library = match call.routine {
        Routine::Moving(Moving::MoveTagged) => return Some(RuntimeFunction::CopyTagged),
        Routine::Moving(moving) => in_moving(moving)?,
        Routine::Strings(Strings::Scan) => return Some(RuntimeFunction::Scan),
        Routine::Strings(strings) => in_strings(strings)?,
        Routine::Putting(Putting::Puts) => LibraryFunction::Puts,
        Routine::Putting(putting) => return in_putting(putting, &call.pieces),
        Routine::Allocating(Allocating::Enter) => return Some(RuntimeFunction::Enter),
        Routine::Allocating(Allocating::Zero) => return Some(RuntimeFunction::Zero),
        Routine::Allocating(allocating) => in_allocating(allocating)?,
        Routine::Contents(contents) => return in_contents(contents),
        _ => return None,
    };
    Some(RuntimeFunction::Library(library))
}

fn in_moving(moving: Moving) -> Option<LibraryFunction> {
    match moving {
        Moving::Memmove => Some(LibraryFunction::Memmove),
        Moving::Memcpy => Some(LibraryFunction::Memcpy),
        Moving::Memset => Some(LibraryFunction::Memset),
        _ => None,
    }
}

fn in_strings(strings: Strings) -> Option<LibraryFunction> {
    match strings {
        Strings::Strlen => Some(LibraryFunction::Strlen),
        Strings::Strcpy => Some(LibraryFunction::Strcpy),
        Strings::Strcat => Some(LibraryFunction::Strcat),
        Strings::Strncpy => Some(LibraryFunction::Strncpy),
        Strings::Strcmp => Some(LibraryFunction::Strcmp),
        Strings::Strchr => Some(LibraryFunction::Strchr),
        Strings::Memcmp => Some(LibraryFunction::Memcmp),
        _ => None,
    }
}

fn in_putting(putting: Putting, pieces: &[Piece]) -> Option<RuntimeFunction> {
    match putting {
        Putting::PutBytes => Some(RuntimeFunction::PutBytes),
        Putting::Number => match pieces.first() {
            Some(Piece::Argument(directive)) => Some(RuntimeFunction::PutNumber(*directive)),
            _ => None,
        },
        _ => None,
    }
}

fn in_allocating(allocating: Allocating) -> Option<LibraryFunction> {
    match allocating {
        Allocating::Malloc => Some(LibraryFunction::Malloc),
        Allocating::Calloc => Some(LibraryFunction::Calloc),
        Allocating::Realloc => Some(LibraryFunction::Realloc),
        Allocating::Free => Some(LibraryFunction::Free),
        _ => None,
    }
}

fn in_contents(contents: Contents) -> Option<RuntimeFunction> {
    match contents {
        Contents::MakeZero => Some(RuntimeFunction::ZeroArea),
        Contents::TakeStructure => Some(RuntimeFunction::TakeArea),
        Contents::PutStructure => Some(RuntimeFunction::PutArea),
        Contents::TakePart => Some(RuntimeFunction::MoveArea),
        _ => None,
    }
}

// The registers of the rows that its arguments are: five for each pointer and each part of contents, the first of each
// number. Those on areas take a part last.
const FIRST: [u32; 1] = [0];

const NUMBERS: [u32; 3] = [0, 5, 10];

const POINTERS: [u32; 11] = [0, 1, 2, 3, 4, 5, 6, 7, 8, 9, 10];

const FILLED: [u32; 7] = [0, 1, 2, 3, 4, 5, 10];

const OF_PART: [u32; 7] = [0, 10, 5, 6, 7, 8, 9];

fn arguments_of(function: RuntimeFunction) -> &'static [u32] {
    match function {
        RuntimeFunction::Library(LibraryFunction::Calloc) => &NUMBERS,
        RuntimeFunction::Library(LibraryFunction::Memset) => &FILLED,
        RuntimeFunction::Library(_) | RuntimeFunction::Scan => &POINTERS,
        RuntimeFunction::PutNumber(_) => &FIRST,
        RuntimeFunction::PutArea | RuntimeFunction::MoveArea => &OF_PART,
        _ => &NUMBERS,
    }
}

// The registers of the rows that its results are: of a block that is entered all but the bound of a pointer.
const OF_POINTER: [u32; 5] = [30, 31, 32, 33, 34];

const OF_BLOCK: [u32; 4] = [30, 31, 33, 34];

fn results_of(function: RuntimeFunction) -> &'static [u32] {
    match function {
        RuntimeFunction::Enter => &OF_BLOCK,
        _ => &OF_POINTER,
    }
}

/// Calls a function of the fixed list at a line: the arguments are its first registers, and all others begin with 0.
/// Tells how its routine was left.
pub fn call_listed<S: ShadowForm>(
    alloc: Global,
    map: &AddrMap,
    machine: &mut Machine,
    function: RuntimeFunction,
    line: Line,
) -> Result<Left, AllocError>
    requires map { AreMapped map.now }
{
    let of_row = machine.values;
    let made = runtime_function_of::<S>(alloc, map, function)?;
    let parameters = function.parameters();
    machine.values = [0; REGISTERS];
    for place in 0..parameters {
        if let Some(from) = arguments_of(function).get(place as usize) {
            let value = of_row.get(*from as usize).copied().unwrap_or(0);
            machine.set(place, value);
        }
    }
    let left = machine.run(made.body.as_slice())?;
    let status = machine.value(parameters);
    let results = results_behind(machine, parameters);
    machine.values = of_row;
    if left != Left::Returned(parameters) {
        return Ok(Left::Lost);
    }
    give_results(machine, function, &results);
    left_with(machine, status, line)
}

// The values of the five registers behind one.
fn results_behind(machine: &Machine, register: u32) -> [u64; 5] {
    [
        machine.value(register.saturating_add(1)),
        machine.value(register.saturating_add(2)),
        machine.value(register.saturating_add(3)),
        machine.value(register.saturating_add(4)),
        machine.value(register.saturating_add(5)),
    ]
}

// Gives the results behind a status, of a number how many bytes were put besides what a row counted before.
fn give_results(machine: &mut Machine, function: RuntimeFunction, results: &[u64]) {
    let count = function.results() as usize;
    for (into, result) in results_of(function).iter().zip(results.iter().take(count)) {
        let value = match function {
            RuntimeFunction::PutNumber(_) => machine.value(*into).wrapping_add(*result),
            _ => *result,
        };
        machine.set(*into, value);
    }
}
