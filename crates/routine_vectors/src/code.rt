//! The code of routines over fixed registers: operands stand in the first, each from a multiple of five on.

ghost use Rattle.std.specs.Prelude.{◌≤◌, ◌+◌, IfOk, [], ◌∷◌};
ghost use Rattle.addr_map.specs.Places.{AreMapped};
ghost use Rattle.lib_wrappers.specs.PrintingRoutines.Printed.{ArePrintable};

use crate::routine::{
    Accessing, Allocating, Contents, Moving, Piece, Pointing, Putting, Routine, RoutineCall,
    Strings, Testing,
};
use addr_map::AddrMap;
use c_tree::Directive;
use flat_actions::{give_instructions, joined, narrow};
use flat_code::{Entry, FlatInstruction, Held, RightOperand};
use flat_operators::binary::Registers;
use flat_operators::pointers::{put_back, put_difference, put_forward};
use lib_wrappers::accesses::{
    HeldScalar, checked_load, checked_store, load, spatial_check, store, temporal_check,
};
use lib_wrappers::allocating::{EntryRegisters, calloc, enter, free, leave, malloc, realloc, zero};
use lib_wrappers::areas::{make_zero, put_structure, read_part, take_part, take_structure};
use lib_wrappers::comparing::{RangeRegisters, memcmp, strchr, strcmp};
use lib_wrappers::moving::{
    CopyRegisters, FillRegisters, copy_structure, fill, memmove, memset, move_bytes, move_tagged,
};
use lib_wrappers::printing::{Printed, digits, numbers, printf};
use lib_wrappers::strings::{put_bytes, puts, scan, scan_at_most, strcat, strcpy, strlen, strncpy};
use sb_base::Line;
use shadow_space::ShadowForm;
use std::alloc::{AllocError, Global};

const FIRST: Held = Held {
    value: 0,
    tag: Entry {
        base: 1,
        bound: 2,
        key: 3,
        lock: 4,
    },
};

const SECOND: Held = Held {
    value: 5,
    tag: Entry {
        base: 6,
        bound: 7,
        key: 8,
        lock: 9,
    },
};

/// The registers of a pointer that is given; of a word that is given the first.
pub const RESULT: Held = Held {
    value: 30,
    tag: Entry {
        base: 31,
        bound: 32,
        key: 33,
        lock: 34,
    },
};

// The registers that a block is entered with.
const BLOCK: EntryRegisters = EntryRegisters {
    first: 30,
    end: 31,
    key: 33,
    lock: 34,
};

const THIRD: u32 = 10;

const COPY: CopyRegisters = CopyRegisters {
    to: FIRST,
    from: SECOND,
    size: THIRD,
    into: RESULT,
};

const RANGE: FillRegisters = FillRegisters {
    to: FIRST,
    byte: 5,
    size: THIRD,
    into: RESULT,
};

const RANGES: RangeRegisters = RangeRegisters {
    left: FIRST,
    right: SECOND,
    size: THIRD,
    into: 30,
};

/// The first register that a routine may use for itself.
pub const SCRATCH: u32 = 40;

/// The line with a number, of 0 the first.
pub fn line_of(number: u32) -> Line {
    if number == 0 {
        Line::first()
    } else {
        Line::new(number)
    }
}

/// The code that a row asks for.
pub fn code_of<S: ShadowForm>(
    alloc: Global,
    map: &AddrMap,
    call: &RoutineCall,
) -> Result<Vec<FlatInstruction>, AllocError>
    requires map { AreMapped map.now }
{
    match call.routine {
        Routine::Moving(moving) => moving_code::<S>(alloc, map, moving, call),
        Routine::Strings(strings) => string_code::<S>(alloc, map, strings, call),
        Routine::Putting(putting) => putting_code::<S>(alloc, map, putting, call),
        Routine::Accessing(accessing) => accessing_code::<S>(alloc, map, accessing, call),
        Routine::Testing(testing) => testing_code(alloc, testing, call),
        Routine::Pointing(pointing) => pointing_code(alloc, pointing, call.number),
        Routine::Contents(contents) => contents_code::<S>(alloc, map, contents, call),
        Routine::Allocating(allocating) => allocating_code::<S>(alloc, map, allocating, call),
    }
}

fn moving_code<S: ShadowForm>(
    alloc: Global,
    map: &AddrMap,
    moving: Moving,
    call: &RoutineCall,
) -> Result<Vec<FlatInstruction>, AllocError>
    requires map { AreMapped map.now }
{
    let line = line_of(call.line);
    match moving {
        Moving::Memmove | Moving::Memcpy => memmove::<S>(alloc, map, COPY, line, SCRATCH),
        Moving::Memset => memset::<S>(alloc, map, RANGE, line, SCRATCH),
        Moving::CopyStructure => {
            copy_structure::<S>(alloc, map, FIRST, SECOND, call.number, SCRATCH)
        }
        Moving::MoveBytes => move_bytes(alloc, map, 0, 5, THIRD, SCRATCH),
        Moving::MoveTagged => move_tagged::<S>(alloc, map, 0, 5, THIRD, SCRATCH),
        Moving::Fill => fill(alloc, map, 0, 5, THIRD, SCRATCH),
    }
}

fn string_code<S: ShadowForm>(
    alloc: Global,
    map: &AddrMap,
    strings: Strings,
    call: &RoutineCall,
) -> Result<Vec<FlatInstruction>, AllocError>
    requires map { AreMapped map.now }
{
    let line = line_of(call.line);
    match strings {
        Strings::Strlen => strlen::<S>(alloc, map, FIRST, 30, line, SCRATCH),
        Strings::Strcpy => strcpy::<S>(alloc, map, FIRST, SECOND, RESULT, line, SCRATCH),
        Strings::Strcat => strcat::<S>(alloc, map, FIRST, SECOND, RESULT, line, SCRATCH),
        Strings::Strncpy => { strncpy::<S>(alloc, map, COPY, line, SCRATCH) }
        Strings::Strcmp => strcmp::<S>(alloc, map, FIRST, SECOND, 30, line, SCRATCH),
        Strings::Strchr => strchr::<S>(alloc, map, FIRST, 5, RESULT, line, SCRATCH),
        Strings::Memcmp => memcmp::<S>(alloc, map, RANGES, line, SCRATCH),
        Strings::Scan => scan::<S>(alloc, map, FIRST, 30, line, SCRATCH),
        Strings::ScanAtMost => scan_at_most::<S>(alloc, map, FIRST, 30, line, 5, SCRATCH),
    }
}

fn putting_code<S: ShadowForm>(
    alloc: Global,
    map: &AddrMap,
    putting: Putting,
    call: &RoutineCall,
) -> Result<Vec<FlatInstruction>, AllocError>
    requires map { AreMapped map.now }
{
    let line = line_of(call.line);
    match putting {
        Putting::Puts => puts::<S>(alloc, map, FIRST, 30, line, SCRATCH),
        Putting::PutBytes => put_bytes(alloc, map, 0, 5, SCRATCH),
        Putting::Printf => printf_code::<S>(alloc, map, &call.pieces, line),
        Putting::Number => number_code(alloc, map, &call.pieces),
        Putting::Digits => digits::base_instructions(alloc, call.number, 0, 30, SCRATCH),
    }
}

fn number_code(
    alloc: Global,
    map: &AddrMap,
    pieces: &[Piece],
) -> Result<Vec<FlatInstruction>, AllocError> {
    match pieces.first() {
        Some(Piece::Argument(directive)) => {
            numbers::number(alloc, map, *directive, 0, 30, SCRATCH)
        }
        _ => Ok(Vec::new(alloc)),
    }
}

fn printf_code<S: ShadowForm>(
    alloc: Global,
    map: &AddrMap,
    pieces: &[Piece],
    line: Line,
) -> Result<Vec<FlatInstruction>, AllocError>
    requires map { AreMapped map.now }
{
    let first = printed(pieces, 0);
    let second = printed(pieces, 1);
    let third = printed(pieces, 2);
    match pieces.len() {
        0 => printf::<S>(alloc, map, &[], 30, line, SCRATCH),
        1 => printf::<S>(alloc, map, &[first], 30, line, SCRATCH),
        2 => printf::<S>(alloc, map, &[first, second], 30, line, SCRATCH),
        3 => printf::<S>(alloc, map, &[first, second, third], 30, line, SCRATCH),
        _ => long_printf_code::<S>(alloc, map, pieces, line),
    }
}

fn long_printf_code<S: ShadowForm>(
    alloc: Global,
    map: &AddrMap,
    pieces: &[Piece],
    line: Line,
) -> Result<Vec<FlatInstruction>, AllocError>
    requires map { AreMapped map.now }
{
    let all = [
        printed(pieces, 0),
        printed(pieces, 1),
        printed(pieces, 2),
        printed(pieces, 3),
        printed(pieces, 4),
        printed(pieces, 5),
    ];
    printf::<S>(alloc, map, &all, 30, line, SCRATCH)
}

// A piece with the registers of the operand of its number; a byte of 0 behind the last piece.
fn printed(pieces: &[Piece], index: u32) -> Printed
    requires { index ≤ 5 }
    ensures { ArePrintable 40 (result ∷ []) }
{
    let place = 5 * index;
    match pieces.get(index as usize) {
        Some(Piece::Byte(byte)) => Printed::Byte(*byte),
        Some(Piece::Argument(Directive::String)) => Printed::String(Held {
            value: place,
            tag: Entry {
                base: place + 1,
                bound: place + 2,
                key: place + 3,
                lock: place + 4,
            },
        }),
        Some(Piece::Argument(directive)) => Printed::Number(*directive, place),
        None => Printed::Byte(0),
    }
}

fn accessing_code<S: ShadowForm>(
    alloc: Global,
    map: &AddrMap,
    accessing: Accessing,
    call: &RoutineCall,
) -> Result<Vec<FlatInstruction>, AllocError>
    requires map { AreMapped map.now }
{
    let line = line_of(call.line);
    match accessing {
        Accessing::CheckedLoad => match call.of {
            Some(of) => {
                let into = HeldScalar::Integer(of, 30);
                checked_load::<S>(alloc, map, FIRST, into, line, SCRATCH)
            }
            None => {
                let into = HeldScalar::Pointer(RESULT);
                checked_load::<S>(alloc, map, FIRST, into, line, SCRATCH)
            }
        },
        Accessing::CheckedStore => match call.of {
            Some(of) => {
                let from = HeldScalar::Integer(of, 5);
                checked_store::<S>(alloc, map, FIRST, from, line, SCRATCH)
            }
            None => {
                let from = HeldScalar::Pointer(SECOND);
                checked_store::<S>(alloc, map, FIRST, from, line, SCRATCH)
            }
        },
        Accessing::Load => match call.of {
            Some(of) => load::<S>(alloc, map, 0, HeldScalar::Integer(of, 30), SCRATCH),
            None => load::<S>(alloc, map, 0, HeldScalar::Pointer(RESULT), SCRATCH),
        },
        Accessing::Store => match call.of {
            Some(of) => store::<S>(alloc, map, 0, HeldScalar::Integer(of, 5), SCRATCH),
            None => store::<S>(alloc, map, 0, HeldScalar::Pointer(SECOND), SCRATCH),
        },
    }
}

fn testing_code(
    alloc: Global,
    testing: Testing,
    call: &RoutineCall,
) -> Result<Vec<FlatInstruction>, AllocError> {
    let line = line_of(call.line);
    match testing {
        Testing::SpatialCheck => {
            spatial_check(alloc, FIRST, RightOperand::Register(5), line, SCRATCH)
        }
        Testing::SpatialCheckOfNumber => {
            let size = RightOperand::Number(call.number);
            spatial_check(alloc, FIRST, size, line, SCRATCH)
        }
        Testing::TemporalCheck => temporal_check(alloc, FIRST, line, SCRATCH),
    }
}

fn pointing_code(
    alloc: Global,
    pointing: Pointing,
    size: u64,
) -> Result<Vec<FlatInstruction>, AllocError> {
    let registers = Registers {
        into: 30,
        left: 0,
        right: 5,
        scratch: SCRATCH,
    };
    let mut code = Vec::new(alloc);
    match pointing {
        Pointing::Narrow => return narrow_code(alloc),
        Pointing::Forward => put_forward(&mut code, size, registers)?,
        Pointing::Back => put_back(&mut code, size, registers)?,
        Pointing::Difference => put_difference(&mut code, size, registers)?,
    }
    Ok(code)
}

// The first pointer, or part of contents, is narrowed in the registers of the result, by an offset and a size in
// registers.
fn narrow_code(alloc: Global) -> Result<Vec<FlatInstruction>, AllocError> {
    let copy = give_instructions(alloc, FIRST, RESULT)?;
    let offset = RightOperand::Register(5);
    let size = RightOperand::Register(THIRD);
    let narrow = narrow(alloc, RESULT, offset, size, SCRATCH)?;
    joined(alloc, &copy, &narrow)
}

fn contents_code<S: ShadowForm>(
    alloc: Global,
    map: &AddrMap,
    contents: Contents,
    call: &RoutineCall,
) -> Result<Vec<FlatInstruction>, AllocError>
    requires map { AreMapped map.now }
{
    match contents {
        Contents::MakeZero => make_zero::<S>(alloc, map, 0, 5, SCRATCH),
        Contents::TakeStructure => take_structure::<S>(alloc, map, 0, 5, THIRD, SCRATCH),
        Contents::PutStructure => put_structure::<S>(alloc, map, 0, SECOND, THIRD, SCRATCH),
        Contents::TakePart => take_part::<S>(alloc, map, 0, SECOND, THIRD, SCRATCH),
        Contents::ReadPart => match call.of {
            Some(of) => read_part(alloc, FIRST, HeldScalar::Integer(of, 30), SCRATCH),
            None => read_part(alloc, FIRST, HeldScalar::Pointer(RESULT), SCRATCH),
        },
        Contents::NarrowPart => narrow_code(alloc),
    }
}

fn allocating_code<S: ShadowForm>(
    alloc: Global,
    map: &AddrMap,
    allocating: Allocating,
    call: &RoutineCall,
) -> Result<Vec<FlatInstruction>, AllocError>
    requires map { AreMapped map.now }
{
    let line = line_of(call.line);
    match allocating {
        Allocating::Malloc => malloc::<S>(alloc, map, 0, RESULT, line, SCRATCH),
        Allocating::Calloc => calloc::<S>(alloc, map, 0, 5, RESULT, line, SCRATCH),
        Allocating::Realloc => realloc::<S>(alloc, map, FIRST, 5, RESULT, line, SCRATCH),
        Allocating::Free => free::<S>(alloc, map, FIRST, line, SCRATCH),
        Allocating::Enter => enter::<S>(alloc, map, 0, 5, BLOCK, line, SCRATCH),
        Allocating::Leave => leave::<S>(alloc, map, 0, SCRATCH),
        Allocating::Zero => zero::<S>(alloc, map, 0, 5, SCRATCH),
    }
}
