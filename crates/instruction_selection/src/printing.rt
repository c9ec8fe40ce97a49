//! `printf` with a format known at compile time (C99 7.19.6.1).

ghost use Rattle.std.specs.Prelude.{◌≡◌, ◌+◌, ◌*◌, ◌<◌, ◌≤◌, ◌^◌, ◌++◌, ◌∷◌, [], length, IfOk, OnOk, Some, slice_get};
ghost use Rattle.c_tree.specs.declared.format.Directive.TheVariants.{String as StringDirective};
ghost use Rattle.flat_code.specs.declared.instruction.RightOperand.TheVariants.{Register as InRegister};
ghost use Rattle.flat_code.specs.declared.instruction.FlatInstruction.TheVariants.{Call as Invoke};
ghost use Rattle.flat_code.specs.declared.instruction.FlatInstruction.TheVariants.{Operate as Operation};
ghost use Rattle.c_tree.specs.Format.{directives, pieces};
ghost use Rattle.source_meaning.specs.Printing.{pieces_or_none};
ghost use Rattle.tac_ir.specs.Meaning.{text_in};
ghost use Rattle.lib_wrappers.specs.PrintingRoutines.Formats.{byte_code};
ghost use Rattle.metadata_plan.specs.Registers.{most_temporaries};
ghost use Rattle.metadata_relation.specs.Registers.{temporary_register};
ghost use Rattle.metadata_relation.specs.Blocks.{runtime_number, status_code, untagged};
ghost use Rattle.metadata_relation.specs.Printing.{directive_place, print_code, put_argument, put_pieces};
ghost use Rattle.metadata_relation.specs.Printing.{scan_argument, scan_pieces, scan_statuses};
ghost use Rattle.instruction_selection.specs.Contexts.{IsPrepared};

use crate::context::FunctionContext;
use crate::entries::put_untagged;
use crate::formats::pieces_of;
use crate::initializers::text_of;
use crate::list::put;
use crate::runtime_calls::{put_status, runtime_number};
use c_tree::format::{Directive, Piece};
use flat_code::{FlatInstruction, RightOperand};
use runtime_functions::ReturnStatus;
use rv_isa::{RegOp, RegOp32};
use sb_base::Line;
use std::alloc::AllocError;

// The places of the functions that scan a string and put out a range, and the statuses with which the first ends the run.
const SCAN_PLACE: u32 = 15;

const RANGE_PLACE: u32 = 16;

const SCAN_STATUSES: [ReturnStatus; 2] = [ReturnStatus::Spatial, ReturnStatus::Temporal];

// The place of the function that puts out the argument of a directive.
fn directive_place(directive: Directive) -> u32
    ensures value { result ≡ directive_place directive }
    ensures few { result < 64 }
{
    match directive {
        Directive::Int => 17,
        Directive::UnsignedInt => 18,
        Directive::Hexadecimal => 19,
        Directive::Character => 20,
        Directive::Long => 21,
        Directive::UnsignedLong => 22,
        Directive::String => RANGE_PLACE,
    }
}

/// A call of `printf`.
#[derive(Clone, Copy)]
pub struct PrintCall {
    /// The number of the text that is the format.
    pub text: usize,
    /// The line that a report names.
    pub line: Line,
    /// The temporary of the first argument, which gets the result.
    pub first: usize,
}

// Puts a call of a function of the runtime, by its place, behind a list.
fn put_runtime_call(
    code: &mut Vec<FlatInstruction>,
    context: &FunctionContext,
    place: u32,
    first: u32,
    into: u32,
) -> Result<(), AllocError>
    requires prepared { IsPrepared context.now }
    requires place { place < 64 }
    ensures { OnOk result (code.new.items ≡ code.old.items
        ++ Invoke (runtime_number context.now.program.now place) first into ∷ []) }
{
    put(
        code,
        FlatInstruction::Call {
            function: runtime_number(context, place),
            first,
            into,
        },
    )
}

// Puts the scan of an argument behind a list, where it is a string.
#[tactic(auto, using(crate::proofs::Lists::nothing_behind))]
fn put_scan_argument(
    code: &mut Vec<FlatInstruction>,
    context: &FunctionContext,
    directive: Directive,
    temporary: usize,
    line: Line,
) -> Result<(), AllocError>
    requires prepared { IsPrepared context.now }
    requires there { temporary < most_temporaries context.now.function.now.code }
    ensures { OnOk result (code.new.items ≡ code.old.items ++ scan_argument (runtime_number context.now.program.now)
        (λ r. status_code r line scan_statuses) context.now.function.now directive temporary) }
{
    match directive {
        Directive::String => {
            let string = context.moved(temporary);
            let argument = context.temporary(temporary);
            put_runtime_call(code, context, SCAN_PLACE, argument, string)?;
            put_status(code, context.alloc, string, line, &SCAN_STATUSES)
        }
        Directive::Int
        | Directive::UnsignedInt
        | Directive::Hexadecimal
        | Directive::Character
        | Directive::Long
        | Directive::UnsignedLong => Ok(()),
    }
}

// One of some pieces, by its number.
fn piece_at(pieces: &[Piece], number: usize) -> Piece
    requires { number < length pieces.now }
    ensures { slice_get pieces.now number ≡ Some result }
{
    pieces[number]
}

// Puts the scan for a piece behind a list, where it takes a string, and gives the temporary of the next argument.
fn put_scan(
    code: &mut Vec<FlatInstruction>,
    context: &FunctionContext,
    piece: Piece,
    temporary: usize,
    line: Line,
) -> Result<usize, AllocError>
    requires prepared { IsPrepared context.now }
    requires among { temporary + length (directives (piece ∷ [])) ≤ most_temporaries context.now.function.now.code }
    ensures put { OnOk result (code.new.items ≡ code.old.items ++ scan_pieces (runtime_number context.now.program.now)
        (λ r. status_code r line scan_statuses) context.now.function.now (piece ∷ []) temporary) }
    ensures next { IfOk result (λ n. n ≡ temporary + length (directives (piece ∷ []))) }
{
    match piece {
        Piece::Byte(_) => Ok(temporary),
        Piece::Directive(directive) => {
            put_scan_argument(code, context, directive, temporary, line)?;
            Ok(temporary + 1)
        }
    }
}

// Puts the scans of all strings among the arguments of a format behind a list.
fn put_scans(
    code: &mut Vec<FlatInstruction>,
    context: &FunctionContext,
    pieces: &[Piece],
    first: usize,
    line: Line,
) -> Result<(), AllocError>
    requires prepared { IsPrepared context.now }
    requires among { first + length (directives pieces.now) ≤ most_temporaries context.now.function.now.code }
    ensures { OnOk result (code.new.items ≡ code.old.items ++ scan_pieces (runtime_number context.now.program.now)
        (λ r. status_code r line scan_statuses) context.now.function.now pieces.now first) }
{
    let mut temporary = first;
    for i in 0..pieces.len() {
        temporary = put_scan(code, context, piece_at(pieces, i), temporary, line)?;
    }
    Ok(())
}

// Puts an operator on two registers behind a list.
fn put_operator(
    code: &mut Vec<FlatInstruction>,
    op: RegOp,
    into: u32,
    left: u32,
    right: u32,
) -> Result<(), AllocError>
    ensures { OnOk result (code.new.items ≡ code.old.items ++ Operation op into left (InRegister right) ∷ []) }
{
    put(
        code,
        FlatInstruction::Operate {
            op,
            into,
            left,
            right: RightOperand::Register(right),
        },
    )
}

// Puts what puts out a string behind a list, whose end its scan has left.
fn put_string(
    code: &mut Vec<FlatInstruction>,
    context: &FunctionContext,
    temporary: usize,
    count: u32,
) -> Result<(), AllocError>
    requires prepared { IsPrepared context.now }
    requires there { temporary < most_temporaries context.now.function.now.code }
    requires room { count + 16 ≤ 2 ^ 31 }
    ensures { OnOk result (code.new.items ≡ code.old.items ++ put_argument (runtime_number context.now.program.now)
        context.now.function.now StringDirective temporary count) }
{
    let string = context.moved(temporary);
    let _room = context.free();
    put(
        code,
        FlatInstruction::Move {
            into: string,
            from: context.temporary(temporary),
        },
    )?;
    put_runtime_call(code, context, RANGE_PLACE, string, count + 1)?;
    put_operator(code, RegOp::Sub, count + 1, string + 1, string)?;
    put_operator(code, RegOp::Add, count, count, count + 1)
}

// Puts what puts out an argument behind a list, and counts its bytes.
fn put_argument(
    code: &mut Vec<FlatInstruction>,
    context: &FunctionContext,
    directive: Directive,
    temporary: usize,
    count: u32,
) -> Result<(), AllocError>
    requires prepared { IsPrepared context.now }
    requires there { temporary < most_temporaries context.now.function.now.code }
    requires room { count + 16 ≤ 2 ^ 31 }
    ensures { OnOk result (code.new.items ≡ code.old.items ++ put_argument (runtime_number context.now.program.now)
        context.now.function.now directive temporary count) }
{
    match directive {
        Directive::String => put_string(code, context, temporary, count),
        Directive::Int
        | Directive::UnsignedInt
        | Directive::Hexadecimal
        | Directive::Character
        | Directive::Long
        | Directive::UnsignedLong => {
            let argument = context.temporary(temporary);
            let place = directive_place(directive);
            put_runtime_call(code, context, place, argument, count + 1)?;
            put_operator(code, RegOp::Add, count, count, count + 2)
        }
    }
}

// Puts what puts out a byte of a format behind a list, and counts it.
fn put_byte(code: &mut Vec<FlatInstruction>, byte: u8, count: u32) -> Result<(), AllocError>
    requires { count < 2 ^ 31 }
    ensures { OnOk result (code.new.items ≡ code.old.items ++ byte_code byte count (count + 1)) }
{
    let own = count + 1;
    put(
        code,
        FlatInstruction::Constant {
            into: own,
            value: byte as u64,
        },
    )?;
    put(code, FlatInstruction::Put { from: own })?;
    put(
        code,
        FlatInstruction::Operate {
            op: RegOp::Add,
            into: count,
            left: count,
            right: RightOperand::Number(1),
        },
    )
}

// Puts what puts out the pieces of a format behind a list.
fn put_pieces(
    code: &mut Vec<FlatInstruction>,
    context: &FunctionContext,
    pieces: &[Piece],
    first: usize,
    count: u32,
) -> Result<(), AllocError>
    requires prepared { IsPrepared context.now }
    requires among { first + length (directives pieces.now) ≤ most_temporaries context.now.function.now.code }
    requires room { count + 16 ≤ 2 ^ 31 }
    ensures { OnOk result (code.new.items ≡ code.old.items ++ put_pieces (runtime_number context.now.program.now)
        context.now.function.now pieces.now first count) }
{
    let mut temporary = first;
    for piece in pieces {
        match *piece {
            Piece::Byte(byte) => put_byte(code, byte, count)?,
            Piece::Directive(directive) => {
                put_argument(code, context, directive, temporary, count)?;
                temporary += 1;
            }
        }
    }
    Ok(())
}

// Puts a call of `printf` with these pieces behind a list.
fn put_formatted(
    code: &mut Vec<FlatInstruction>,
    context: &FunctionContext,
    pieces: &[Piece],
    call: PrintCall,
) -> Result<(), AllocError>
    requires prepared { IsPrepared context.now }
    requires first { call.first < most_temporaries context.now.function.now.code }
    requires among { call.first + length (directives pieces.now)
        ≤ most_temporaries context.now.function.now.code }
    ensures { OnOk result (code.new.items ≡ code.old.items ++ print_code (runtime_number context.now.program.now)
        (λ r. status_code r call.line scan_statuses) context.now.function.now pieces.now call.first) }
{
    let first = call.first;
    let count = context.free();
    put_scans(code, context, pieces, first, call.line)?;
    put(
        code,
        FlatInstruction::Constant {
            into: count,
            value: 0,
        },
    )?;
    put_pieces(code, context, pieces, first, count)?;
    put(
        code,
        FlatInstruction::Operate32 {
            op: RegOp32::Addw,
            into: context.temporary(first),
            left: count,
            right: RightOperand::Number(0),
        },
    )
}

/// Puts a call of `printf` behind a list: all strings are scanned, in order, and then the pieces of the format are put
/// out and counted. It fails only for want of memory.
pub fn put_print(
    code: &mut Vec<FlatInstruction>,
    context: &FunctionContext,
    call: PrintCall,
    with_entry: bool,
) -> Result<(), AllocError>
    requires prepared { IsPrepared context.now }
    requires first { call.first < most_temporaries context.now.function.now.code }
    requires among { call.first
        + length (directives (pieces_or_none (pieces (text_in context.now.program.now call.text))))
        ≤ most_temporaries context.now.function.now.code }
    ensures { OnOk result (code.new.items ≡ code.old.items ++ (print_code (runtime_number context.now.program.now)
        (λ r. status_code r call.line scan_statuses) context.now.function.now
        (pieces_or_none (pieces (text_in context.now.program.now call.text))) call.first
        ++ untagged with_entry (temporary_register context.now.function.now call.first))) }
{
    let PrintCall { text, first, .. } = call;
    let pieces = pieces_of(context.alloc, text_of(context.program, text))?;
    put_formatted(code, context, pieces.as_slice(), call)?;
    let into = context.temporary(first);
    let _room = context.free();
    put_untagged(code, with_entry, into)
}
