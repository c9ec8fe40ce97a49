//! Calls of functions of the runtime, and the routines of the library (C99 7.19, 7.20.3, 7.21).

ghost use Rattle.std.specs.Prelude.{◌≡◌, ◌+◌, ◌<◌, ◌≤◌, ◌^◌, ◌++◌, length, None, OnOk};
ghost use Rattle.shadow_space.specs.Form.{EntryCode};
ghost use Rattle.metadata_plan.specs.Registers.{most_temporaries};
ghost use Rattle.runtime_functions.specs.Library.{signature};
ghost use Rattle.metadata_relation.specs.InlineLists.{inline_lists};
ghost use Rattle.metadata_relation.specs.Blocks.{library_code, library_place, runtime_call, runtime_number};
ghost use Rattle.metadata_relation.specs.Blocks.{status_code, status_tests, statuses_of};
ghost use Rattle.instruction_selection.specs.Calls.{argument_count, function_of, own_code};
ghost use Rattle.instruction_selection.specs.Contexts.{IsPrepared};

use crate::context::FunctionContext;
use crate::entries::put_untagged;
use crate::handing::{gives, put_pack, put_unpack, takes};
use crate::list::{append, put};
use c_tree::Routine;
use flat_code::{FlatInstruction, RightOperand};
use flat_operators::conversion::put_conversion;
use obj_memory::IntType;
use runtime_functions::{LibraryFunction, ReturnStatus};
use rv_isa::BranchOp;
use sb_base::{Ending, Line};
use std::alloc::{AllocError, Global};

/// The place among the functions of the runtime of the one that makes an object zero.
pub const ZERO_PLACE: u32 = 23;

/// The place of the one that moves a structure from one object to another.
pub const COPY_PLACE: u32 = 24;

/// The place of the one that makes the objects of a block.
pub const ENTER_PLACE: u32 = 25;

/// The place of the one that makes a structure of zeros in an area.
pub const ZERO_AREA_PLACE: u32 = 26;

/// The place of the one that takes a structure from its place to an area.
pub const TAKE_AREA_PLACE: u32 = 27;

/// The place of the one that puts a part of contents to a place.
pub const PUT_AREA_PLACE: u32 = 28;

/// The place of the one that moves a part of contents to an area.
pub const MOVE_AREA_PLACE: u32 = 29;

/// The statuses with which the objects of a block are not made.
pub const ENTER_STATUSES: [ReturnStatus; 2] = [ReturnStatus::Stack, ReturnStatus::Keys];

/// The number of a function of the runtime, by its place among these.
pub fn runtime_number(context: &FunctionContext, place: u32) -> u32
    requires prepared { IsPrepared context.now }
    requires place { place < 64 }
    ensures { result ≡ runtime_number context.now.program.now place }
{
    context.program.functions.as_slice().len() as u32 + place
}

// Puts the tests of a status behind a list.
fn put_status_tests(
    code: &mut Vec<FlatInstruction>,
    register: u32,
    line: Line,
    statuses: &[ReturnStatus],
) -> Result<(), AllocError>
    ensures { OnOk result (code.new.items ≡ code.old.items ++ status_tests register line statuses.now) }
{
    for status in statuses {
        put(
            code,
            FlatInstruction::Branch {
                op: BranchOp::Bne,
                left: register,
                right: RightOperand::Number(status.number() as u64),
                past: 1,
            },
        )?;
        if let Some(ending) = status.ending(line) {
            put(code, FlatInstruction::End(ending))?;
        }
    }
    Ok(())
}

/// Puts what ends the run behind a list where a status in a register is not 0, but one of some. It fails only for want
/// of memory.
#[tactic(auto, using(crate::proofs::Routines::tests_short))]
pub fn put_status(
    code: &mut Vec<FlatInstruction>,
    alloc: Global,
    register: u32,
    line: Line,
    statuses: &[ReturnStatus],
) -> Result<(), AllocError>
    requires { length statuses.now ≤ 8 }
    ensures { OnOk result (code.new.items ≡ code.old.items ++ status_code register line statuses.now) }
{
    let mut tests = Vec::new(alloc);
    put_status_tests(&mut tests, register, line, statuses)?;
    put(
        code,
        FlatInstruction::Branch {
            op: BranchOp::Beq,
            left: register,
            right: RightOperand::Number(0),
            past: tests.len() as u32,
        },
    )?;
    append(code, &tests)
}

// The place of a routine of the library among the functions of the runtime.
fn library_place(function: LibraryFunction) -> u32
    ensures value { result ≡ library_place function }
    ensures few { result < 64 }
{
    match function {
        LibraryFunction::Malloc => 0,
        LibraryFunction::Calloc => 1,
        LibraryFunction::Free => 2,
        LibraryFunction::Realloc => 3,
        LibraryFunction::Memcpy => 4,
        LibraryFunction::Memmove => 5,
        LibraryFunction::Memset => 6,
        LibraryFunction::Memcmp => 7,
        LibraryFunction::Strlen => 8,
        LibraryFunction::Strcmp => 9,
        LibraryFunction::Strcpy => 10,
        LibraryFunction::Strncpy => 11,
        LibraryFunction::Strcat => 12,
        LibraryFunction::Strchr => 13,
        LibraryFunction::Puts => 14,
    }
}

// The statuses with which a routine of the library may be left that has not done its work.
fn statuses_of(function: LibraryFunction) -> &'static [ReturnStatus]
    ensures value { result.now ≡ statuses_of function }
    ensures few { length result.now ≤ 8 }
{
    match function {
        LibraryFunction::Malloc | LibraryFunction::Calloc => &[ReturnStatus::Keys],
        LibraryFunction::Free => &[ReturnStatus::Temporal, ReturnStatus::BadFree],
        LibraryFunction::Realloc => &[
            ReturnStatus::Temporal,
            ReturnStatus::BadFree,
            ReturnStatus::Keys,
        ],
        LibraryFunction::Memcpy
        | LibraryFunction::Memmove
        | LibraryFunction::Memset
        | LibraryFunction::Memcmp
        | LibraryFunction::Strlen
        | LibraryFunction::Strcmp
        | LibraryFunction::Strcpy
        | LibraryFunction::Strncpy
        | LibraryFunction::Strcat
        | LibraryFunction::Strchr
        | LibraryFunction::Puts => &[ReturnStatus::Spatial, ReturnStatus::Temporal],
    }
}

// The function of the runtime that does what a routine does, where one does.
fn function_of(routine: Routine) -> Option<LibraryFunction>
    ensures { result ≡ function_of routine }
{
    match routine {
        Routine::Putchar | Routine::Getchar | Routine::Exit | Routine::Abort => None,
        Routine::Malloc => Some(LibraryFunction::Malloc),
        Routine::Calloc => Some(LibraryFunction::Calloc),
        Routine::Free => Some(LibraryFunction::Free),
        Routine::Realloc => Some(LibraryFunction::Realloc),
        Routine::Memcpy => Some(LibraryFunction::Memcpy),
        Routine::Memmove => Some(LibraryFunction::Memmove),
        Routine::Memset => Some(LibraryFunction::Memset),
        Routine::Memcmp => Some(LibraryFunction::Memcmp),
        Routine::Strlen => Some(LibraryFunction::Strlen),
        Routine::Strcmp => Some(LibraryFunction::Strcmp),
        Routine::Strcpy => Some(LibraryFunction::Strcpy),
        Routine::Strncpy => Some(LibraryFunction::Strncpy),
        Routine::Strcat => Some(LibraryFunction::Strcat),
        Routine::Strchr => Some(LibraryFunction::Strchr),
        Routine::Puts => Some(LibraryFunction::Puts),
    }
}

/// A call of a routine of the library.
#[derive(Clone, Copy)]
pub struct LibraryCall {
    /// The routine.
    pub routine: Routine,
    /// The line that a report names.
    pub line: Line,
    /// The temporary of the first argument, which gets the result.
    pub first: usize,
}

// Puts a call of a function of the runtime behind a list.
fn put_runtime_call(
    code: &mut Vec<FlatInstruction>,
    context: &FunctionContext,
    function: LibraryFunction,
    call: LibraryCall,
    with_entry: bool,
) -> Result<(), AllocError>
    requires prepared { IsPrepared context.now }
    requires first { call.first < most_temporaries context.now.function.now.code }
    requires among { call.first + length (signature function).takes
        ≤ most_temporaries context.now.function.now.code }
    ensures { OnOk result (code.new.items ≡ code.old.items ++ runtime_call context.now.program.now
        context.now.function.now function call.line call.first with_entry) }
{
    let LibraryCall { line, first, .. } = call;
    let arguments = context.moved(first);
    let free = context.free();
    put_pack(code, context, takes(function), arguments, first)?;
    put(
        code,
        FlatInstruction::Call {
            function: runtime_number(context, library_place(function)),
            first: arguments,
            into: free,
        },
    )?;
    put_status(code, context.alloc, free, line, statuses_of(function))?;
    let into = context.temporary(first);
    put_unpack(code, gives(function), with_entry, into, free + 1)
}

// Puts a routine that is code of the program behind a list.
fn put_own_routine(
    code: &mut Vec<FlatInstruction>,
    call: LibraryCall,
    with_entry: bool,
    into: u32,
) -> Result<(), AllocError>
    requires own { function_of call.routine ≡ None }
    requires into { into ≤ 2 ^ 31 }
    ensures { OnOk result (code.new.items ≡ code.old.items ++ own_code call.routine call.line with_entry into) }
{
    match call.routine {
        Routine::Putchar => {
            put(code, FlatInstruction::Put { from: into })?;
            put_conversion(code, IntType::UnsignedChar, into, into)?;
            put_untagged(code, with_entry, into)
        }
        Routine::Getchar => {
            put(code, FlatInstruction::Get { into })?;
            put_untagged(code, with_entry, into)
        }
        Routine::Exit => put(code, FlatInstruction::Exit { status: into }),
        _ => put(code, FlatInstruction::End(Ending::Abort(call.line))),
    }
}

/// Puts a call of a routine of the library behind a list. It fails only for want of memory.
#[tactic(auto, using(crate::proofs::Routines::called))]
pub fn put_library(
    code: &mut Vec<FlatInstruction>,
    context: &FunctionContext,
    call: LibraryCall,
    with_entry: bool,
) -> Result<(), AllocError>
    requires prepared { IsPrepared context.now }
    requires first { call.first < most_temporaries context.now.function.now.code }
    requires among { call.first + argument_count call.routine ≤ most_temporaries context.now.function.now.code }
    ensures { OnOk result ((read write : EntryCode) → code.new.items ≡ code.old.items
        ++ library_code (inline_lists read write context.now.map.now) context.now.program.now context.now.function.now
        call.routine call.line call.first with_entry) }
{
    match function_of(call.routine) {
        Some(function) => put_runtime_call(code, context, function, call, with_entry),
        None => {
            let into = context.temporary(call.first);
            let _room = context.free();
            put_own_routine(code, call, with_entry, into)
        }
    }
}
