//! Calls of functions of the program, by name and through pointers (C99 6.5.2.2).

ghost use Rattle.std.specs.Prelude.{◌≡◌, ◌+◌, ◌<◌, ◌≤◌, ◌^◌, ◌++◌, length, None, Some, slice_get};
ghost use Rattle.std.specs.Prelude.{MatchOption, OnOk, IfOk};
ghost use Rattle.runtime_functions.specs.Library.{held_from};
ghost use Rattle.metadata_plan.specs.Blocks.{call_tests};
ghost use Rattle.tac_ir.specs.Meaning.{function_in};
ghost use Rattle.tac_ir.specs.Structures.{result_of as given_by, result_of_type};
ghost use Rattle.metadata_plan.specs.OperatorLists.Operators.{operators};
ghost use Rattle.metadata_plan.specs.Registers.{most_temporaries};
ghost use Rattle.metadata_relation.specs.FunctionTypes.{first_of_type};
ghost use Rattle.metadata_relation.specs.Registers.{first_free, result_words};
ghost use Rattle.metadata_relation.specs.Blocks.{await_result, call_code, call_of, objects_of_body, result_code};
ghost use Rattle.metadata_relation.specs.Blocks.{callee_tests, object_tests, result_of, room_tests, through_code};
ghost use Rattle.metadata_relation.specs.Blocks.{through_of, unknown_object_tests};
ghost use Rattle.instruction_selection.specs.Contexts.{CanBeCalled, IsPrepared};
ghost use Rattle.metadata_expansion.specs.Areas.{bytes_of_structure};

use crate::call_tests::{
    put_call_tests, put_callee_tests, put_object_tests, put_room_tests, put_unknown_object_tests,
};
use crate::contents::{put_await, put_receive};
use crate::context::FunctionContext;
use crate::entries::{held_from, put_untagged};
use crate::handing::{handed_to, put_pack};
use crate::list::put;
use crate::registers::argument_words;
use c_tree::{Kind, Variable};
use flat_code::FlatInstruction;
use obj_memory::Scalar;
use sb_base::{Ending, Line};
use std::alloc::{AllocError, Global};
use tac_ir::{CodeFunction, Tac};

/// The objects of the block of a function's body, those among its parameters too, in a list of variables. It fails only
/// for want of memory.
pub fn body_objects(alloc: Global, function: &CodeFunction) -> Result<Vec<Variable>, AllocError>
    ensures { IfOk result (λ list. list.items ≡ objects_of_body function.now) }
{
    let mut list = Vec::from_slice(alloc, function.parameters.as_slice())?;
    list.extend_from_slice(function.entered.as_slice())?;
    Ok(list)
}

/// The kind of the result of a function.
pub fn result_of(program: &Tac, function: &CodeFunction) -> Kind
    ensures { result ≡ result_of program.now function.now }
{
    match program.results.as_slice().get(function.type_number) {
        Some(kind) => *kind,
        None => Kind::Void,
    }
}

/// A call.
#[derive(Clone, Copy)]
pub struct Call {
    /// The line that a report names.
    pub line: Line,
    /// The temporary that gets the result: that of the first argument, or that of the pointer.
    pub first: usize,
    /// How many arguments there are.
    pub count: usize,
    /// Whether the result has an entry.
    pub with_entry: bool,
}

// Puts what stands before a call for the sake of its result behind a list, where that is a structure.
#[tactic(auto, using(crate::proofs::Lists::nothing_behind))]
fn put_await_result(
    code: &mut Vec<FlatInstruction>,
    context: &FunctionContext,
    kind: Kind,
    temporary: usize,
) -> Result<(), AllocError>
    requires prepared { IsPrepared context.now }
    requires there { temporary < most_temporaries context.now.function.now.code }
    requires size { bytes_of_structure kind ≤ 2 ^ 62 }
    ensures { OnOk result (code.new.items ≡ code.old.items ++ await_result operators context.now.map.now
        context.now.program.now context.now.function.now kind temporary) }
{
    match kind {
        Kind::Structure(size) => put_await(code, context, temporary, size, context.free()),
        Kind::Void | Kind::Scalar(_) | Kind::Array(_) => Ok(()),
    }
}

// Puts what stands behind a call for the sake of its result behind a list: an entry where it is handed over without
// one, and what moves a structure.
#[tactic(auto, using(crate::proofs::Lists::nothing_behind))]
fn put_result(
    code: &mut Vec<FlatInstruction>,
    context: &FunctionContext,
    kind: Kind,
    with_entry: bool,
    temporary: usize,
) -> Result<(), AllocError>
    requires prepared { IsPrepared context.now }
    requires there { temporary < most_temporaries context.now.function.now.code }
    ensures { OnOk result (code.new.items ≡ code.old.items ++ result_code context.now.program.now
        context.now.function.now kind with_entry temporary) }
{
    let into = context.temporary(temporary);
    let free = context.free();
    match kind {
        Kind::Scalar(Scalar::Pointer) => Ok(()),
        Kind::Structure(_) => put_receive(code, context, with_entry, into, free),
        Kind::Void | Kind::Scalar(Scalar::Integer(_)) | Kind::Array(_) => {
            put_untagged(code, with_entry, into)
        }
    }
}

// Puts the tests of a call of a function behind a list.
fn put_tests(
    code: &mut Vec<FlatInstruction>,
    context: &FunctionContext,
    callee: &CodeFunction,
    line: Line,
) -> Result<(), AllocError>
    requires prepared { IsPrepared context.now }
    requires callee { CanBeCalled callee.now }
    ensures { OnOk result (code.new.items ≡ code.old.items
        ++ (call_tests context.now.map.now callee.now.room line (first_free context.now.function.now)
        ++ object_tests context.now.map.now (objects_of_body callee.now) line (first_free context.now.function.now))) }
{
    let free = context.free();
    let objects = body_objects(context.alloc, callee)?;
    put_call_tests(code, context.map, callee.room, line, free)?;
    put_object_tests(code, context.alloc, context.map, &objects, line, free)
}

// Puts a call of a function, by its number, behind a list.
fn put_call_of(
    code: &mut Vec<FlatInstruction>,
    context: &FunctionContext,
    callee: &CodeFunction,
    number: u32,
    call: Call,
) -> Result<(), AllocError>
    requires prepared { IsPrepared context.now }
    requires callee { CanBeCalled callee.now }
    requires first { call.first < most_temporaries context.now.function.now.code }
    requires among { call.first + length callee.now.parameters ≤ most_temporaries context.now.function.now.code }
    requires size { bytes_of_structure (result_of context.now.program.now callee.now) ≤ 2 ^ 62 }
    ensures { OnOk result (code.new.items ≡ code.old.items ++ call_code operators context.now.map.now
        context.now.program.now context.now.function.now callee.now number call.line call.first call.with_entry) }
{
    let given = result_of(context.program, callee);
    put_tests(code, context, callee, call.line)?;
    put_await_result(code, context, given, call.first)?;
    let arguments = context.moved(call.first);
    let handed = handed_to(context.alloc, callee.parameters.as_slice())?;
    let into = context.temporary(call.first);
    let _room = context.free();
    put_pack(code, context, &handed, arguments, call.first)?;
    put(
        code,
        FlatInstruction::Call {
            function: number,
            first: arguments,
            into,
        },
    )?;
    put_result(code, context, given, call.with_entry, call.first)
}

// A function of a program, by its number.
fn function_of(program: &Tac, number: usize) -> Option<&CodeFunction>
    ensures { MatchOption result (slice_get program.now.functions number ≡ None)
        (λ function. (slice_get program.now.functions number ≡ Some function.now)
        × (number < length program.now.functions)) }
{
    program.functions.as_slice().get(number)
}

// Puts a call of a function, by its number, behind a list; one with another number of arguments ends the run.
fn put_called(
    code: &mut Vec<FlatInstruction>,
    context: &FunctionContext,
    callee: &CodeFunction,
    number: u32,
    call: Call,
) -> Result<(), AllocError>
    requires prepared { IsPrepared context.now }
    requires callee { CanBeCalled callee.now }
    requires first { call.first < most_temporaries context.now.function.now.code }
    requires among { call.first + call.count ≤ most_temporaries context.now.function.now.code }
    requires size { bytes_of_structure (result_of context.now.program.now callee.now) ≤ 2 ^ 62 }
    ensures { OnOk result (code.new.items ≡ code.old.items ++ call_of operators context.now.map.now
        context.now.program.now context.now.function.now (Some callee.now) number call.line call.first call.count
        call.with_entry) }
{
    if callee.parameters.as_slice().len() == call.count {
        put_call_of(code, context, callee, number, call)
    } else {
        put(code, FlatInstruction::End(Ending::Abort(call.line)))
    }
}

/// Puts a call by name behind a list. Where there is no such function the run ends, and one with another number of
/// arguments is never reached. It fails only for want of memory.
pub fn put_call(
    code: &mut Vec<FlatInstruction>,
    context: &FunctionContext,
    number: usize,
    call: Call,
) -> Result<(), AllocError>
    requires prepared { IsPrepared context.now }
    requires first { call.first < most_temporaries context.now.function.now.code }
    requires among { call.first + call.count ≤ most_temporaries context.now.function.now.code }
    requires size { bytes_of_structure (given_by context.now.program.now.results
        (function_in context.now.program.now number)) ≤ 2 ^ 62 }
    ensures { OnOk result (code.new.items ≡ code.old.items ++ call_of operators context.now.map.now
        context.now.program.now context.now.function.now (function_in context.now.program.now number) number call.line
        call.first call.count call.with_entry) }
{
    match function_of(context.program, number) {
        None => put(code, FlatInstruction::End(Ending::BadCall(call.line))),
        Some(callee) => put_called(code, context, callee, number as u32, call),
    }
}

/// How many registers the result of a function takes.
pub fn result_words(kind: Kind) -> u32
    ensures { result ≡ result_words kind }
{
    match kind {
        Kind::Structure(_) => 0,
        Kind::Scalar(Scalar::Pointer) => 5,
        Kind::Void | Kind::Scalar(Scalar::Integer(_)) | Kind::Array(_) => 1,
    }
}

// Puts the tests of a call through a pointer behind a list.
fn put_through_tests(
    code: &mut Vec<FlatInstruction>,
    context: &FunctionContext,
    kind: u64,
    line: Line,
    pointer: u32,
) -> Result<(), AllocError>
    requires prepared { IsPrepared context.now }
    requires pointer { pointer ≤ 2 ^ 31 }
    ensures { OnOk result (code.new.items ≡ code.old.items
        ++ (callee_tests kind line pointer (first_free context.now.function.now)
        ++ (room_tests context.now.map.now (held_from pointer).tag.key line (first_free context.now.function.now)
        ++ unknown_object_tests context.now.map.now (held_from pointer).tag.key line
        (first_free context.now.function.now)))) }
{
    let free = context.free();
    let held = held_from(pointer);
    put_callee_tests(code, kind, line, pointer, free)?;
    put_room_tests(code, context.map, held.tag.key, line, free)?;
    put_unknown_object_tests(code, context.alloc, context.map, held.tag.key, line, free)?;
    Ok(())
}

// Puts a call through a pointer to a function of the type of one behind a list.
fn put_through_one(
    code: &mut Vec<FlatInstruction>,
    context: &FunctionContext,
    one: &CodeFunction,
    kind: u64,
    call: Call,
) -> Result<(), AllocError>
    requires prepared { IsPrepared context.now }
    requires callee { CanBeCalled one.now }
    requires among { call.first + 1 + length one.now.parameters ≤ most_temporaries context.now.function.now.code }
    requires size { bytes_of_structure (result_of context.now.program.now one.now) ≤ 2 ^ 62 }
    ensures { OnOk result (code.new.items ≡ code.old.items ++ through_code operators context.now.map.now
        context.now.program.now context.now.function.now one.now kind call.line call.first call.with_entry) }
{
    let pointer = context.temporary(call.first);
    let _room = context.free();
    let given = result_of(context.program, one);
    put_through_tests(code, context, kind, call.line, pointer)?;
    put_await_result(code, context, given, call.first)?;
    let arguments = context.moved(call.first + 1);
    let handed = handed_to(context.alloc, one.parameters.as_slice())?;
    put_pack(code, context, &handed, arguments, call.first + 1)?;
    put(
        code,
        FlatInstruction::CallAddress {
            at: pointer,
            first: arguments,
            count: argument_words(one.parameters.as_slice()),
            into: pointer,
            results: result_words(given),
        },
    )?;
    put_result(code, context, given, call.with_entry, call.first)?;
    Ok(())
}

// Puts a call through a pointer to a function of the type of one behind a list; one with another number of arguments
// ends the run.
fn put_called_through(
    code: &mut Vec<FlatInstruction>,
    context: &FunctionContext,
    one: &CodeFunction,
    kind: u64,
    call: Call,
) -> Result<(), AllocError>
    requires prepared { IsPrepared context.now }
    requires callee { CanBeCalled one.now }
    requires among { call.first + 1 + call.count ≤ most_temporaries context.now.function.now.code }
    requires size { bytes_of_structure (result_of context.now.program.now one.now) ≤ 2 ^ 62 }
    ensures { OnOk result (code.new.items ≡ code.old.items ++ through_of operators context.now.map.now
        context.now.program.now context.now.function.now (Some one.now) kind call.line call.first call.count
        call.with_entry) }
{
    if one.parameters.as_slice().len() == call.count {
        put_through_one(code, context, one, kind, call)
    } else {
        put(code, FlatInstruction::End(Ending::Abort(call.line)))
    }
}

// The number of the first function of a type, and their count where no function has it.
pub(crate) fn first_of_type(functions: &[CodeFunction], type_number: usize) -> usize
    ensures { result ≡ first_of_type functions.now type_number }
{
    for i in 0..functions.len() {
        if functions[i].type_number == type_number {
            return i;
        }
    }
    functions.len()
}

/// Puts a call through a pointer to a function of a type behind a list. Where no function has the type no call is one,
/// and one with another number of arguments is never reached. It fails only for want of memory.
pub fn put_call_through(
    code: &mut Vec<FlatInstruction>,
    context: &FunctionContext,
    type_number: usize,
    call: Call,
) -> Result<(), AllocError>
    requires prepared { IsPrepared context.now }
    requires among { call.first + 1 + call.count ≤ most_temporaries context.now.function.now.code }
    requires size { bytes_of_structure (result_of_type context.now.program.now.results type_number) ≤ 2 ^ 62 }
    ensures { OnOk result (code.new.items ≡ code.old.items ++ through_of operators context.now.map.now
        context.now.program.now context.now.function.now
        (slice_get context.now.program.now.functions (first_of_type context.now.program.now.functions type_number))
        (first_of_type context.now.program.now.functions type_number) call.line call.first call.count call.with_entry) }
{
    let kind = first_of_type(context.program.functions.as_slice(), type_number);
    match function_of(context.program, kind) {
        None => put(code, FlatInstruction::End(Ending::BadCall(call.line))),
        Some(one) => put_called_through(code, context, one, kind as u64, call),
    }
}
