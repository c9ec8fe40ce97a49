//! Calls of functions of the program and of the library (C99 6.5.2.2, 7).

ghost use Rattle.std.specs.Prelude.{◌≡◌, ◌+◌, ◌<◌, ◌≤◌, ◌^◌, ◌++◌, true, OnOk};
ghost use Rattle.shadow_space.specs.Form.{EntryCode};
ghost use Rattle.instruction_selection.specs.Contexts.{IsPrepared};
ghost use Rattle.instruction_selection.specs.Registers.{IsAmong};
ghost use Rattle.instruction_selection.specs.Selected.{is_call, selected};

use crate::calls::{Call, put_call, put_call_through};
use crate::context::FunctionContext;
use crate::printing::{PrintCall, put_print};
use crate::runtime_calls::{LibraryCall, put_library};
use flat_code::FlatInstruction;
use std::alloc::AllocError;
use tac_ir::Instruction;

/// Puts the code of a call behind a list. It fails only for want of memory.
pub fn put_called(
    code: &mut Vec<FlatInstruction>,
    context: &FunctionContext,
    instruction: &Instruction,
    with_entry: bool,
) -> Result<(), AllocError>
    requires prepared { IsPrepared context.now }
    requires among { IsAmong context.now.program.now context.now.function.now instruction.now }
    ensures { OnOk result ((read write : EntryCode) → is_call instruction.now ≡ true → code.new.items ≡ code.old.items
        ++ selected read write context.now with_entry instruction.now) }
{
    match instruction {
        Instruction::Library {
            routine,
            line,
            first,
            ..
        } => {
            let call = LibraryCall {
                routine: *routine,
                line: *line,
                first: *first,
            };
            put_library(code, context, call, with_entry)
        }
        Instruction::Print {
            text,
            line,
            first,
            ..
        } => {
            let call = PrintCall {
                text: *text,
                line: *line,
                first: *first,
            };
            put_print(code, context, call, with_entry)
        }
        Instruction::Call {
            function,
            line,
            first,
            count,
            ..
        } => {
            let call = Call {
                line: *line,
                first: *first,
                count: *count,
                with_entry,
            };
            put_call(code, context, *function, call)
        }
        Instruction::CallThrough {
            type_number,
            line,
            first,
            count,
            ..
        } => {
            let call = Call {
                line: *line,
                first: *first,
                count: *count,
                with_entry,
            };
            put_call_through(code, context, *type_number, call)
        }
        _ => Ok(()),
    }
}
