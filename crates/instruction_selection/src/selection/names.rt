//! Pointers to what is named (C99 6.3.2.1).

ghost use Rattle.std.specs.Prelude.{◌≡◌, ◌+◌, ◌<◌, ◌≤◌, ◌^◌, ◌++◌, true, OnOk};
ghost use Rattle.shadow_space.specs.Form.{EntryCode};
ghost use Rattle.instruction_selection.specs.Contexts.{IsPrepared};
ghost use Rattle.instruction_selection.specs.Registers.{IsAmong};
ghost use Rattle.instruction_selection.specs.Selected.{is_name_pointer, selected};

use crate::context::FunctionContext;
use crate::named::{put_function, put_home};
use crate::statics::put_static;
use flat_code::FlatInstruction;
use std::alloc::AllocError;
use tac_ir::Instruction;

/// Puts the code of the pointer to an object or a function that is named behind a list. It fails only for want of
/// memory.
pub fn put_name_pointer(
    code: &mut Vec<FlatInstruction>,
    context: &FunctionContext,
    instruction: &Instruction,
    with_entry: bool,
) -> Result<(), AllocError>
    requires prepared { IsPrepared context.now }
    requires among { IsAmong context.now.program.now context.now.function.now instruction.now }
    ensures { OnOk result ((read write : EntryCode) → is_name_pointer instruction.now ≡ true → code.new.items ≡ code.old.items
        ++ selected read write context.now with_entry instruction.now) }
{
    match instruction {
        Instruction::HomePointer { to, variable, .. } => {
            let into = context.temporary(*to);
            let _room = context.free();
            put_home(code, context, with_entry, into, *variable)
        }
        Instruction::StaticPointer { to, number, .. } => {
            let into = context.temporary(*to);
            put_static(code, context, *number, with_entry, into, context.free())
        }
        Instruction::FunctionPointer { to, function, .. } => {
            let into = context.temporary(*to);
            let free = context.free();
            put_function(
                code,
                context.type_of(*function),
                *function,
                with_entry,
                into,
                free,
            )
        }
        _ => Ok(()),
    }
}
