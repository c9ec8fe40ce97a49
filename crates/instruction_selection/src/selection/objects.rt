//! Objects of variables, and the blocks that declare them (C99 6.2.4, 6.7.8).

ghost use Rattle.std.specs.Prelude.{◌≡◌, ◌+◌, ◌<◌, ◌≤◌, ◌^◌, ◌++◌, Bool, true, OnOk};
ghost use Rattle.instruction_selection.specs.Contexts.{IsPrepared};
ghost use Rattle.instruction_selection.specs.Registers.{IsAmong};
ghost use Rattle.instruction_selection.specs.Selected.{is_of_objects, selected, is_of_block};

use crate::blocks::{block_objects, put_enter, put_leave, put_zero_object};
use crate::context::FunctionContext;
use crate::initializers::{put_part, put_text};
use flat_code::FlatInstruction;
use shadow_space::ShadowForm;
use std::alloc::AllocError;
use tac_ir::Instruction;

// Puts what makes the objects of a block, or ends their life, behind a list.
#[tactic(auto, using(crate::proofs::BlockObjects::block_among))]
fn put_of_block<S: ShadowForm>(
    code: &mut Vec<FlatInstruction>,
    context: &FunctionContext,
    instruction: &Instruction,
) -> Result<(), AllocError>
    requires prepared { IsPrepared context.now }
    requires among { IsAmong context.now.program.now context.now.function.now instruction.now }
    ensures { OnOk result ((with_entry : Bool) → is_of_block instruction.now ≡ true
        → code.new.items ≡ code.old.items
        ++ selected S.entry_read S.entry_write context.now with_entry instruction.now) }
{
    match instruction {
        Instruction::EnterBlock { block, line, .. } => {
            let objects = block_objects(context.alloc, context.function, *block)?;
            put_enter(code, context, &objects, *line)
        }
        Instruction::LeaveBlock { block, .. } => {
            let objects = block_objects(context.alloc, context.function, *block)?;
            put_leave::<S>(code, context, &objects)
        }
        _ => Ok(()),
    }
}

/// Puts the code of what is done to the object of a variable, or where a block is entered or left, behind a list. It
/// fails only for want of memory.
pub fn put_of_objects<S: ShadowForm>(
    code: &mut Vec<FlatInstruction>,
    context: &FunctionContext,
    instruction: &Instruction,
) -> Result<(), AllocError>
    requires prepared { IsPrepared context.now }
    requires among { IsAmong context.now.program.now context.now.function.now instruction.now }
    ensures { OnOk result ((with_entry : Bool) → is_of_objects instruction.now ≡ true → code.new.items ≡ code.old.items
        ++ selected S.entry_read S.entry_write context.now with_entry instruction.now) }
{
    match instruction {
        Instruction::Zero { variable, .. } => put_zero_object(code, context, *variable),
        Instruction::StorePart {
            kind,
            variable,
            offset,
            from,
            ..
        } => {
            let has_area = context.has_area(*from);
            let from = context.temporary(*from);
            put_part::<S>(code, context, *kind, has_area, *variable, *offset, from)
        }
        Instruction::StoreText {
            text,
            variable,
            offset,
            ..
        } => { put_text(code, context, *text, *variable, *offset) }
        Instruction::EnterBlock { .. } | Instruction::LeaveBlock { .. } => {
            put_of_block::<S>(code, context, instruction)
        }
        _ => Ok(()),
    }
}
