//! Constants and plain variables (C99 6.4.4, 6.5.16).

ghost use Rattle.std.specs.Prelude.{◌≡◌, ◌+◌, ◌<◌, ◌≤◌, ◌^◌, ◌++◌, true, OnOk};
ghost use Rattle.shadow_space.specs.Form.{EntryCode};
ghost use Rattle.instruction_selection.specs.Contexts.{IsPrepared};
ghost use Rattle.instruction_selection.specs.Registers.{IsAmong};
ghost use Rattle.instruction_selection.specs.Selected.{is_plain, selected, is_updated};

use crate::context::FunctionContext;
use crate::entries::put_untagged;
use crate::updates::{PlainUpdate, put_plain_update};
use crate::values::{put_get, put_set};
use crate::variables::plain_type;
use flat_code::FlatInstruction;
use flat_operators::constant::put_constant;
use std::alloc::AllocError;
use tac_ir::Instruction;

// Puts the update of a plain variable behind a list.
fn put_updated(
    code: &mut Vec<FlatInstruction>,
    context: &FunctionContext,
    instruction: &Instruction,
    with_entry: bool,
) -> Result<(), AllocError>
    requires prepared { IsPrepared context.now }
    requires among { IsAmong context.now.program.now context.now.function.now instruction.now }
    ensures { OnOk result ((read write : EntryCode) → is_updated instruction.now ≡ true
        → code.new.items ≡ code.old.items ++ selected read write context.now with_entry instruction.now) }
{
    let Instruction::UpdatePlain {
        update,
        scalar,
        fixity,
        line,
        to,
        variable,
        right,
        ..
    } = instruction
    else {
        return Ok(());
    };
    let plain = PlainUpdate {
        update: *update,
        fixity: *fixity,
        line: *line,
        into: context.temporary(*to),
        variable: context.variable(*variable),
        right: *right,
    };
    put_plain_update(code, context, *scalar, &plain, with_entry, context.free())
}

/// Puts the code of a constant, or of a plain variable that is read, set or updated, behind a list. It fails only for
/// want of memory.
pub fn put_plain(
    code: &mut Vec<FlatInstruction>,
    context: &FunctionContext,
    instruction: &Instruction,
    with_entry: bool,
) -> Result<(), AllocError>
    requires prepared { IsPrepared context.now }
    requires among { IsAmong context.now.program.now context.now.function.now instruction.now }
    ensures { OnOk result ((read write : EntryCode) → is_plain instruction.now ≡ true → code.new.items ≡ code.old.items
        ++ selected read write context.now with_entry instruction.now) }
{
    match instruction {
        Instruction::Constant { to, word, .. } => {
            let into = context.temporary(*to);
            let _room = context.free();
            put_constant(code, into, *word)?;
            put_untagged(code, with_entry, into)
        }
        Instruction::GetPlain { to, variable, .. } => {
            let scalar = plain_type(context.function, *variable);
            let into = context.temporary(*to);
            let from = context.variable(*variable);
            let _room = context.free();
            put_get(code, scalar, with_entry, into, from)
        }
        Instruction::SetPlain { variable, from, .. } => {
            let scalar = plain_type(context.function, *variable);
            let into = context.variable(*variable);
            let from = context.temporary(*from);
            let _room = context.free();
            put_set(code, scalar, into, from)
        }
        Instruction::UpdatePlain { .. } => put_updated(code, context, instruction, with_entry),
        _ => Ok(()),
    }
}
