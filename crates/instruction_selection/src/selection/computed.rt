//! Values computed from others: conversions and operators (C99 6.3, 6.5).

ghost use Rattle.std.specs.Prelude.{◌≡◌, ◌+◌, ◌<◌, ◌≤◌, ◌^◌, ◌++◌, true, OnOk};
ghost use Rattle.shadow_space.specs.Form.{EntryCode};
ghost use Rattle.instruction_selection.specs.Contexts.{IsPrepared};
ghost use Rattle.instruction_selection.specs.Registers.{IsAmong};
ghost use Rattle.instruction_selection.specs.Selected.{is_computed, selected};

use crate::context::FunctionContext;
use crate::entries::put_untagged;
use crate::values::put_converted;
use flat_code::FlatInstruction;
use flat_operators::binary::{Registers, put_binary};
use flat_operators::unary::put_unary;
use std::alloc::AllocError;
use tac_ir::Instruction;

/// Puts the code of a conversion or an operator behind a list. It fails only for want of memory.
pub fn put_computed(
    code: &mut Vec<FlatInstruction>,
    context: &FunctionContext,
    instruction: &Instruction,
    with_entry: bool,
) -> Result<(), AllocError>
    requires prepared { IsPrepared context.now }
    requires among { IsAmong context.now.program.now context.now.function.now instruction.now }
    ensures { OnOk result ((read write : EntryCode) → is_computed instruction.now ≡ true → code.new.items ≡ code.old.items
        ++ selected read write context.now with_entry instruction.now) }
{
    match instruction {
        Instruction::Convert { kind, to, from, .. } => {
            let into = context.temporary(*to);
            let from = context.temporary(*from);
            let _room = context.free();
            put_converted(code, *kind, with_entry, into, from)
        }
        Instruction::Unary {
            operator,
            int_type,
            to,
            from,
            ..
        } => {
            let into = context.temporary(*to);
            let from = context.temporary(*from);
            put_unary(code, *operator, *int_type, into, from, context.free())?;
            put_untagged(code, with_entry, into)
        }
        Instruction::Binary {
            operator,
            int_type,
            line,
            to,
            left,
            right,
            ..
        } => {
            let into = context.temporary(*to);
            let operands = Registers {
                into,
                left: context.temporary(*left),
                right: context.temporary(*right),
                scratch: context.free(),
            };
            put_binary(code, *operator, *int_type, *line, operands)?;
            put_untagged(code, with_entry, into)
        }
        _ => Ok(()),
    }
}
