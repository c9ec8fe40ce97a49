//! Pointers made of others (C99 6.5.2.3, 6.5.6).

ghost use Rattle.std.specs.Prelude.{◌≡◌, ◌+◌, ◌<◌, ◌≤◌, ◌^◌, ◌++◌, true, OnOk};
ghost use Rattle.shadow_space.specs.Form.{EntryCode};
ghost use Rattle.addr_map.specs.Places.{MapSizes};
ghost use Rattle.metadata_plan.specs.Registers.{most_temporaries};
ghost use Rattle.metadata_plan.specs.Entries.{pointer_of};
ghost use Rattle.metadata_relation.specs.Registers.{temporary_register};
ghost use Rattle.metadata_relation.specs.InlineLists.{inline_lists};
ghost use Rattle.metadata_relation.specs.Blocks.{move_entry_if, offset_code};
ghost use Rattle.runtime_functions.specs.Library.{held_from};
ghost use Rattle.instruction_selection.specs.Contexts.{HasRegisters};
ghost use Rattle.instruction_selection.specs.Contexts.{IsPrepared};
ghost use Rattle.instruction_selection.specs.Registers.{IsAmong};
ghost use Rattle.instruction_selection.specs.Selected.{is_derived, selected, is_moved};

use crate::context::FunctionContext;
use crate::entries::{held_from, put_entry_if, put_untagged};
use crate::pointers::{MemberRange, put_moved, put_narrowed};
use c_tree::OffsetForm;
use flat_code::FlatInstruction;
use flat_operators::binary::Registers;
use flat_operators::pointers::put_difference;
use std::alloc::AllocError;
use tac_ir::Instruction;

// The register of the pointer of a sum of a pointer and an index.
fn pointer_register(context: &FunctionContext, form: OffsetForm, left: usize, right: usize) -> u32
    requires registers { HasRegisters context.now }
    requires left { left < most_temporaries context.now.function.now.code }
    requires right { right < most_temporaries context.now.function.now.code }
    ensures value { result ≡ temporary_register context.now.function.now (pointer_of form left right) }
    ensures room { result + 5 ≤ context.now.registers.now.free }
{
    match form {
        OffsetForm::PointerPlusIndex | OffsetForm::PointerMinusIndex => context.temporary(left),
        OffsetForm::IndexPlusPointer => context.temporary(right),
    }
}

// Puts a pointer that moves by elements behind a list, with its entry where that is kept.
fn put_offset(
    code: &mut Vec<FlatInstruction>,
    form: OffsetForm,
    size: u64,
    operands: Registers,
    pointer: u32,
    with_entry: bool,
) -> Result<(), AllocError>
    requires into { operands.into ≤ 2 ^ 31 }
    requires pointer { pointer ≤ 2 ^ 31 }
    ensures { OnOk result ((read write : EntryCode) (map : MapSizes) → code.new.items ≡ code.old.items
        ++ (offset_code (inline_lists read write map) form size operands.into operands.left operands.right
        operands.scratch ++ move_entry_if with_entry (held_from operands.into).tag (held_from pointer).tag)) }
{
    let into = operands.into;
    put_moved(code, form, size, operands)?;
    put_entry_if(
        code,
        with_entry,
        held_from(into).tag,
        held_from(pointer).tag,
    )
}

// Puts a pointer that moves by elements, or a difference of two, behind a list.
fn put_by_elements(
    code: &mut Vec<FlatInstruction>,
    context: &FunctionContext,
    instruction: &Instruction,
    with_entry: bool,
) -> Result<(), AllocError>
    requires prepared { IsPrepared context.now }
    requires among { IsAmong context.now.program.now context.now.function.now instruction.now }
    ensures { OnOk result ((read write : EntryCode) → is_moved instruction.now ≡ true
        → code.new.items ≡ code.old.items ++ selected read write context.now with_entry instruction.now) }
{
    match instruction {
        Instruction::Offset {
            form,
            size,
            to,
            left,
            right,
            ..
        } => {
            let operands = Registers {
                into: context.temporary(*to),
                left: context.temporary(*left),
                right: context.temporary(*right),
                scratch: context.free(),
            };
            let pointer = pointer_register(context, *form, *left, *right);
            put_offset(code, *form, *size, operands, pointer, with_entry)
        }
        Instruction::Difference {
            size,
            to,
            left,
            right,
            ..
        } => {
            let into = context.temporary(*to);
            let operands = Registers {
                into,
                left: context.temporary(*left),
                right: context.temporary(*right),
                scratch: context.free(),
            };
            put_difference(code, *size, operands)?;
            put_untagged(code, with_entry, into)
        }
        _ => Ok(()),
    }
}

/// Puts the code of a pointer that moves, of a difference or of a pointer to a member behind a list. It fails only for
/// want of memory.
pub fn put_derived(
    code: &mut Vec<FlatInstruction>,
    context: &FunctionContext,
    instruction: &Instruction,
    with_entry: bool,
) -> Result<(), AllocError>
    requires prepared { IsPrepared context.now }
    requires among { IsAmong context.now.program.now context.now.function.now instruction.now }
    ensures { OnOk result ((read write : EntryCode) → is_derived instruction.now ≡ true → code.new.items ≡ code.old.items
        ++ selected read write context.now with_entry instruction.now) }
{
    match instruction {
        Instruction::Offset { .. } | Instruction::Difference { .. } => {
            put_by_elements(code, context, instruction, with_entry)
        }
        Instruction::Narrow {
            offset,
            size,
            to,
            from,
            ..
        }
        | Instruction::Member {
            offset,
            size,
            to,
            from,
            ..
        } => {
            let member = MemberRange {
                offset: *offset,
                size: *size,
            };
            let into = context.temporary(*to);
            let from = context.temporary(*from);
            let free = context.free();
            put_narrowed(context.alloc, code, member, with_entry, into, from, free)
        }
        _ => Ok(()),
    }
}
