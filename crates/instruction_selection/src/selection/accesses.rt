//! Accesses through pointers, and their checks (C99 6.5.3.2, 6.5.16).

ghost use Rattle.std.specs.Prelude.{◌≡◌, ◌+◌, ◌<◌, ◌≤◌, ◌^◌, ◌++◌, true, OnOk};
ghost use Rattle.metadata_relation.specs.InlineLists.{inline_lists};
ghost use Rattle.instruction_selection.specs.Contexts.{IsPrepared};
ghost use Rattle.instruction_selection.specs.Registers.{IsAmong};
ghost use Rattle.instruction_selection.specs.Selected.{is_access, selected, assigned_code, is_place_update};

use crate::accesses::{WriteRegisters, put_write};
use crate::checks::{Check, put_judge};
use crate::context::FunctionContext;
use crate::list::put;
use crate::place_updates::{PlaceUpdate, put_update};
use crate::reads::{ReadRegisters, put_read};
use crate::structures::put_structure_write;
use c_tree::Kind;
use flat_code::FlatInstruction;
use sb_base::{Ending, Line};
use shadow_space::ShadowForm;
use std::alloc::AllocError;
use tac_ir::Instruction;

// Puts an assignment of a value of a kind through a pointer behind a list.
fn put_assigned<S: ShadowForm>(
    code: &mut Vec<FlatInstruction>,
    context: &FunctionContext,
    kind: Kind,
    has_area: bool,
    with_entry: bool,
    registers: WriteRegisters,
) -> Result<(), AllocError>
    requires prepared { IsPrepared context.now }
    requires into { registers.into + 5 ≤ registers.scratch }
    requires pointer { registers.pointer + 5 ≤ registers.scratch }
    requires value { registers.value + 5 ≤ registers.scratch }
    requires room { registers.scratch + 16 ≤ 2 ^ 31 }
    ensures { OnOk result (code.new.items ≡ code.old.items
        ++ assigned_code (inline_lists S.entry_read S.entry_write context.now.map.now) context.now.program.now kind
        has_area with_entry registers.into registers.pointer registers.value registers.scratch) }
{
    match kind {
        Kind::Scalar(scalar) => put_write::<S>(code, context, scalar, with_entry, registers),
        Kind::Structure(size) => {
            put_structure_write(code, context, size, has_area, with_entry, registers)
        }
        Kind::Void | Kind::Array(_) => {
            put(code, FlatInstruction::End(Ending::Abort(Line::first())))
        }
    }
}

// Puts an update through a pointer behind a list.
fn put_updated<S: ShadowForm>(
    code: &mut Vec<FlatInstruction>,
    context: &FunctionContext,
    instruction: &Instruction,
    with_entry: bool,
) -> Result<(), AllocError>
    requires prepared { IsPrepared context.now }
    requires among { IsAmong context.now.program.now context.now.function.now instruction.now }
    ensures { OnOk result (is_place_update instruction.now ≡ true → code.new.items ≡ code.old.items
        ++ selected S.entry_read S.entry_write context.now with_entry instruction.now) }
{
    let Instruction::Update {
        update,
        scalar,
        fixity,
        operator_line,
        to,
        pointer,
        right,
        ..
    } = instruction
    else {
        return Ok(());
    };
    let place = PlaceUpdate {
        update: *update,
        fixity: *fixity,
        line: *operator_line,
        into: context.temporary(*to),
        pointer: context.temporary(*pointer),
        right: *right,
        scratch: context.free(),
    };
    put_update::<S>(code, context, *scalar, with_entry, place)
}

/// Puts the code of an access through a pointer or of a check behind a list. It fails only for want of memory.
pub fn put_access<S: ShadowForm>(
    code: &mut Vec<FlatInstruction>,
    context: &FunctionContext,
    instruction: &Instruction,
    with_entry: bool,
) -> Result<(), AllocError>
    requires prepared { IsPrepared context.now }
    requires among { IsAmong context.now.program.now context.now.function.now instruction.now }
    ensures { OnOk result (is_access instruction.now ≡ true → code.new.items ≡ code.old.items
        ++ selected S.entry_read S.entry_write context.now with_entry instruction.now) }
{
    match instruction {
        Instruction::Read {
            kind,
            mode,
            to,
            from,
            ..
        } => {
            let registers = ReadRegisters {
                into: context.temporary(*to),
                from: context.temporary(*from),
                scratch: context.free(),
            };
            let may_be_part = context.may_read_part(*mode, *from);
            put_read::<S>(code, context, *kind, may_be_part, with_entry, registers)
        }
        Instruction::Write {
            kind,
            to,
            pointer,
            value,
            ..
        } => {
            let registers = WriteRegisters {
                into: context.temporary(*to),
                pointer: context.temporary(*pointer),
                value: context.temporary(*value),
                scratch: context.free(),
            };
            let has_area = context.has_area(*value);
            put_assigned::<S>(code, context, *kind, has_area, with_entry, registers)
        }
        Instruction::Update { .. } => put_updated::<S>(code, context, instruction, with_entry),
        Instruction::Judge {
            test,
            size,
            line,
            key,
            pointer,
            ..
        } => {
            let check = Check {
                test: *test,
                size: *size,
                line: *line,
                pointer: context.temporary(*pointer),
                scratch: context.free(),
            };
            put_judge(code, context, check, *key)
        }
        _ => Ok(()),
    }
}
