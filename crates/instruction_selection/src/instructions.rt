//! The flat code of each instruction.

ghost use Rattle.std.specs.Prelude.{◌≡◌, ◌+◌, ◌<◌, ◌≤◌, ◌^◌, ◌++◌, ◌∷◌, [], true, OnOk};
ghost use Rattle.flat_code.specs.declared.instruction.FlatInstruction.TheVariants.{End};
ghost use Rattle.sb_base.specs.declared.ending.Ending.TheVariants.{Abort};
ghost use Rattle.instruction_selection.specs.Contexts.{IsPrepared};
ghost use Rattle.instruction_selection.specs.Registers.{IsAmong};
ghost use Rattle.instruction_selection.specs.Selected.{selected};

use crate::context::FunctionContext;
use crate::list::put;
use crate::selection::accesses::put_access;
use crate::selection::calls::put_called;
use crate::selection::computed::put_computed;
use crate::selection::control::put_control;
use crate::selection::derived::put_derived;
use crate::selection::made::put_made;
use crate::selection::names::put_name_pointer;
use crate::selection::objects::put_of_objects;
use crate::selection::plain::put_plain;
use flat_code::FlatInstruction;
use sb_base::{Ending, Line};
use shadow_space::ShadowForm;
use std::alloc::AllocError;
use tac_ir::Instruction;

// Puts what stands for an instruction that has no code behind a list: the run ends.
fn put_abort(code: &mut Vec<FlatInstruction>) -> Result<(), AllocError>
    ensures { OnOk result (code.new.items ≡ code.old.items ++ End (Abort 1) ∷ []) }
{
    put(code, FlatInstruction::End(Ending::Abort(Line::first())))
}

/// Puts the flat code of an instruction behind a list. `with_entry` says whether the temporary that it gives has an
/// entry behind it. It fails only for want of memory.
pub fn put_instruction<S: ShadowForm>(
    code: &mut Vec<FlatInstruction>,
    context: &FunctionContext,
    instruction: &Instruction,
    with_entry: bool,
) -> Result<(), AllocError>
    requires prepared { IsPrepared context.now }
    requires among { IsAmong context.now.program.now context.now.function.now instruction.now }
    ensures { OnOk result (code.new.items ≡ code.old.items
        ++ selected S.entry_read S.entry_write context.now with_entry instruction.now) }
{
    match instruction {
        Instruction::Skip { .. } => Ok(()),
        Instruction::Constant { .. }
        | Instruction::GetPlain { .. }
        | Instruction::SetPlain { .. }
        | Instruction::UpdatePlain { .. } => put_plain(code, context, instruction, with_entry),
        Instruction::ZeroOf { .. } | Instruction::Take { .. } => {
            put_made(code, context, instruction, with_entry)
        }
        Instruction::Convert { .. } | Instruction::Unary { .. } | Instruction::Binary { .. } =>
            put_computed(code, context, instruction, with_entry),
        Instruction::HomePointer { .. }
        | Instruction::StaticPointer { .. }
        | Instruction::FunctionPointer { .. } => {
            put_name_pointer(code, context, instruction, with_entry)
        }
        Instruction::Offset { .. }
        | Instruction::Difference { .. }
        | Instruction::Narrow { .. }
        | Instruction::Member { .. } => put_derived(code, context, instruction, with_entry),
        Instruction::Read { .. }
        | Instruction::Write { .. }
        | Instruction::Update { .. }
        | Instruction::Judge { .. } => put_access::<S>(code, context, instruction, with_entry),
        Instruction::Zero { .. }
        | Instruction::StorePart { .. }
        | Instruction::StoreText { .. }
        | Instruction::EnterBlock { .. }
        | Instruction::LeaveBlock { .. } => put_of_objects::<S>(code, context, instruction),
        Instruction::Branch { .. }
        | Instruction::Case { .. }
        | Instruction::Turn { .. }
        | Instruction::Return { .. } => put_control::<S>(code, context, instruction),
        Instruction::Library { .. }
        | Instruction::Print { .. }
        | Instruction::Call { .. }
        | Instruction::CallThrough { .. } => put_called(code, context, instruction, with_entry),
        Instruction::Reserved => put_abort(code),
    }
}
