//! Where the run goes on (C99 6.8).

ghost use Rattle.std.specs.Prelude.{◌≡◌, ◌+◌, ◌<◌, ◌≤◌, ◌^◌, ◌++◌, Bool, true, OnOk};
ghost use Rattle.std.specs.Prelude.{◌∷◌, []};
ghost use Rattle.flat_code.specs.declared.instruction.FlatInstruction.TheVariants.{Branch as Choice};
ghost use Rattle.instruction_selection.specs.Contexts.{IsPrepared};
ghost use Rattle.instruction_selection.specs.Registers.{IsAmong};
ghost use Rattle.instruction_selection.specs.Selected.{is_control, selected};

use crate::bodies::put_return;
use crate::context::FunctionContext;
use crate::list::put;
use flat_code::{FlatInstruction, RightOperand};
use flat_operators::constant::put_constant;
use rv_isa::BranchOp;
use shadow_space::ShadowForm;
use std::alloc::AllocError;
use tac_ir::Instruction;

// Puts a branch past one instruction behind a list.
fn put_branch(
    code: &mut Vec<FlatInstruction>,
    op: BranchOp,
    left: u32,
    right: RightOperand,
) -> Result<(), AllocError>
    ensures { OnOk result (code.new.items ≡ code.old.items ++ Choice op left right 1 ∷ []) }
{
    put(
        code,
        FlatInstruction::Branch {
            op,
            left,
            right,
            past: 1,
        },
    )
}

/// Puts the code of a branch, a turn or a return behind a list. It fails only for want of memory.
pub fn put_control<S: ShadowForm>(
    code: &mut Vec<FlatInstruction>,
    context: &FunctionContext,
    instruction: &Instruction,
) -> Result<(), AllocError>
    requires prepared { IsPrepared context.now }
    requires among { IsAmong context.now.program.now context.now.function.now instruction.now }
    ensures { OnOk result ((with_entry : Bool) → is_control instruction.now ≡ true → code.new.items ≡ code.old.items
        ++ selected S.entry_read S.entry_write context.now with_entry instruction.now) }
{
    match instruction {
        Instruction::Branch { from, .. } => {
            let left = context.temporary(*from);
            put_branch(code, BranchOp::Bne, left, RightOperand::Number(0))
        }
        Instruction::Case { from, word, .. } => {
            let left = context.temporary(*from);
            let free = context.free();
            put_constant(code, free, *word)?;
            put_branch(code, BranchOp::Beq, left, RightOperand::Register(free))
        }
        Instruction::Turn { .. } => put(code, FlatInstruction::Turn),
        Instruction::Return { from } => {
            let from = context.temporary(*from);
            put_return::<S>(code, context, from)
        }
        _ => Ok(()),
    }
}
