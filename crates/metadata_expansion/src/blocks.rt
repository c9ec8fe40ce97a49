//! The block of each instruction.

ghost use Rattle.std.specs.Prelude.{◌≡◌, ℕ, ◌+◌, ◌<◌, ◌≤◌, ◌^◌, ◌++◌, ◌∷◌, [], OnOk};
ghost use Rattle.flat_code.specs.declared.instruction.FlatInstruction.TheVariants.{Branch as Choice};
ghost use Rattle.metadata_plan.specs.Blocks.{block, conversion, library_code};
ghost use Rattle.metadata_expansion.specs.Numbering.{IsAmong};
ghost use Rattle.metadata_expansion.specs.Contexts.{HasRegisters, block_in};
ghost use Rattle.metadata_plan.specs.OperatorLists.Operators.{operators};

use crate::calls::put_call;
use crate::context::FunctionContext;
use crate::list::put;
use crate::updates::{PlainUpdate, put_update};
use c_tree::{Kind, Routine};
use flat_code::{FlatInstruction, RightOperand};
use flat_operators::binary;
use flat_operators::binary::put_binary;
use flat_operators::constant::put_constant;
use flat_operators::conversion::put_conversion;
use flat_operators::unary::put_unary;
use obj_memory::{IntType, Scalar};
use rv_isa::BranchOp;
use sb_base::{Ending, Line};
use std::alloc::AllocError;
use tac_ir::Instruction;

// Puts a conversion to a kind behind a list.
fn put_kind(
    code: &mut Vec<FlatInstruction>,
    kind: Kind,
    into: u32,
    from: u32,
) -> Result<(), AllocError>
    ensures { OnOk result ((scratch : ℕ) → code.new.items ≡ code.old.items
        ++ conversion operators kind into from scratch) }
{
    match kind {
        Kind::Scalar(Scalar::Integer(int_type)) => put_conversion(code, int_type, into, from),
        Kind::Void | Kind::Scalar(Scalar::Pointer) | Kind::Structure(_) | Kind::Array(_) => {
            put(code, FlatInstruction::Constant { into, value: 0 })
        }
    }
}

// Puts a routine of the library behind a list.
fn put_library(
    code: &mut Vec<FlatInstruction>,
    routine: Routine,
    line: Line,
    register: u32,
) -> Result<(), AllocError>
    ensures { OnOk result ((scratch : ℕ) → code.new.items ≡ code.old.items
        ++ library_code operators routine line register scratch) }
{
    match routine {
        Routine::Putchar => {
            put(code, FlatInstruction::Put { from: register })?;
            put_conversion(code, IntType::UnsignedChar, register, register)
        }
        Routine::Getchar => put(code, FlatInstruction::Get { into: register }),
        Routine::Exit => put(code, FlatInstruction::Exit { status: register }),
        Routine::Abort => put(code, FlatInstruction::End(Ending::Abort(line))),
        _ => Ok(()),
    }
}

// Puts a branch past one instruction behind a list.
fn put_branch(
    code: &mut Vec<FlatInstruction>,
    op: BranchOp,
    left: u32,
    right: RightOperand,
) -> Result<(), AllocError>
    ensures { OnOk result (code.new.items ≡ code.old.items ++ Choice op left right 1 ∷ []) }
{
    put(
        code,
        FlatInstruction::Branch {
            op,
            left,
            right,
            past: 1,
        },
    )
}

/// Puts the block of an instruction behind a list. It fails only for want of memory.
pub fn put_block(
    code: &mut Vec<FlatInstruction>,
    context: &FunctionContext,
    instruction: &Instruction,
) -> Result<(), AllocError>
    requires registers { HasRegisters context.now }
    requires among { IsAmong context.now.function.now instruction.now }
    ensures { OnOk result (code.new.items ≡ code.old.items ++ block_in context.now instruction.now) }
{
    match instruction {
        Instruction::Constant { to, word, .. } => {
            let into = context.temporary(*to);
            put_constant(code, into, *word)
        }
        Instruction::GetPlain { to, variable, .. } => {
            let into = context.temporary(*to);
            let from = context.variable(*variable);
            put(code, FlatInstruction::Move { into, from })
        }
        Instruction::SetPlain { variable, from, .. } => {
            let into = context.variable(*variable);
            let from = context.temporary(*from);
            put(code, FlatInstruction::Move { into, from })
        }
        Instruction::UpdatePlain {
            update,
            scalar,
            fixity,
            line,
            to,
            variable,
            right,
            ..
        } => {
            let plain = PlainUpdate {
                fixity: *fixity,
                line: *line,
                to: *to,
                variable: *variable,
                right: *right,
            };
            put_update(code, context, *update, *scalar, plain)
        }
        Instruction::ZeroOf { to, .. } => {
            let into = context.temporary(*to);
            put(code, FlatInstruction::Constant { into, value: 0 })
        }
        Instruction::Convert { kind, to, from, .. } => {
            let into = context.temporary(*to);
            let from = context.temporary(*from);
            put_kind(code, *kind, into, from)
        }
        Instruction::Unary {
            operator,
            int_type,
            to,
            from,
            ..
        } => {
            let into = context.temporary(*to);
            let from = context.temporary(*from);
            put_unary(
                code,
                *operator,
                *int_type,
                into,
                from,
                context.registers.free,
            )
        }
        Instruction::Binary {
            operator,
            int_type,
            line,
            to,
            left,
            right,
            ..
        } => {
            let operands = binary::Registers {
                into: context.temporary(*to),
                left: context.temporary(*left),
                right: context.temporary(*right),
                scratch: context.registers.free,
            };
            put_binary(code, *operator, *int_type, *line, operands)
        }
        Instruction::Branch { from, .. } => {
            let left = context.temporary(*from);
            put_branch(code, BranchOp::Bne, left, RightOperand::Number(0))
        }
        Instruction::Case { from, word, .. } => {
            let left = context.temporary(*from);
            put_constant(code, context.registers.free, *word)?;
            put_branch(
                code,
                BranchOp::Beq,
                left,
                RightOperand::Register(context.registers.free),
            )
        }
        Instruction::Turn { .. } => put(code, FlatInstruction::Turn),
        Instruction::Library {
            routine,
            line,
            first,
            ..
        } => {
            let register = context.temporary(*first);
            put_library(code, *routine, *line, register)
        }
        Instruction::Call {
            function: called,
            line,
            first,
            count,
            ..
        } => put_call(code, context, *called, *line, *first, *count),
        Instruction::Return { from } => {
            let from = context.temporary(*from);
            put(code, FlatInstruction::Return { from })
        }
        _ => put(code, FlatInstruction::End(Ending::Abort(Line::first()))),
    }
}
