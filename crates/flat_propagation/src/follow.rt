//! What an instruction tells of the register that it makes.

ghost use Rattle.std.specs.Prelude.{◌≡◌, ◌<◌, ◌+◌, ◌^◌, ℕ, OnOk};
ghost use Rattle.flat_propagation.specs.Facts.{opposite};
ghost use Rattle.flat_propagation.specs.Known.{copied, if_branchable, is_zero, turned, computed, after};
ghost use Rattle.flat_propagation.specs.Tables.{facts_of, IsBefore};

use crate::fact::Fact;
use crate::operands::{right_source_but, source_but};
use crate::table::FactTable;
use flat_code::{FlatInstruction, RightOperand};
use rv_isa::{BranchOp, RegOp};
use std::alloc::AllocError;

// The condition that holds where another does not.
pub(crate) fn opposite(op: BranchOp) -> BranchOp
    ensures { result ≡ opposite op }
{
    match op {
        BranchOp::Beq => BranchOp::Bne,
        BranchOp::Bne => BranchOp::Beq,
        BranchOp::Blt => BranchOp::Bge,
        BranchOp::Bge => BranchOp::Blt,
        BranchOp::Bltu => BranchOp::Bgeu,
        BranchOp::Bgeu => BranchOp::Bltu,
    }
}

fn copied(fact: Fact, from: u32) -> Fact
    ensures { result ≡ copied fact from }
{
    match fact {
        Fact::Unknown => Fact::Same(from),
        _ => fact,
    }
}

fn if_branchable(right: RightOperand, fact: Fact) -> Fact
    ensures { result ≡ if_branchable right fact }
{
    match right {
        RightOperand::Register(_) => fact,
        RightOperand::Number(0) => fact,
        RightOperand::Number(_) => Fact::Unknown,
    }
}

// Whether a value is 0.
fn is_zero(fact: Fact, register: u32) -> Fact
    ensures { result ≡ is_zero fact register }
{
    match fact {
        Fact::Difference { left, right } => Fact::Condition {
            op: BranchOp::Beq,
            left,
            right,
        },
        Fact::Condition { op, left, right } => Fact::Condition {
            op: opposite(op),
            left,
            right,
        },
        _ => Fact::Condition {
            op: BranchOp::Beq,
            left: register,
            right: RightOperand::Number(0),
        },
    }
}

fn turned(fact: Fact) -> Fact
    ensures { result ≡ turned fact }
{
    match fact {
        Fact::Condition { op, left, right } => Fact::Condition {
            op: opposite(op),
            left,
            right,
        },
        _ => Fact::Unknown,
    }
}

// What an operator tells of its result.
#[tactic(auto, unfolding(crate::specs::Known::computed))]
fn computed(op: RegOp, fact: Fact, left: u32, right: RightOperand) -> Fact
    ensures { result ≡ computed op fact left right }
{
    match op {
        RegOp::Sub => if_branchable(right, Fact::Difference { left, right }),
        RegOp::Slt => if_branchable(
            right,
            Fact::Condition {
                op: BranchOp::Blt,
                left,
                right,
            },
        ),
        RegOp::Sltu => match right {
            RightOperand::Number(1) => is_zero(fact, left),
            _ => if_branchable(
                right,
                Fact::Condition {
                    op: BranchOp::Bltu,
                    left,
                    right,
                },
            ),
        },
        RegOp::Xor => match right {
            RightOperand::Number(1) => turned(fact),
            _ => Fact::Unknown,
        },
        _ => Fact::Unknown,
    }
}

/// The table behind an instruction that is done at a time, from the one before it. It fails only for want of memory.
#[tactic(auto, unfolding(crate::specs::Known::after))]
pub fn follow(
    table: &mut FactTable,
    instruction: &FlatInstruction,
    time: usize,
) -> Result<(), AllocError>
    requires begun { 0 < time }
    requires before { IsBefore table.old time }
    requires small { time + 1 < 2 ^ 64 }
    ensures facts { OnOk result ((y : ℕ) → facts_of table.new y ≡ after (facts_of table.old) instruction.now y) }
    ensures before { OnOk result (IsBefore table.new (time + 1)) }
{
    match *instruction {
        FlatInstruction::Constant { into, value } => table.make(into, Fact::Word(value), time),
        FlatInstruction::Move { into, from } => {
            let fact = copied(table.fact(from), from);
            table.make(into, fact, time)
        }
        FlatInstruction::Operate {
            op,
            into,
            left,
            right,
        } => {
            let fact = table.fact(left);
            let right = right_source_but(into, table, right);
            table.make(
                into,
                computed(op, fact, source_but(into, fact, left), right),
                time,
            )
        }
        FlatInstruction::Operate32 {
            op: _,
            into,
            left: _,
            right: _,
        } => table.make(into, Fact::Unknown, time),
        FlatInstruction::Load {
            op: _,
            into,
            at: _,
            offset: _,
        } => table.make(into, Fact::Unknown, time),
        FlatInstruction::Get { into } => table.make(into, Fact::Unknown, time),
        FlatInstruction::Charged { into } => table.make(into, Fact::Unknown, time),
        FlatInstruction::Store { .. } => Ok(()),
        FlatInstruction::Branch { .. } => Ok(()),
        FlatInstruction::Turn => Ok(()),
        FlatInstruction::Put { .. } => Ok(()),
        _ => {
            table.forget(time + 1);
            Ok(())
        }
    }
}
