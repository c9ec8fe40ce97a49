//! Instructions whose operands are taken from where they come.

ghost use Rattle.std.specs.Prelude.{◌≡◌};
ghost use Rattle.flat_code.specs.declared.instruction.RightOperand.TheVariants.{Number};
ghost use Rattle.flat_propagation.specs.Propagated.{unless_zero, if_zero, compared_zero, branch_on, moved, rewritten};
ghost use Rattle.flat_propagation.specs.Tables.{facts_of};

use crate::fact::Fact;
use crate::follow::opposite;
use crate::operands::{is_short, right_of, right_source, right32_of, source, source_but};
use crate::table::FactTable;
use flat_code::{FlatInstruction, RightOperand};
use rv_isa::BranchOp;

// A branch where a value is not 0.
fn unless_zero(fact: Fact, register: u32, past: u32) -> FlatInstruction
    ensures { result ≡ unless_zero fact register past }
{
    match fact {
        Fact::Difference { left, right } => FlatInstruction::Branch {
            op: BranchOp::Bne,
            left,
            right,
            past,
        },
        Fact::Condition { op, left, right } => FlatInstruction::Branch {
            op,
            left,
            right,
            past,
        },
        _ => FlatInstruction::Branch {
            op: BranchOp::Bne,
            left: source(fact, register),
            right: RightOperand::Number(0),
            past,
        },
    }
}

// A branch where a value is 0.
fn if_zero(fact: Fact, register: u32, past: u32) -> FlatInstruction
    ensures { result ≡ if_zero fact register past }
{
    match fact {
        Fact::Difference { left, right } => FlatInstruction::Branch {
            op: BranchOp::Beq,
            left,
            right,
            past,
        },
        Fact::Condition { op, left, right } => FlatInstruction::Branch {
            op: opposite(op),
            left,
            right,
            past,
        },
        _ => FlatInstruction::Branch {
            op: BranchOp::Beq,
            left: source(fact, register),
            right: RightOperand::Number(0),
            past,
        },
    }
}

// A branch that compares with 0.
fn compared_zero(op: BranchOp, fact: Fact, register: u32, past: u32) -> FlatInstruction
    ensures { result ≡ compared_zero op fact register past }
{
    match op {
        BranchOp::Bne => unless_zero(fact, register, past),
        BranchOp::Beq => if_zero(fact, register, past),
        _ => FlatInstruction::Branch {
            op,
            left: source(fact, register),
            right: RightOperand::Number(0),
            past,
        },
    }
}

// A branch on a value and a right operand that is taken from where it comes.
fn branch_on(
    op: BranchOp,
    fact: Fact,
    register: u32,
    past: u32,
    right: RightOperand,
) -> FlatInstruction
    ensures { result ≡ branch_on op fact register past right }
{
    match right {
        RightOperand::Number(0) => compared_zero(op, fact, register, past),
        _ => FlatInstruction::Branch {
            op,
            left: source(fact, register),
            right,
            past,
        },
    }
}

// A copy of a value.
fn moved(fact: Fact, into: u32, from: u32) -> FlatInstruction
    ensures { result ≡ moved fact into from }
{
    match fact {
        Fact::Same(register) => FlatInstruction::Move {
            into,
            from: register,
        },
        Fact::Word(value) => {
            if is_short(value) {
                FlatInstruction::Constant { into, value }
            } else {
                FlatInstruction::Move { into, from }
            }
        }
        _ => FlatInstruction::Move { into, from },
    }
}

/// An instruction before which these facts are known, with its operands taken from where they come.
#[tactic(auto, unfolding(crate::specs::Propagated::rewritten))]
pub fn rewritten(table: &FactTable, instruction: &FlatInstruction) -> FlatInstruction
    ensures { result ≡ rewritten (facts_of table.now) instruction.now }
{
    match *instruction {
        FlatInstruction::Move { into, from } => moved(table.fact(from), into, from),
        FlatInstruction::Operate {
            op,
            into,
            left,
            right,
        } => FlatInstruction::Operate {
            op,
            into,
            left: source_but(into, table.fact(left), left),
            right: right_of(into, op, table, right),
        },
        FlatInstruction::Operate32 {
            op,
            into,
            left,
            right,
        } => FlatInstruction::Operate32 {
            op,
            into,
            left: source_but(into, table.fact(left), left),
            right: right32_of(into, op, table, right),
        },
        FlatInstruction::Load {
            op,
            into,
            at,
            offset,
        } => FlatInstruction::Load {
            op,
            into,
            at: source(table.fact(at), at),
            offset,
        },
        FlatInstruction::Store {
            op,
            at,
            offset,
            from,
        } => FlatInstruction::Store {
            op,
            at: source(table.fact(at), at),
            offset,
            from: source(table.fact(from), from),
        },
        FlatInstruction::Branch {
            op,
            left,
            right,
            past,
        } => branch_on(op, table.fact(left), left, past, right_source(table, right)),
        FlatInstruction::CallAddress {
            at,
            first,
            count,
            into,
            results,
        } => FlatInstruction::CallAddress {
            at: source(table.fact(at), at),
            first,
            count,
            into,
            results,
        },
        FlatInstruction::Put { from } => FlatInstruction::Put {
            from: source(table.fact(from), from),
        },
        FlatInstruction::Exit { status } => FlatInstruction::Exit {
            status: source(table.fact(status), status),
        },
        _ => *instruction,
    }
}
