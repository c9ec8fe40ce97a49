//! Where the values of operands come from.

ghost use Rattle.std.specs.Prelude.{◌≡◌};
ghost use Rattle.flat_propagation.specs.Known.{source, source_but, register_or_zero, right_source_but};
ghost use Rattle.flat_propagation.specs.Propagated.{is_short, takes, takes32, register_or_number, right_source};
ghost use Rattle.flat_propagation.specs.Propagated.{right_but};
ghost use Rattle.flat_propagation.specs.Tables.{facts_of};

use crate::fact::Fact;
use crate::table::FactTable;
use flat_code::RightOperand;
use rv_isa::{RegOp, RegOp32};

// The register that a value is a copy of, or itself.
pub(crate) fn source(fact: Fact, register: u32) -> u32
    ensures { result ≡ source fact register }
{
    match fact {
        Fact::Same(from) => from,
        _ => register,
    }
}

// The same, but for a register that is about to be made anew.
pub(crate) fn source_but(into: u32, fact: Fact, register: u32) -> u32
    ensures { result ≡ source_but into fact register }
{
    let from = source(fact, register);
    if from == into { register } else { from }
}

fn register_or_zero(fact: Fact, register: u32) -> RightOperand
    ensures { result ≡ register_or_zero fact register }
{
    match fact {
        Fact::Word(0) => RightOperand::Number(0),
        _ => RightOperand::Register(register),
    }
}

// A right operand as a branch can have it, but for a register that is about to be made anew.
pub(crate) fn right_source_but(into: u32, table: &FactTable, right: RightOperand) -> RightOperand
    ensures { result ≡ right_source_but into (facts_of table.now) right }
{
    match right {
        RightOperand::Register(register) => {
            let fact = table.fact(register);
            register_or_zero(fact, source_but(into, fact, register))
        }
        RightOperand::Number(number) => RightOperand::Number(number),
    }
}

// The right operand of a branch.
pub(crate) fn right_source(table: &FactTable, right: RightOperand) -> RightOperand
    ensures { result ≡ right_source (facts_of table.now) right }
{
    match right {
        RightOperand::Register(register) => {
            let fact = table.fact(register);
            register_or_zero(fact, source(fact, register))
        }
        RightOperand::Number(number) => RightOperand::Number(number),
    }
}

// Whether an instruction can have a number in itself, and its negative too.
pub(crate) fn is_short(number: u64) -> bool
    ensures { result ≡ is_short number }
{
    number < 2048 || number > 0xffff_ffff_ffff_f800
}

fn takes(op: RegOp, number: u64) -> bool
    ensures { result ≡ takes op number }
{
    match op {
        RegOp::Add => is_short(number),
        RegOp::Sub => is_short(number),
        RegOp::Slt => is_short(number),
        RegOp::Sltu => is_short(number),
        RegOp::Xor => is_short(number),
        RegOp::Or => is_short(number),
        RegOp::And => is_short(number),
        RegOp::Sll => number < 64,
        RegOp::Srl => number < 64,
        RegOp::Sra => number < 64,
        _ => number == 0,
    }
}

fn takes32(op: RegOp32, number: u64) -> bool
    ensures { result ≡ takes32 op number }
{
    match op {
        RegOp32::Addw => is_short(number),
        RegOp32::Subw => is_short(number),
        RegOp32::Sllw => number < 32,
        RegOp32::Srlw => number < 32,
        RegOp32::Sraw => number < 32,
        _ => number == 0,
    }
}

// The right operand of an operator of 64 bits, which makes a register anew.
pub(crate) fn right_of(into: u32, op: RegOp, table: &FactTable, right: RightOperand) -> RightOperand
    ensures { result ≡ right_but into (takes op) (facts_of table.now) right }
{
    let RightOperand::Register(register) = right else {
        return right;
    };
    let fact = table.fact(register);
    if let Fact::Word(number) = fact {
        if takes(op, number) {
            return RightOperand::Number(number);
        }
    }
    RightOperand::Register(source_but(into, fact, register))
}

// The right operand of one of 32 bits.
pub(crate) fn right32_of(
    into: u32,
    op: RegOp32,
    table: &FactTable,
    right: RightOperand,
) -> RightOperand
    ensures { result ≡ right_but into (takes32 op) (facts_of table.now) right }
{
    let RightOperand::Register(register) = right else {
        return right;
    };
    let fact = table.fact(register);
    if let Fact::Word(number) = fact {
        if takes32(op, number) {
            return RightOperand::Number(number);
        }
    }
    RightOperand::Register(source_but(into, fact, register))
}
