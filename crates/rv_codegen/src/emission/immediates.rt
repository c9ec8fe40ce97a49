//! Instructions that have the right operand of an operator in themselves.

ghost use Rattle.std.specs.Prelude.{◌≡◌};
ghost use Rattle.words.specs.TwosComplement.{negated};
ghost use Rattle.flat_code.specs.declared.instruction.RightOperand.{RightOperand};
ghost use Rattle.machine_laws.specs.Blocks.Immediates.{is_immediate, with_immediate, with_shift, with_immediate32};
ghost use Rattle.machine_laws.specs.Blocks.Immediates.{with_shift32};
ghost use Rattle.machine_laws.specs.Blocks.Immediates.{immediate, immediate32, immediate_of, immediate32_of};

use flat_code::RightOperand;
use rv_isa::{
    Imm12, ImmOp, Instr, Reg, RegOp, RegOp32, ShiftAmount, ShiftAmount32, ShiftOp, ShiftOp32,
};

// Whether the 12 bits of an immediate give a number, sign-extended.
fn is_immediate(number: u64) -> bool
    ensures { result ≡ is_immediate number }
{
    number < 0x800 || number >= 0xffff_ffff_ffff_f800
}

// The word of the number with the other sign.
fn negated(number: u64) -> u64
    ensures { result ≡ negated 64 number }
{
    number.wrapping_neg()
}

// An instruction of OP-IMM, where the number fits.
fn with_immediate(op: ImmOp, rd: Reg, rs1: Reg, number: u64) -> Option<Instr>
    ensures { result ≡ with_immediate op rd rs1 number }
{
    if is_immediate(number) {
        let imm = Imm12::new((number % 0x1000) as u16);
        Some(Instr::OpImm { op, rd, rs1, imm })
    } else {
        None
    }
}

// A shift of OP-IMM, where it is one by less than 64.
fn with_shift(op: ShiftOp, rd: Reg, rs1: Reg, number: u64) -> Option<Instr>
    ensures { result ≡ with_shift op rd rs1 number }
{
    if number < 64 {
        let shamt = ShiftAmount::new((number % 64) as u8);
        Some(Instr::ShiftImm { op, rd, rs1, shamt })
    } else {
        None
    }
}

// ADDIW, where the number fits.
fn with_immediate32(rd: Reg, rs1: Reg, number: u64) -> Option<Instr>
    ensures { result ≡ with_immediate32 rd rs1 number }
{
    if is_immediate(number) {
        let imm = Imm12::new((number % 0x1000) as u16);
        Some(Instr::Addiw { rd, rs1, imm })
    } else {
        None
    }
}

// A shift of OP-IMM-32, where it is one by less than 32.
fn with_shift32(op: ShiftOp32, rd: Reg, rs1: Reg, number: u64) -> Option<Instr>
    ensures { result ≡ with_shift32 op rd rs1 number }
{
    if number < 32 {
        let shamt = ShiftAmount32::new((number % 32) as u8);
        Some(Instr::ShiftImm32 { op, rd, rs1, shamt })
    } else {
        None
    }
}

// The instruction for an operator of 64 bits whose right operand is a number, where there is one that has it in itself.
#[tactic(auto, unfolding(machine_laws::specs::Blocks::Immediates::immediate))]
fn immediate(op: RegOp, rd: Reg, rs1: Reg, number: u64) -> Option<Instr>
    ensures { result ≡ immediate op rd rs1 number }
{
    match op {
        RegOp::Add => with_immediate(ImmOp::Addi, rd, rs1, number),
        RegOp::Sub => with_immediate(ImmOp::Addi, rd, rs1, negated(number)),
        RegOp::Slt => with_immediate(ImmOp::Slti, rd, rs1, number),
        RegOp::Sltu => with_immediate(ImmOp::Sltiu, rd, rs1, number),
        RegOp::Xor => with_immediate(ImmOp::Xori, rd, rs1, number),
        RegOp::Or => with_immediate(ImmOp::Ori, rd, rs1, number),
        RegOp::And => with_immediate(ImmOp::Andi, rd, rs1, number),
        RegOp::Sll => with_shift(ShiftOp::Slli, rd, rs1, number),
        RegOp::Srl => with_shift(ShiftOp::Srli, rd, rs1, number),
        RegOp::Sra => with_shift(ShiftOp::Srai, rd, rs1, number),
        _ => None,
    }
}

// The same of an operator of the low 32 bits.
#[tactic(auto, unfolding(machine_laws::specs::Blocks::Immediates::immediate32))]
fn immediate32(op: RegOp32, rd: Reg, rs1: Reg, number: u64) -> Option<Instr>
    ensures { result ≡ immediate32 op rd rs1 number }
{
    match op {
        RegOp32::Addw => with_immediate32(rd, rs1, number),
        RegOp32::Subw => with_immediate32(rd, rs1, negated(number)),
        RegOp32::Sllw => with_shift32(ShiftOp32::Slliw, rd, rs1, number),
        RegOp32::Srlw => with_shift32(ShiftOp32::Srliw, rd, rs1, number),
        RegOp32::Sraw => with_shift32(ShiftOp32::Sraiw, rd, rs1, number),
        _ => None,
    }
}

/// The instruction for an operator of 64 bits that has its right operand in itself, where there is one.
pub(crate) fn immediate_of(op: RegOp, rd: Reg, rs1: Reg, right: RightOperand) -> Option<Instr>
    ensures { result ≡ immediate_of op rd rs1 right }
{
    match right {
        RightOperand::Register(_) => None,
        RightOperand::Number(number) => immediate(op, rd, rs1, number),
    }
}

/// The same of an operator of the low 32 bits.
pub(crate) fn immediate32_of(op: RegOp32, rd: Reg, rs1: Reg, right: RightOperand) -> Option<Instr>
    ensures { result ≡ immediate32_of op rd rs1 right }
{
    match right {
        RightOperand::Register(_) => None,
        RightOperand::Number(number) => immediate32(op, rd, rs1, number),
    }
}
