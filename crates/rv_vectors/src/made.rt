// Instructions that are made of operations, registers and numbers.

use rv_isa::{
    BranchOffset, BranchOp, Imm12, ImmOp, Instr, LoadOp, Reg, RegOp, RegOp32, ShiftAmount, ShiftOp,
    StoreOp,
};

/// The instruction of a row: addi a7, x0, 93; mul a0, a0, a1; ld a0, 8(sp); sd a0, 8(sp); beq x0, x0, -4;
/// srai a0, a0, 3; divw a0, a1, a2; or ecall.
pub fn instruction(name: &str) -> Option<Instr> {
    match name {
        "addi" => Some(Instr::OpImm {
            op: ImmOp::Addi,
            rd: Reg::A7,
            rs1: Reg::ZERO,
            imm: Imm12::new(93),
        }),
        "mul" => Some(Instr::Op {
            op: RegOp::Mul,
            rd: Reg::A0,
            rs1: Reg::A0,
            rs2: Reg::A1,
        }),
        "ld" => Some(Instr::Load {
            op: LoadOp::Ld,
            rd: Reg::A0,
            rs1: Reg::SP,
            imm: Imm12::new(8),
        }),
        "sd" => Some(Instr::Store {
            op: StoreOp::Sd,
            rs1: Reg::SP,
            rs2: Reg::A0,
            imm: Imm12::new(8),
        }),
        _ => other(name),
    }
}

fn other(name: &str) -> Option<Instr> {
    match name {
        "beq" => Some(Instr::Branch {
            op: BranchOp::Beq,
            rs1: Reg::ZERO,
            rs2: Reg::ZERO,
            imm: BranchOffset::new(0x1ffc),
        }),
        "srai" => Some(Instr::ShiftImm {
            op: ShiftOp::Srai,
            rd: Reg::A0,
            rs1: Reg::A0,
            shamt: ShiftAmount::new(3),
        }),
        "divw" => Some(Instr::Op32 {
            op: RegOp32::Divw,
            rd: Reg::A0,
            rs1: Reg::A1,
            rs2: Reg::A2,
        }),
        "ecall" => Some(Instr::Ecall),
        _ => None,
    }
}
