//! The instructions of RV64IM, as the RISC-V unprivileged ISA manual names them ("RV32I Base Integer
//! Instruction Set", "RV64I Base Integer Instruction Set", "M Extension for Integer Multiplication and
//! Division"). Operations that share a format and an opcode share a variant of `Instr`.

use crate::operand::{BranchOffset, Imm12, Imm20, JumpOffset, Reg, ShiftAmount, ShiftAmount32};

/// The condition of a branch, on the registers `rs1` and `rs2` in this order.
#[derive(Clone, Copy, PartialEq, Eq)]
pub enum BranchOp {
    /// BEQ: equal.
    Beq,
    /// BNE: not equal.
    Bne,
    /// BLT: less, signed.
    Blt,
    /// BGE: greater or equal, signed.
    Bge,
    /// BLTU: less, unsigned.
    Bltu,
    /// BGEU: greater or equal, unsigned.
    Bgeu,
}

/// The size that a load reads, and how it fills the 64 bits of `rd`.
#[derive(Clone, Copy, PartialEq, Eq)]
pub enum LoadOp {
    /// LB: 1 byte, sign-extended.
    Lb,
    /// LH: 2 bytes, sign-extended.
    Lh,
    /// LW: 4 bytes, sign-extended.
    Lw,
    /// LD: 8 bytes.
    Ld,
    /// LBU: 1 byte, zero-extended.
    Lbu,
    /// LHU: 2 bytes, zero-extended.
    Lhu,
    /// LWU: 4 bytes, zero-extended.
    Lwu,
}

/// The size that a store writes, of the bytes of `rs2`.
#[derive(Clone, Copy, PartialEq, Eq)]
pub enum StoreOp {
    /// SB: the low byte.
    Sb,
    /// SH: the low 2 bytes.
    Sh,
    /// SW: the low 4 bytes.
    Sw,
    /// SD: all 8 bytes.
    Sd,
}

/// An operation on `rs1` and a sign-extended immediate.
#[derive(Clone, Copy, PartialEq, Eq)]
pub enum ImmOp {
    /// ADDI: sum.
    Addi,
    /// SLTI: 1 where less than the immediate, signed, else 0.
    Slti,
    /// SLTIU: 1 where less than the immediate, unsigned, else 0.
    Sltiu,
    /// XORI: exclusive or.
    Xori,
    /// ORI: or.
    Ori,
    /// ANDI: and.
    Andi,
}

/// A shift of 64 bits by an immediate.
#[derive(Clone, Copy, PartialEq, Eq)]
pub enum ShiftOp {
    /// SLLI: to the left.
    Slli,
    /// SRLI: to the right, zeros shifted in.
    Srli,
    /// SRAI: to the right, copies of the sign shifted in.
    Srai,
}

/// A shift of the low 32 bits by an immediate; the 32 bits that result are sign-extended.
#[derive(Clone, Copy, PartialEq, Eq)]
pub enum ShiftOp32 {
    /// SLLIW: to the left.
    Slliw,
    /// SRLIW: to the right, zeros shifted in.
    Srliw,
    /// SRAIW: to the right, copies of the sign shifted in.
    Sraiw,
}

/// An operation on the 64 bits of `rs1` and `rs2` in this order. A shift goes by the low 6 bits of `rs2`.
#[derive(Clone, Copy, PartialEq, Eq)]
pub enum RegOp {
    /// ADD: sum.
    Add,
    /// SUB: difference.
    Sub,
    /// SLL: shift to the left.
    Sll,
    /// SLT: 1 where less, signed, else 0.
    Slt,
    /// SLTU: 1 where less, unsigned, else 0.
    Sltu,
    /// XOR: exclusive or.
    Xor,
    /// SRL: shift to the right, zeros shifted in.
    Srl,
    /// SRA: shift to the right, copies of the sign shifted in.
    Sra,
    /// OR: or.
    Or,
    /// AND: and.
    And,
    /// MUL: lower half of the product.
    Mul,
    /// MULH: upper half of the product, signed by signed.
    Mulh,
    /// MULHSU: upper half of the product, signed by unsigned.
    Mulhsu,
    /// MULHU: upper half of the product, unsigned by unsigned.
    Mulhu,
    /// DIV: quotient, signed.
    Div,
    /// DIVU: quotient, unsigned.
    Divu,
    /// REM: remainder, signed.
    Rem,
    /// REMU: remainder, unsigned.
    Remu,
}

/// An operation on the low 32 bits of `rs1` and `rs2` in this order; the 32 bits that result are
/// sign-extended. A shift goes by the low 5 bits of `rs2`.
#[derive(Clone, Copy, PartialEq, Eq)]
pub enum RegOp32 {
    /// ADDW: sum.
    Addw,
    /// SUBW: difference.
    Subw,
    /// SLLW: shift to the left.
    Sllw,
    /// SRLW: shift to the right, zeros shifted in.
    Srlw,
    /// SRAW: shift to the right, copies of the sign shifted in.
    Sraw,
    /// MULW: lower half of the product.
    Mulw,
    /// DIVW: quotient, signed.
    Divw,
    /// DIVUW: quotient, unsigned.
    Divuw,
    /// REMW: remainder, signed.
    Remw,
    /// REMUW: remainder, unsigned.
    Remuw,
}

/// One instruction of RV64IM. Fields have the manual's names: `rd` is the destination register,
/// `rs1` and `rs2` are the sources, `imm` is the immediate and `shamt` the shift amount.
#[derive(Clone, Copy, PartialEq, Eq)]
pub enum Instr {
    /// LUI: load the upper immediate.
    Lui {
        rd: Reg,
        imm: Imm20,
    },
    /// AUIPC: add the upper immediate to the program counter.
    Auipc {
        rd: Reg,
        imm: Imm20,
    },
    /// JAL: jump by `imm` bytes from here, and link: `rd` gets the address behind this instruction.
    Jal {
        rd: Reg,
        imm: JumpOffset,
    },
    /// JALR: jump to `rs1` plus `imm`, bit 0 cleared, and link.
    Jalr {
        rd: Reg,
        rs1: Reg,
        imm: Imm12,
    },
    /// BRANCH: go `imm` bytes from here where the condition holds.
    Branch {
        op: BranchOp,
        rs1: Reg,
        rs2: Reg,
        imm: BranchOffset,
    },
    /// LOAD: read memory at `rs1` plus `imm`.
    Load {
        op: LoadOp,
        rd: Reg,
        rs1: Reg,
        imm: Imm12,
    },
    /// STORE: write `rs2` to memory at `rs1` plus `imm`.
    Store {
        op: StoreOp,
        rs1: Reg,
        rs2: Reg,
        imm: Imm12,
    },
    /// OP-IMM without the shifts.
    OpImm {
        op: ImmOp,
        rd: Reg,
        rs1: Reg,
        imm: Imm12,
    },
    /// OP-IMM: the shifts.
    ShiftImm {
        op: ShiftOp,
        rd: Reg,
        rs1: Reg,
        shamt: ShiftAmount,
    },
    /// ADDIW, of OP-IMM-32: the low 32 bits of the sum, sign-extended.
    Addiw {
        rd: Reg,
        rs1: Reg,
        imm: Imm12,
    },
    /// OP-IMM-32: the shifts.
    ShiftImm32 {
        op: ShiftOp32,
        rd: Reg,
        rs1: Reg,
        shamt: ShiftAmount32,
    },
    /// OP: 64 bits.
    Op {
        op: RegOp,
        rd: Reg,
        rs1: Reg,
        rs2: Reg,
    },
    /// OP-32: the low 32 bits.
    Op32 {
        op: RegOp32,
        rd: Reg,
        rs1: Reg,
        rs2: Reg,
    },
    /// FENCE, of MISC-MEM. `fields` are fm, the predecessor set and the successor set, from the
    /// upper bits down; with `rd` and `rs1` they are kept as they stand in the word.
    Fence {
        rd: Reg,
        rs1: Reg,
        fields: Imm12,
    },
    /// ECALL: ask the environment.
    Ecall,
    /// EBREAK: break into a debugger.
    Ebreak,
}
