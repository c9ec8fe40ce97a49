//! The operands of an instruction, in the order in which a line has them.

ghost use Rattle.std.specs.Prelude.{◌≡◌, ◌≤◌, ◌<◌, ◌^◌};
ghost use Rattle.rv_isa.specs.declared.instruction.Instr.{Instr};
ghost use Rattle.rv_listing.specs.Names.{shape_of};
ghost use Rattle.rv_listing.specs.Operands.{IsShape, FitShape, operands, mnemonic_of, operands_of, instruction_of};

use crate::mnemonic::Mnemonic;
use rv_isa::{BranchOffset, Imm12, Imm20, Instr, JumpOffset, Reg, ShiftAmount, ShiftAmount32};

/// What an operand is written as, and which numbers it may have.
#[derive(Clone, Copy, PartialEq, Eq)]
pub enum Field {
    /// `x0` to `x31`.
    Register,
    /// A number from 0 on, below this one.
    Unsigned(u64),
    /// A number of two's complement, of which so many are below zero as not: this many.
    Signed(u64),
    /// The same where it is even.
    Offset(u64),
}

/// The operands that stand behind a name.
#[derive(Clone, Copy, PartialEq, Eq)]
pub enum Shape {
    /// None.
    Empty,
    /// A register and this: `lui x1,74565`.
    Pair(Field),
    /// Two registers and this: `add x1,x2,x3`.
    Triple(Field),
    /// A register, and a number of 12 bits before a register in parentheses: `ld x1,8(x2)`.
    Based,
}

/// The numbers in the fields of an instruction, of two's complement where they may be below zero. Those that a shape
/// has not are 0.
#[derive(Clone, Copy, PartialEq, Eq)]
pub struct Operands {
    /// A register.
    pub first: u64,
    /// The second operand.
    pub second: u64,
    /// The third operand, or the base.
    pub third: u64,
}

impl Mnemonic {
    /// The operands behind the name.
    #[tactic(auto, unfolding(crate::specs::Names::shape_of))]
    pub fn shape(self) -> Shape
        ensures value { result ≡ shape_of self }
        ensures shape { IsShape result }
    {
        match self {
            Mnemonic::Lui | Mnemonic::Auipc => Shape::Pair(Field::Unsigned(1 << 20)),
            Mnemonic::Jal => Shape::Pair(Field::Offset(1 << 20)),
            Mnemonic::Jalr | Mnemonic::Load(_) | Mnemonic::Store(_) => Shape::Based,
            Mnemonic::Branch(_) => Shape::Triple(Field::Offset(1 << 12)),
            Mnemonic::OpImm(_) | Mnemonic::Addiw => Shape::Triple(Field::Signed(1 << 11)),
            Mnemonic::ShiftImm(_) => Shape::Triple(Field::Unsigned(1 << 6)),
            Mnemonic::ShiftImm32(_) => Shape::Triple(Field::Unsigned(1 << 5)),
            Mnemonic::Op(_) | Mnemonic::Op32(_) => Shape::Triple(Field::Register),
            Mnemonic::Fence => Shape::Triple(Field::Unsigned(1 << 12)),
            Mnemonic::Ecall | Mnemonic::Ebreak => Shape::Empty,
        }
    }

    /// The name of an instruction.
    #[tactic(auto, unfolding(crate::specs::Operands::mnemonic_of))]
    pub fn of(instruction: &Instr) -> Mnemonic
        ensures { result ≡ mnemonic_of instruction.now }
    {
        match instruction {
            Instr::Lui { .. } => Mnemonic::Lui,
            Instr::Auipc { .. } => Mnemonic::Auipc,
            Instr::Jal { .. } => Mnemonic::Jal,
            Instr::Jalr { .. } => Mnemonic::Jalr,
            Instr::Branch { op, .. } => Mnemonic::Branch(*op),
            Instr::Load { op, .. } => Mnemonic::Load(*op),
            Instr::Store { op, .. } => Mnemonic::Store(*op),
            Instr::OpImm { op, .. } => Mnemonic::OpImm(*op),
            Instr::ShiftImm { op, .. } => Mnemonic::ShiftImm(*op),
            Instr::Addiw { .. } => Mnemonic::Addiw,
            Instr::ShiftImm32 { op, .. } => Mnemonic::ShiftImm32(*op),
            Instr::Op { op, .. } => Mnemonic::Op(*op),
            Instr::Op32 { op, .. } => Mnemonic::Op32(*op),
            Instr::Fence { .. } => Mnemonic::Fence,
            Instr::Ecall => Mnemonic::Ecall,
            Instr::Ebreak => Mnemonic::Ebreak,
        }
    }

    /// The instruction of this name with these operands.
    #[tactic(auto, unfolding(crate::specs::Operands::instruction_of, crate::specs::Names::shape_of))]
    pub fn instruction(self, operands: Operands) -> Instr
        requires { FitShape (shape_of self) operands }
        ensures { result ≡ instruction_of self operands }
    {
        let Operands {
            first,
            second,
            third,
        } = operands;
        match self {
            Mnemonic::Lui => Instr::Lui {
                rd: register(first),
                imm: upper(second),
            },
            Mnemonic::Auipc => Instr::Auipc {
                rd: register(first),
                imm: upper(second),
            },
            Mnemonic::Jal => Instr::Jal {
                rd: register(first),
                imm: JumpOffset::new(second as u32),
            },
            Mnemonic::Jalr => Instr::Jalr {
                rd: register(first),
                rs1: register(third),
                imm: immediate(second),
            },
            Mnemonic::Branch(op) => Instr::Branch {
                op,
                rs1: register(first),
                rs2: register(second),
                imm: BranchOffset::new(third as u16),
            },
            Mnemonic::Load(op) => Instr::Load {
                op,
                rd: register(first),
                rs1: register(third),
                imm: immediate(second),
            },
            Mnemonic::Store(op) => Instr::Store {
                op,
                rs1: register(third),
                rs2: register(first),
                imm: immediate(second),
            },
            Mnemonic::OpImm(op) => Instr::OpImm {
                op,
                rd: register(first),
                rs1: register(second),
                imm: immediate(third),
            },
            Mnemonic::ShiftImm(op) => Instr::ShiftImm {
                op,
                rd: register(first),
                rs1: register(second),
                shamt: ShiftAmount::new(third as u8),
            },
            Mnemonic::Addiw => Instr::Addiw {
                rd: register(first),
                rs1: register(second),
                imm: immediate(third),
            },
            Mnemonic::ShiftImm32(op) => Instr::ShiftImm32 {
                op,
                rd: register(first),
                rs1: register(second),
                shamt: ShiftAmount32::new(third as u8),
            },
            Mnemonic::Op(op) => Instr::Op {
                op,
                rd: register(first),
                rs1: register(second),
                rs2: register(third),
            },
            Mnemonic::Op32(op) => Instr::Op32 {
                op,
                rd: register(first),
                rs1: register(second),
                rs2: register(third),
            },
            Mnemonic::Fence => Instr::Fence {
                rd: register(first),
                rs1: register(second),
                fields: immediate(third),
            },
            Mnemonic::Ecall => Instr::Ecall,
            Mnemonic::Ebreak => Instr::Ebreak,
        }
    }
}

impl Operands {
    /// No operands.
    pub const NONE: Operands = Operands {
        first: 0,
        second: 0,
        third: 0,
    };

    /// The operands of an instruction.
    #[tactic(auto, unfolding(crate::specs::Operands::operands_of))]
    pub fn of(instruction: &Instr) -> Operands
        ensures { result ≡ operands_of instruction.now }
    {
        match instruction {
            Instr::Lui { rd, imm } => pair(*rd, u64::from(imm.bits())),
            Instr::Auipc { rd, imm } => pair(*rd, u64::from(imm.bits())),
            Instr::Jal { rd, imm } => pair(*rd, u64::from(imm.bits())),
            Instr::Jalr { rd, rs1, imm } => based(*rd, *imm, *rs1),
            Instr::Branch { rs1, rs2, imm, .. } => triple(*rs1, *rs2, u64::from(imm.bits())),
            Instr::Load { rd, rs1, imm, .. } => based(*rd, *imm, *rs1),
            Instr::Store { rs1, rs2, imm, .. } => based(*rs2, *imm, *rs1),
            Instr::OpImm { rd, rs1, imm, .. } => triple(*rd, *rs1, u64::from(imm.bits())),
            Instr::ShiftImm { rd, rs1, shamt, .. } => triple(*rd, *rs1, u64::from(shamt.bits())),
            Instr::Addiw { rd, rs1, imm } => triple(*rd, *rs1, u64::from(imm.bits())),
            Instr::ShiftImm32 { rd, rs1, shamt, .. } => triple(*rd, *rs1, u64::from(shamt.bits())),
            Instr::Op { rd, rs1, rs2, .. } => triple(*rd, *rs1, u64::from(rs2.number())),
            Instr::Op32 { rd, rs1, rs2, .. } => triple(*rd, *rs1, u64::from(rs2.number())),
            Instr::Fence { rd, rs1, fields } => triple(*rd, *rs1, u64::from(fields.bits())),
            Instr::Ecall | Instr::Ebreak => Operands::NONE,
        }
    }
}

fn pair(first: Reg, second: u64) -> Operands
    ensures { result ≡ operands first second 0 }
{
    Operands {
        first: u64::from(first.number()),
        second,
        third: 0,
    }
}

fn triple(first: Reg, second: Reg, third: u64) -> Operands
    ensures { result ≡ operands first second third }
{
    Operands {
        first: u64::from(first.number()),
        second: u64::from(second.number()),
        third,
    }
}

fn based(first: Reg, second: Imm12, base: Reg) -> Operands
    ensures { result ≡ operands first second base }
{
    Operands {
        first: u64::from(first.number()),
        second: u64::from(second.bits()),
        third: u64::from(base.number()),
    }
}

fn register(number: u64) -> Reg
    requires { number < 2 ^ 5 }
    ensures { result ≡ number }
{
    Reg::new(number as u8)
}

fn upper(bits: u64) -> Imm20
    requires { bits < 2 ^ 20 }
    ensures { result ≡ bits }
{
    Imm20::new(bits as u32)
}

fn immediate(bits: u64) -> Imm12
    requires { bits < 2 ^ 12 }
    ensures { result ≡ bits }
{
    Imm12::new(bits as u16)
}
