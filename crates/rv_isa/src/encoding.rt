//! From instructions to words.

ghost use Rattle.std.specs.Prelude.{◌≡◌, ℕ, ◌+◌, ◌-◌, ◌*◌, ◌/◌, ◌%◌, ◌^◌, ◌<◌, ◌≤◌};
ghost use Rattle.rv_isa.specs.Table.{word_of, IsOfTable, r_word, i_word, s_word, b_word, u_word, j_word, branch_code};
ghost use Rattle.rv_isa.specs.Table.{load_code, store_code, imm_code, shift_code, shift32_code, reg_code, reg32_code};

use crate::instruction::{
    BranchOp, ImmOp, Instr, LoadOp, RegOp, RegOp32, ShiftOp, ShiftOp32, StoreOp,
};
use crate::operand::{BranchOffset, Imm12, Imm20, JumpOffset, Reg, ShiftAmount, ShiftAmount32};

/// The word of an instruction, as chapter "RV32/64G Instruction Set Listings" of the RISC-V
/// unprivileged ISA manual lists it. Each instruction has one.
#[tactic(auto, unfolding(crate::specs::Table::word_of))]
pub fn encode(instr: Instr) -> u32
    ensures word { result ≡ word_of instr }
    ensures of_table { IsOfTable instr }
{
    match instr {
        Instr::Lui { rd, imm } => u_format(0b0110111, rd, imm),
        Instr::Auipc { rd, imm } => u_format(0b0010111, rd, imm),
        Instr::Jal { rd, imm } => j_format(0b1101111, rd, imm),
        Instr::Jalr { rd, rs1, imm } => i_format(0b1100111, 0b000, rd, rs1, imm),
        Instr::Branch { op, rs1, rs2, imm } => b_format(
            0b1100011,
            branch_funct3(op),
            rs1,
            rs2,
            imm,
        ),
        Instr::Load { op, rd, rs1, imm } => i_format(0b0000011, load_funct3(op), rd, rs1, imm),
        Instr::Store { op, rs1, rs2, imm } => s_format(0b0100011, store_funct3(op), rs1, rs2, imm),
        Instr::OpImm { op, rd, rs1, imm } => i_format(0b0010011, imm_funct3(op), rd, rs1, imm),
        Instr::ShiftImm { op, rd, rs1, shamt } => shift_word(op, rd, rs1, shamt),
        Instr::Addiw { rd, rs1, imm } => i_format(0b0011011, 0b000, rd, rs1, imm),
        Instr::ShiftImm32 { op, rd, rs1, shamt } => shift32_word(op, rd, rs1, shamt),
        Instr::Op { op, rd, rs1, rs2 } => r_format(0b0110011, reg_functs(op), rd, rs1, rs2),
        Instr::Op32 { op, rd, rs1, rs2 } => r_format(0b0111011, reg32_functs(op), rd, rs1, rs2),
        Instr::Fence { rd, rs1, fields } => i_format(0b0001111, 0b000, rd, rs1, fields),
        Instr::Ecall => 0x00000073,
        Instr::Ebreak => 0x00100073,
    }
}

// The shift amount is the low 6 bits of the immediate, whose upper 6 bits tell the shifts apart.
#[tactic(auto, unfolding(crate::specs::Table::word_of))]
fn shift_word(op: ShiftOp, rd: Reg, rs1: Reg, shamt: ShiftAmount) -> u32
    ensures word { result ≡ word_of (Instr.ShiftImm op rd rs1 shamt) }
    ensures of_table { IsOfTable (Instr.ShiftImm op rd rs1 shamt) }
{
    let (upper, funct3) = shift_functs(op);
    let imm = Imm12::new(u16::from(shamt.bits()) + (upper << 6) as u16);
    i_format(0b0010011, funct3, rd, rs1, imm)
}

// The shift amount stands where other formats have rs2.
#[tactic(auto, unfolding(crate::specs::Table::word_of))]
fn shift32_word(op: ShiftOp32, rd: Reg, rs1: Reg, shamt: ShiftAmount32) -> u32
    ensures word { result ≡ word_of (Instr.ShiftImm32 op rd rs1 shamt) }
    ensures of_table { IsOfTable (Instr.ShiftImm32 op rd rs1 shamt) }
{
    let amount = Reg::new(shamt.bits());
    r_format(0b0011011, shift32_functs(op), rd, rs1, amount)
}

// Bits 19 to 0 of the formats that have rd, funct3 and rs1. Here and below the fields are joined from
// the low bits up.
fn low_fields(opcode: u32, funct3: u32, rd: Reg, rs1: Reg) -> u32
    requires opcode { opcode < 2 ^ 7 }
    requires funct3 { funct3 < 2 ^ 3 }
    ensures value { result ≡ rs1 * 2 ^ 15 + funct3 * 2 ^ 12 + rd * 2 ^ 7 + opcode }
    ensures rd_fits { rd < 2 ^ 5 }
    ensures rs1_fits { rs1 < 2 ^ 5 }
    ensures fits { result < 2 ^ 20 }
{
    opcode | u32::from(rd.number()) << 7 | funct3 << 12 | u32::from(rs1.number()) << 15
}

// `functs` are funct7 and funct3.
fn r_format(opcode: u32, functs: (u32, u32), rd: Reg, rs1: Reg, rs2: Reg) -> u32
    requires opcode { opcode < 2 ^ 7 }
    requires funct7 { functs.0 < 2 ^ 7 }
    requires funct3 { functs.1 < 2 ^ 3 }
    ensures value { result ≡ r_word opcode functs.0 functs.1 rd rs1 rs2 }
    ensures rd_fits { rd < 2 ^ 5 }
    ensures rs1_fits { rs1 < 2 ^ 5 }
    ensures rs2_fits { rs2 < 2 ^ 5 }
{
    let (funct7, funct3) = functs;
    low_fields(opcode, funct3, rd, rs1) | u32::from(rs2.number()) << 20 | funct7 << 25
}

fn i_format(opcode: u32, funct3: u32, rd: Reg, rs1: Reg, imm: Imm12) -> u32
    requires opcode { opcode < 2 ^ 7 }
    requires funct3 { funct3 < 2 ^ 3 }
    ensures value { result ≡ i_word opcode funct3 rd rs1 imm }
    ensures rd_fits { rd < 2 ^ 5 }
    ensures rs1_fits { rs1 < 2 ^ 5 }
    ensures imm_fits { imm < 2 ^ 12 }
{
    low_fields(opcode, funct3, rd, rs1) | u32::from(imm.bits()) << 20
}

// imm[4:0] stands where other formats have rd, imm[11:5] where they have funct7.
fn s_format(opcode: u32, funct3: u32, rs1: Reg, rs2: Reg, imm: Imm12) -> u32
    requires opcode { opcode < 2 ^ 7 }
    requires funct3 { funct3 < 2 ^ 3 }
    ensures value { result ≡ s_word opcode funct3 rs1 rs2 imm }
    ensures rs1_fits { rs1 < 2 ^ 5 }
    ensures rs2_fits { rs2 < 2 ^ 5 }
    ensures imm_fits { imm < 2 ^ 12 }
{
    let bits = u32::from(imm.bits());
    r_format(opcode, (bits >> 5, funct3), Reg::low(bits), rs1, rs2)
}

// imm[4:1|11] stands where other formats have rd, imm[12|10:5] where they have funct7.
fn b_format(opcode: u32, funct3: u32, rs1: Reg, rs2: Reg, imm: BranchOffset) -> u32
    requires opcode { opcode < 2 ^ 7 }
    requires funct3 { funct3 < 2 ^ 3 }
    ensures value { result ≡ b_word opcode funct3 rs1 rs2 imm }
    ensures rs1_fits { rs1 < 2 ^ 5 }
    ensures rs2_fits { rs2 < 2 ^ 5 }
    ensures imm_fits { imm < 2 ^ 13 }
    ensures imm_even { imm % 2 ≡ 0 }
{
    let bits = u32::from(imm.bits());
    let upper = bits >> 5 & 0x3f | bits >> 12 << 6;
    let lower = bits >> 11 & 1 | (bits >> 1 & 0xf) << 1;
    r_format(opcode, (upper, funct3), Reg::low(lower), rs1, rs2)
}

fn u_format(opcode: u32, rd: Reg, imm: Imm20) -> u32
    requires opcode { opcode < 2 ^ 7 }
    ensures value { result ≡ u_word opcode rd imm }
    ensures rd_fits { rd < 2 ^ 5 }
    ensures imm_fits { imm < 2 ^ 20 }
{
    opcode | u32::from(rd.number()) << 7 | imm.bits() << 12
}

// The upper 20 bits are imm[20|10:1|11|19:12].
fn j_format(opcode: u32, rd: Reg, imm: JumpOffset) -> u32
    requires opcode { opcode < 2 ^ 7 }
    ensures value { result ≡ j_word opcode rd imm }
    ensures rd_fits { rd < 2 ^ 5 }
    ensures imm_fits { imm < 2 ^ 21 }
    ensures imm_even { imm % 2 ≡ 0 }
{
    let bits = imm.bits();
    let upper = bits >> 11 & 1 | (bits >> 1 & 0x3ff) << 1 | bits >> 20 << 11;
    opcode | u32::from(rd.number()) << 7 | (bits >> 12 & 0xff) << 12 | upper << 20
}

#[tactic(auto, unfolding(crate::specs::Table::branch_code))]
fn branch_funct3(op: BranchOp) -> u32
    ensures value { result ≡ branch_code op }
    ensures fits { result < 2 ^ 3 }
{
    match op {
        BranchOp::Beq => 0b000,
        BranchOp::Bne => 0b001,
        BranchOp::Blt => 0b100,
        BranchOp::Bge => 0b101,
        BranchOp::Bltu => 0b110,
        BranchOp::Bgeu => 0b111,
    }
}

#[tactic(auto, unfolding(crate::specs::Table::load_code))]
fn load_funct3(op: LoadOp) -> u32
    ensures value { result ≡ load_code op }
    ensures fits { result < 2 ^ 3 }
{
    match op {
        LoadOp::Lb => 0b000,
        LoadOp::Lh => 0b001,
        LoadOp::Lw => 0b010,
        LoadOp::Ld => 0b011,
        LoadOp::Lbu => 0b100,
        LoadOp::Lhu => 0b101,
        LoadOp::Lwu => 0b110,
    }
}

#[tactic(auto, unfolding(crate::specs::Table::store_code))]
fn store_funct3(op: StoreOp) -> u32
    ensures value { result ≡ store_code op }
    ensures fits { result < 2 ^ 3 }
{
    match op {
        StoreOp::Sb => 0b000,
        StoreOp::Sh => 0b001,
        StoreOp::Sw => 0b010,
        StoreOp::Sd => 0b011,
    }
}

#[tactic(auto, unfolding(crate::specs::Table::imm_code))]
fn imm_funct3(op: ImmOp) -> u32
    ensures value { result ≡ imm_code op }
    ensures fits { result < 2 ^ 3 }
{
    match op {
        ImmOp::Addi => 0b000,
        ImmOp::Slti => 0b010,
        ImmOp::Sltiu => 0b011,
        ImmOp::Xori => 0b100,
        ImmOp::Ori => 0b110,
        ImmOp::Andi => 0b111,
    }
}

#[tactic(auto, unfolding(crate::specs::Table::shift_code))]
fn shift_functs(op: ShiftOp) -> (u32, u32)
    ensures value { result ≡ shift_code op }
    ensures upper_fits { result.0 < 2 ^ 6 }
    ensures funct3_fits { result.1 < 2 ^ 3 }
{
    match op {
        ShiftOp::Slli => (0b000000, 0b001),
        ShiftOp::Srli => (0b000000, 0b101),
        ShiftOp::Srai => (0b010000, 0b101),
    }
}

#[tactic(auto, unfolding(crate::specs::Table::shift32_code))]
fn shift32_functs(op: ShiftOp32) -> (u32, u32)
    ensures value { result ≡ shift32_code op }
    ensures upper_fits { result.0 < 2 ^ 7 }
    ensures funct3_fits { result.1 < 2 ^ 3 }
{
    match op {
        ShiftOp32::Slliw => (0b0000000, 0b001),
        ShiftOp32::Srliw => (0b0000000, 0b101),
        ShiftOp32::Sraiw => (0b0100000, 0b101),
    }
}

#[tactic(auto, unfolding(crate::specs::Table::reg_code))]
fn reg_functs(op: RegOp) -> (u32, u32)
    ensures value { result ≡ reg_code op }
    ensures upper_fits { result.0 < 2 ^ 7 }
    ensures funct3_fits { result.1 < 2 ^ 3 }
{
    match op {
        RegOp::Add => (0b0000000, 0b000),
        RegOp::Sub => (0b0100000, 0b000),
        RegOp::Sll => (0b0000000, 0b001),
        RegOp::Slt => (0b0000000, 0b010),
        RegOp::Sltu => (0b0000000, 0b011),
        RegOp::Xor => (0b0000000, 0b100),
        RegOp::Srl => (0b0000000, 0b101),
        RegOp::Sra => (0b0100000, 0b101),
        RegOp::Or => (0b0000000, 0b110),
        RegOp::And => (0b0000000, 0b111),
        RegOp::Mul => (0b0000001, 0b000),
        RegOp::Mulh => (0b0000001, 0b001),
        RegOp::Mulhsu => (0b0000001, 0b010),
        RegOp::Mulhu => (0b0000001, 0b011),
        RegOp::Div => (0b0000001, 0b100),
        RegOp::Divu => (0b0000001, 0b101),
        RegOp::Rem => (0b0000001, 0b110),
        RegOp::Remu => (0b0000001, 0b111),
    }
}

#[tactic(auto, unfolding(crate::specs::Table::reg32_code))]
fn reg32_functs(op: RegOp32) -> (u32, u32)
    ensures value { result ≡ reg32_code op }
    ensures upper_fits { result.0 < 2 ^ 7 }
    ensures funct3_fits { result.1 < 2 ^ 3 }
{
    match op {
        RegOp32::Addw => (0b0000000, 0b000),
        RegOp32::Subw => (0b0100000, 0b000),
        RegOp32::Sllw => (0b0000000, 0b001),
        RegOp32::Srlw => (0b0000000, 0b101),
        RegOp32::Sraw => (0b0100000, 0b101),
        RegOp32::Mulw => (0b0000001, 0b000),
        RegOp32::Divw => (0b0000001, 0b100),
        RegOp32::Divuw => (0b0000001, 0b101),
        RegOp32::Remw => (0b0000001, 0b110),
        RegOp32::Remuw => (0b0000001, 0b111),
    }
}
