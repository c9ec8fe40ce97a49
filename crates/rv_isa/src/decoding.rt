//! From words to instructions.

ghost use Rattle.std.specs.Prelude.{◌≡◌, ℕ, ◌+◌, ◌-◌, ◌*◌, ◌/◌, ◌%◌, ◌^◌, ◌<◌, ◌≤◌, IfSome};
ghost use Rattle.rv_isa.specs.Table.{word_of, IsOfTable, branch_code, load_code, store_code, imm_code, shift_code};
ghost use Rattle.rv_isa.specs.Table.{shift32_code, reg_code, reg32_code};
ghost use Rattle.rv_isa.specs.Decoding.{decoded, jalr_of, branch_of, load_of, store_of, shift_imm_of, imm_of};
ghost use Rattle.rv_isa.specs.Decoding.{op_imm_of, op_imm32_of, op_of, op32_of, fence_of, system_of, branch_at};
ghost use Rattle.rv_isa.specs.Decoding.{load_at, store_at, imm_at, shift_at, shift32_at, reg_at, reg32_at, s_imm};
ghost use Rattle.rv_isa.specs.Decoding.{b_imm, j_imm};
ghost use Rattle.rv_isa.specs.declared.instruction.Instr.{Instr};

use crate::instruction::{
    BranchOp, ImmOp, Instr, LoadOp, RegOp, RegOp32, ShiftOp, ShiftOp32, StoreOp,
};
use crate::operand::{BranchOffset, Imm12, Imm20, JumpOffset, Reg, ShiftAmount, ShiftAmount32};

/// The instruction that a word is, by the chapter "RV32/64G Instruction Set Listings" of the RISC-V
/// unprivileged ISA manual. `None` where no instruction of RV64IM has this word.
pub fn decode(word: u32) -> Option<Instr>
    ensures found { IfSome result (λ i. IsOfTable i × (word_of i ≡ word)) }
    ensures only { (i : Instr) → IsOfTable i → word_of i ≡ word → result ≡ Some i }
    ensures exact { result ≡ decoded word }
{
    by_opcode(word)
}

#[tactic(auto, unfolding(crate::specs::Table::word_of, crate::specs::Decoding::decoded, crate::specs::Decoding::by_opcode))]
fn by_opcode(word: u32) -> Option<Instr>
    ensures exact { result ≡ decoded word }
    ensures found { IfSome result (λ i. IsOfTable i × (word_of i ≡ word)) }
{
    let rd = rd(word);
    let upper = Imm20::low(word >> 12);
    match word & 0x7f {
        0b0110111 => Some(Instr::Lui { rd, imm: upper }),
        0b0010111 => Some(Instr::Auipc { rd, imm: upper }),
        0b1101111 => Some(Instr::Jal {
            rd,
            imm: j_imm(word),
        }),
        0b1100111 => jalr(word),
        0b1100011 => branch(word),
        0b0000011 => load(word),
        0b0100011 => store(word),
        0b0010011 => op_imm(word),
        0b0011011 => op_imm32(word),
        0b0110011 => op(word),
        0b0111011 => op32(word),
        0b0001111 => fence(word),
        0b1110011 => system(word),
        _ => None,
    }
}

// Field rd, word[11:7].
fn rd(word: u32) -> Reg
    ensures { result ≡ word / 2 ^ 7 % 2 ^ 5 }
{
    Reg::low(word >> 7)
}

// Field rs1, word[19:15].
fn rs1(word: u32) -> Reg
    ensures { result ≡ word / 2 ^ 15 % 2 ^ 5 }
{
    Reg::low(word >> 15)
}

// Field rs2, word[24:20].
fn rs2(word: u32) -> Reg
    ensures { result ≡ word / 2 ^ 20 % 2 ^ 5 }
{
    Reg::low(word >> 20)
}

// Field funct3, word[14:12].
fn funct3(word: u32) -> u32
    ensures value { result ≡ word / 2 ^ 12 % 2 ^ 3 }
{
    word >> 12 & 0x7
}

// The immediate of the I format, word[31:20].
fn i_imm(word: u32) -> Imm12
    ensures value { result ≡ word / 2 ^ 20 % 2 ^ 12 }
{
    Imm12::low(word >> 20)
}

// The immediate of the S format: imm[11:5] is word[31:25], imm[4:0] is word[11:7].
fn s_imm(word: u32) -> Imm12
    ensures value { result ≡ s_imm word }
{
    Imm12::low((word >> 25 << 5) + (word >> 7 & 0x1f))
}

// The immediate of the B format: imm[12|10:5] is word[31:25], imm[4:1|11] is word[11:7].
fn b_imm(word: u32) -> BranchOffset
    ensures value { result ≡ b_imm word }
{
    let upper = (word >> 31 << 12) + ((word >> 7 & 1) << 11);
    let lower = ((word >> 25 & 0x3f) << 5) + ((word >> 8 & 0xf) << 1);
    BranchOffset::new((upper + lower) as u16)
}

// The immediate of the J format: imm[20|10:1|11|19:12] is word[31:12].
fn j_imm(word: u32) -> JumpOffset
    ensures value { result ≡ j_imm word }
{
    let upper = (word >> 31 << 20) + ((word >> 12 & 0xff) << 12);
    let lower = ((word >> 20 & 1) << 11) + ((word >> 21 & 0x3ff) << 1);
    JumpOffset::new(upper + lower)
}

#[tactic(auto, unfolding(crate::specs::Table::word_of, crate::specs::Decoding::jalr_of))]
fn jalr(word: u32) -> Option<Instr>
    requires { word % 2 ^ 7 ≡ 0b1100111 }
    ensures exact { result ≡ jalr_of word }
    ensures found { IfSome result (λ i. IsOfTable i × (word_of i ≡ word)) }
{
    match funct3(word) {
        0b000 => Some(Instr::Jalr {
            rd: rd(word),
            rs1: rs1(word),
            imm: i_imm(word),
        }),
        _ => None,
    }
}

#[tactic(auto, unfolding(crate::specs::Table::word_of, crate::specs::Decoding::branch_of))]
fn branch(word: u32) -> Option<Instr>
    requires { word % 2 ^ 7 ≡ 0b1100011 }
    ensures exact { result ≡ branch_of word }
    ensures found { IfSome result (λ i. IsOfTable i × (word_of i ≡ word)) }
{
    let op = branch_op(funct3(word))?;
    Some(Instr::Branch {
        op,
        rs1: rs1(word),
        rs2: rs2(word),
        imm: b_imm(word),
    })
}

#[tactic(auto, unfolding(crate::specs::Table::word_of, crate::specs::Decoding::load_of))]
fn load(word: u32) -> Option<Instr>
    requires { word % 2 ^ 7 ≡ 0b0000011 }
    ensures exact { result ≡ load_of word }
    ensures found { IfSome result (λ i. IsOfTable i × (word_of i ≡ word)) }
{
    let op = load_op(funct3(word))?;
    Some(Instr::Load {
        op,
        rd: rd(word),
        rs1: rs1(word),
        imm: i_imm(word),
    })
}

#[tactic(auto, unfolding(crate::specs::Table::word_of, crate::specs::Decoding::store_of))]
fn store(word: u32) -> Option<Instr>
    requires { word % 2 ^ 7 ≡ 0b0100011 }
    ensures exact { result ≡ store_of word }
    ensures found { IfSome result (λ i. IsOfTable i × (word_of i ≡ word)) }
{
    let op = store_op(funct3(word))?;
    Some(Instr::Store {
        op,
        rs1: rs1(word),
        rs2: rs2(word),
        imm: s_imm(word),
    })
}

// OP-IMM: funct3 001 and 101 are its shifts.
#[tactic(auto, unfolding(crate::specs::Table::word_of, crate::specs::Decoding::op_imm_of))]
fn op_imm(word: u32) -> Option<Instr>
    requires { word % 2 ^ 7 ≡ 0b0010011 }
    ensures exact { result ≡ op_imm_of word }
    ensures found { IfSome result (λ i. IsOfTable i × (word_of i ≡ word)) }
{
    match funct3(word) {
        0b001 => shift_imm(word),
        0b101 => shift_imm(word),
        _ => imm(word),
    }
}

#[tactic(auto, unfolding(crate::specs::Table::word_of, crate::specs::Decoding::shift_imm_of))]
fn shift_imm(word: u32) -> Option<Instr>
    requires { word % 2 ^ 7 ≡ 0b0010011 }
    ensures exact { result ≡ shift_imm_of word }
    ensures found { IfSome result (λ i. IsOfTable i × (word_of i ≡ word)) }
{
    let op = shift_op(word >> 26, funct3(word))?;
    Some(Instr::ShiftImm {
        op,
        rd: rd(word),
        rs1: rs1(word),
        shamt: ShiftAmount::low(word >> 20),
    })
}

#[tactic(auto, unfolding(crate::specs::Table::word_of, crate::specs::Decoding::imm_of))]
fn imm(word: u32) -> Option<Instr>
    requires { word % 2 ^ 7 ≡ 0b0010011 }
    ensures exact { result ≡ imm_of word }
    ensures found { IfSome result (λ i. IsOfTable i × (word_of i ≡ word)) }
{
    let op = imm_op(funct3(word))?;
    Some(Instr::OpImm {
        op,
        rd: rd(word),
        rs1: rs1(word),
        imm: i_imm(word),
    })
}

// OP-IMM-32: all but funct3 000 are its shifts.
#[tactic(auto, unfolding(crate::specs::Table::word_of, crate::specs::Decoding::op_imm32_of))]
fn op_imm32(word: u32) -> Option<Instr>
    requires { word % 2 ^ 7 ≡ 0b0011011 }
    ensures exact { result ≡ op_imm32_of word }
    ensures found { IfSome result (λ i. IsOfTable i × (word_of i ≡ word)) }
{
    if funct3(word) == 0b000 {
        return Some(Instr::Addiw {
            rd: rd(word),
            rs1: rs1(word),
            imm: i_imm(word),
        });
    }
    let op = shift32_op(word >> 25, funct3(word))?;
    Some(Instr::ShiftImm32 {
        op,
        rd: rd(word),
        rs1: rs1(word),
        shamt: ShiftAmount32::low(word >> 20),
    })
}

#[tactic(auto, unfolding(crate::specs::Table::word_of, crate::specs::Decoding::op_of))]
fn op(word: u32) -> Option<Instr>
    requires { word % 2 ^ 7 ≡ 0b0110011 }
    ensures exact { result ≡ op_of word }
    ensures found { IfSome result (λ i. IsOfTable i × (word_of i ≡ word)) }
{
    let op = reg_op(word >> 25, funct3(word))?;
    Some(Instr::Op {
        op,
        rd: rd(word),
        rs1: rs1(word),
        rs2: rs2(word),
    })
}

#[tactic(auto, unfolding(crate::specs::Table::word_of, crate::specs::Decoding::op32_of))]
fn op32(word: u32) -> Option<Instr>
    requires { word % 2 ^ 7 ≡ 0b0111011 }
    ensures exact { result ≡ op32_of word }
    ensures found { IfSome result (λ i. IsOfTable i × (word_of i ≡ word)) }
{
    let op = reg32_op(word >> 25, funct3(word))?;
    Some(Instr::Op32 {
        op,
        rd: rd(word),
        rs1: rs1(word),
        rs2: rs2(word),
    })
}

#[tactic(auto, unfolding(crate::specs::Table::word_of, crate::specs::Decoding::fence_of))]
fn fence(word: u32) -> Option<Instr>
    requires { word % 2 ^ 7 ≡ 0b0001111 }
    ensures exact { result ≡ fence_of word }
    ensures found { IfSome result (λ i. IsOfTable i × (word_of i ≡ word)) }
{
    match funct3(word) {
        0b000 => Some(Instr::Fence {
            rd: rd(word),
            rs1: rs1(word),
            fields: i_imm(word),
        }),
        _ => None,
    }
}

// SYSTEM: ECALL and EBREAK are single words.
#[tactic(auto, unfolding(crate::specs::Table::word_of, crate::specs::Decoding::system_of))]
fn system(word: u32) -> Option<Instr>
    requires { word % 2 ^ 7 ≡ 0b1110011 }
    ensures exact { result ≡ system_of word }
    ensures found { IfSome result (λ i. IsOfTable i × (word_of i ≡ word)) }
{
    match word {
        0x00000073 => Some(Instr::Ecall),
        0x00100073 => Some(Instr::Ebreak),
        _ => None,
    }
}

#[tactic(auto, unfolding(crate::specs::Table::branch_code, crate::specs::Decoding::branch_at))]
fn branch_op(funct3: u32) -> Option<BranchOp>
    ensures exact { result ≡ branch_at funct3 }
    ensures found { IfSome result (λ op. branch_code op ≡ funct3) }
{
    match funct3 {
        0b000 => Some(BranchOp::Beq),
        0b001 => Some(BranchOp::Bne),
        0b100 => Some(BranchOp::Blt),
        0b101 => Some(BranchOp::Bge),
        0b110 => Some(BranchOp::Bltu),
        0b111 => Some(BranchOp::Bgeu),
        _ => None,
    }
}

#[tactic(auto, unfolding(crate::specs::Table::load_code, crate::specs::Decoding::load_at))]
fn load_op(funct3: u32) -> Option<LoadOp>
    ensures exact { result ≡ load_at funct3 }
    ensures found { IfSome result (λ op. load_code op ≡ funct3) }
{
    match funct3 {
        0b000 => Some(LoadOp::Lb),
        0b001 => Some(LoadOp::Lh),
        0b010 => Some(LoadOp::Lw),
        0b011 => Some(LoadOp::Ld),
        0b100 => Some(LoadOp::Lbu),
        0b101 => Some(LoadOp::Lhu),
        0b110 => Some(LoadOp::Lwu),
        _ => None,
    }
}

#[tactic(auto, unfolding(crate::specs::Table::store_code, crate::specs::Decoding::store_at))]
fn store_op(funct3: u32) -> Option<StoreOp>
    ensures exact { result ≡ store_at funct3 }
    ensures found { IfSome result (λ op. store_code op ≡ funct3) }
{
    match funct3 {
        0b000 => Some(StoreOp::Sb),
        0b001 => Some(StoreOp::Sh),
        0b010 => Some(StoreOp::Sw),
        0b011 => Some(StoreOp::Sd),
        _ => None,
    }
}

#[tactic(auto, unfolding(crate::specs::Table::imm_code, crate::specs::Decoding::imm_at))]
fn imm_op(funct3: u32) -> Option<ImmOp>
    ensures exact { result ≡ imm_at funct3 }
    ensures found { IfSome result (λ op. imm_code op ≡ funct3) }
{
    match funct3 {
        0b000 => Some(ImmOp::Addi),
        0b010 => Some(ImmOp::Slti),
        0b011 => Some(ImmOp::Sltiu),
        0b100 => Some(ImmOp::Xori),
        0b110 => Some(ImmOp::Ori),
        0b111 => Some(ImmOp::Andi),
        _ => None,
    }
}

#[tactic(auto, unfolding(crate::specs::Table::shift_code, crate::specs::Decoding::shift_at))]
fn shift_op(funct6: u32, funct3: u32) -> Option<ShiftOp>
    ensures exact { result ≡ shift_at funct6 funct3 }
    ensures found { IfSome result (λ op. shift_code op ≡ (funct6, funct3)) }
{
    match funct6 {
        0b000000 => match funct3 {
            0b001 => Some(ShiftOp::Slli),
            0b101 => Some(ShiftOp::Srli),
            _ => None,
        },
        0b010000 => match funct3 {
            0b101 => Some(ShiftOp::Srai),
            _ => None,
        },
        _ => None,
    }
}

#[tactic(auto, unfolding(crate::specs::Table::shift32_code, crate::specs::Decoding::shift32_at))]
fn shift32_op(funct7: u32, funct3: u32) -> Option<ShiftOp32>
    ensures exact { result ≡ shift32_at funct7 funct3 }
    ensures found { IfSome result (λ op. shift32_code op ≡ (funct7, funct3)) }
{
    match funct7 {
        0b0000000 => match funct3 {
            0b001 => Some(ShiftOp32::Slliw),
            0b101 => Some(ShiftOp32::Srliw),
            _ => None,
        },
        0b0100000 => match funct3 {
            0b101 => Some(ShiftOp32::Sraiw),
            _ => None,
        },
        _ => None,
    }
}

#[tactic(auto, unfolding(crate::specs::Table::reg_code, crate::specs::Decoding::reg_at))]
fn reg_op(funct7: u32, funct3: u32) -> Option<RegOp>
    ensures exact { result ≡ reg_at funct7 funct3 }
    ensures found { IfSome result (λ op. reg_code op ≡ (funct7, funct3)) }
{
    match funct7 {
        0b0000000 => match funct3 {
            0b000 => Some(RegOp::Add),
            0b001 => Some(RegOp::Sll),
            0b010 => Some(RegOp::Slt),
            0b011 => Some(RegOp::Sltu),
            0b100 => Some(RegOp::Xor),
            0b101 => Some(RegOp::Srl),
            0b110 => Some(RegOp::Or),
            0b111 => Some(RegOp::And),
            _ => None,
        },
        0b0100000 => match funct3 {
            0b000 => Some(RegOp::Sub),
            0b101 => Some(RegOp::Sra),
            _ => None,
        },
        0b0000001 => match funct3 {
            0b000 => Some(RegOp::Mul),
            0b001 => Some(RegOp::Mulh),
            0b010 => Some(RegOp::Mulhsu),
            0b011 => Some(RegOp::Mulhu),
            0b100 => Some(RegOp::Div),
            0b101 => Some(RegOp::Divu),
            0b110 => Some(RegOp::Rem),
            0b111 => Some(RegOp::Remu),
            _ => None,
        },
        _ => None,
    }
}

#[tactic(auto, unfolding(crate::specs::Table::reg32_code, crate::specs::Decoding::reg32_at))]
fn reg32_op(funct7: u32, funct3: u32) -> Option<RegOp32>
    ensures exact { result ≡ reg32_at funct7 funct3 }
    ensures found { IfSome result (λ op. reg32_code op ≡ (funct7, funct3)) }
{
    match funct7 {
        0b0000000 => match funct3 {
            0b000 => Some(RegOp32::Addw),
            0b001 => Some(RegOp32::Sllw),
            0b101 => Some(RegOp32::Srlw),
            _ => None,
        },
        0b0100000 => match funct3 {
            0b000 => Some(RegOp32::Subw),
            0b101 => Some(RegOp32::Sraw),
            _ => None,
        },
        0b0000001 => match funct3 {
            0b000 => Some(RegOp32::Mulw),
            0b100 => Some(RegOp32::Divw),
            0b101 => Some(RegOp32::Divuw),
            0b110 => Some(RegOp32::Remw),
            0b111 => Some(RegOp32::Remuw),
            _ => None,
        },
        _ => None,
    }
}
