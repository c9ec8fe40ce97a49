//! What instructions compute. Registers are `u64`; signed numbers are in two's complement.
ghost use Rattle.std.specs.Prelude.{◌≡◌, ℕ, ◌+◌, ◌-◌, ◌*◌, ◌/◌, ◌%◌, ◌^◌, ◌<◌, ◌≤◌};
ghost use Rattle.rv_isa.specs.Word.{sext};
ghost use Rattle.words.specs.TwosComplement.{sign_extended};
ghost use Rattle.words.specs.Operations.{shifted_right_signed, signed_quotient, signed_remainder};
ghost use Rattle.rv_isa.specs.Results.{high_half, quotient_or_ones, remainder_or_dividend, branch_taken, imm_result};
ghost use Rattle.rv_isa.specs.Results.{shift_result, shift32_result, reg_result, reg32_result, low_word};

use rv_isa::{BranchOp, ImmOp, RegOp, RegOp32, ShiftOp, ShiftOp32};
use words::{is_less_signed, shift_right_signed, sign_extend, signed_quotient, signed_remainder};

/// Whether a branch on `a` and `b`, the values of `rs1` and `rs2`, is taken (RISC-V unprivileged ISA
/// manual, "Conditional Branches").
#[tactic(auto, unfolding(rv_isa::specs::Results::branch_taken))]
pub fn is_taken(op: BranchOp, a: u64, b: u64) -> bool
    ensures { result ≡ branch_taken op a b }
{
    match op {
        BranchOp::Beq => a == b,
        BranchOp::Bne => a != b,
        BranchOp::Blt => is_less_signed(a, b),
        BranchOp::Bge => !is_less_signed(a, b),
        BranchOp::Bltu => a < b,
        BranchOp::Bgeu => a >= b,
    }
}

/// What an operation gives of `a`, the value of `rs1`, and `b`, the sign-extended immediate (RV32I,
/// "Integer Register-Immediate Instructions").
#[tactic(auto, unfolding(rv_isa::specs::Results::imm_result))]
pub fn with_immediate(op: ImmOp, a: u64, b: u64) -> u64
    ensures { result ≡ imm_result op a b }
{
    match op {
        ImmOp::Addi => a.wrapping_add(b),
        ImmOp::Slti => u64::from(is_less_signed(a, b)),
        ImmOp::Sltiu => u64::from(a < b),
        ImmOp::Xori => a ^ b,
        ImmOp::Ori => a | b,
        ImmOp::Andi => a & b,
    }
}

/// `a` shifted by so many bits, at most 63 (RV64I, "Integer Register-Immediate Instructions").
#[tactic(auto, unfolding(rv_isa::specs::Results::shift_result))]
pub fn shifted(op: ShiftOp, a: u64, bits: u32) -> u64
    requires { bits < 64 }
    ensures { result ≡ shift_result op a bits }
{
    match op {
        ShiftOp::Slli => a << bits,
        ShiftOp::Srli => a >> bits,
        ShiftOp::Srai => shift_right_signed(a, bits),
    }
}

/// `a` shifted by so many bits, at most 31, and sign-extended.
#[tactic(auto, unfolding(rv_isa::specs::Results::shift32_result))]
pub fn shifted32(op: ShiftOp32, a: u32, bits: u32) -> u64
    requires { bits < 32 }
    ensures { result ≡ shift32_result op a bits }
{
    match op {
        ShiftOp32::Slliw => extend32(a << bits),
        ShiftOp32::Srliw => extend32(a >> bits),
        ShiftOp32::Sraiw => shift_right_signed32(a, bits),
    }
}

/// What an operation gives of `a` and `b`, the values of `rs1` and `rs2` (RV32I and RV64I, "Integer
/// Register-Register Operations"; "M Extension").
#[tactic(auto, unfolding(rv_isa::specs::Results::reg_result))]
pub fn of_registers(op: RegOp, a: u64, b: u64) -> u64
    ensures { result ≡ reg_result op a b }
{
    match op {
        RegOp::Add => a.wrapping_add(b),
        RegOp::Sub => a.wrapping_sub(b),
        RegOp::Sll => a << (b % 64),
        RegOp::Slt => u64::from(is_less_signed(a, b)),
        RegOp::Sltu => u64::from(a < b),
        RegOp::Xor => a ^ b,
        RegOp::Srl => a >> (b % 64),
        RegOp::Sra => shift_right_signed(a, (b % 64) as u32),
        RegOp::Or => a | b,
        RegOp::And => a & b,
        RegOp::Mul => a.wrapping_mul(b),
        RegOp::Mulh => upper_product(extend128(a), extend128(b)),
        RegOp::Mulhsu => upper_product(extend128(a), u128::from(b)),
        RegOp::Mulhu => upper_product(u128::from(a), u128::from(b)),
        RegOp::Div => divide(a, b),
        RegOp::Divu => divide_unsigned(a, b),
        RegOp::Rem => remainder(a, b),
        RegOp::Remu => remainder_unsigned(a, b),
    }
}

/// What an operation gives of `a` and `b`, the low 32 bits of `rs1` and `rs2`: 32 bits, sign-extended
/// (RV64I, "Integer Register-Register Operations"; "M Extension").
#[tactic(auto, unfolding(rv_isa::specs::Results::reg32_result))]
pub fn of_registers32(op: RegOp32, a: u32, b: u32) -> u64
    ensures { result ≡ reg32_result op a b }
{
    match op {
        RegOp32::Addw => extend32(a.wrapping_add(b)),
        RegOp32::Subw => extend32(a.wrapping_sub(b)),
        RegOp32::Sllw => extend32(a << (b % 32)),
        RegOp32::Srlw => extend32(a >> (b % 32)),
        RegOp32::Sraw => shift_right_signed32(a, b % 32),
        RegOp32::Mulw => extend32(a.wrapping_mul(b)),
        RegOp32::Divw => extend32(divide32(a, b)),
        RegOp32::Divuw => extend32(divide_unsigned32(a, b)),
        RegOp32::Remw => remainder32(a, b),
        RegOp32::Remuw => extend32(remainder_unsigned32(a, b)),
    }
}

/// 32 bits, sign-extended.
pub fn extend32(bits: u32) -> u64
    ensures { result ≡ sext 32 bits }
{
    sign_extend(32, u64::from(bits))
}

/// The low 32 bits.
pub fn low32(value: u64) -> u32
    ensures { result ≡ low_word value }
{
    (value & 0xffff_ffff) as u32
}

fn extend128(value: u64) -> u128
    ensures { result ≡ sign_extended 64 128 value }
{
    if value.cast_signed() < 0 {
        u128::from(value) + (u128::MAX - u128::from(u64::MAX))
    } else {
        u128::from(value)
    }
}

// Bits 127 to 64 of the product.
fn upper_product(a: u128, b: u128) -> u64
    ensures { result ≡ high_half (a * b) }
{
    (a.wrapping_mul(b) >> 64) as u64
}

fn divide(a: u64, b: u64) -> u64
    ensures { result ≡ quotient_or_ones 64 b (signed_quotient 64 a b) }
{
    if b == 0 {
        u64::MAX
    } else {
        signed_quotient(a, b)
    }
}

fn remainder(a: u64, b: u64) -> u64
    ensures { result ≡ remainder_or_dividend a b (signed_remainder 64 a b) }
{
    if b == 0 { a } else { signed_remainder(a, b) }
}

fn divide_unsigned(a: u64, b: u64) -> u64
    ensures { result ≡ quotient_or_ones 64 b (a / b) }
{
    if b == 0 { u64::MAX } else { a / b }
}

fn remainder_unsigned(a: u64, b: u64) -> u64
    ensures { result ≡ remainder_or_dividend a b (a % b) }
{
    if b == 0 { a } else { a % b }
}

// The same of 32 bits: the quotient of the operands extended has its low bits, their remainder is extended.
#[tactic(auto, using(crate::proofs::Words::low_quotient32))]
fn divide32(a: u32, b: u32) -> u32
    ensures { result ≡ quotient_or_ones 32 b (signed_quotient 32 a b) }
{
    if b == 0 {
        u32::MAX
    } else {
        low32(signed_quotient(extend32(a), extend32(b)))
    }
}

#[tactic(auto, using(crate::proofs::Words::extended_remainder32))]
fn remainder32(a: u32, b: u32) -> u64
    ensures { result ≡ sext 32 (remainder_or_dividend a b (signed_remainder 32 a b)) }
{
    if b == 0 {
        extend32(a)
    } else {
        signed_remainder(extend32(a), extend32(b))
    }
}

fn divide_unsigned32(a: u32, b: u32) -> u32
    ensures { result ≡ quotient_or_ones 32 b (a / b) }
{
    if b == 0 { u32::MAX } else { a / b }
}

fn remainder_unsigned32(a: u32, b: u32) -> u32
    ensures { result ≡ remainder_or_dividend a b (a % b) }
{
    if b == 0 { a } else { a % b }
}

// 32 bits shifted to the right, copies of the sign bit shifted in, and extended.
#[tactic(auto, using(crate::proofs::Words::extended_shift32))]
fn shift_right_signed32(a: u32, bits: u32) -> u64
    requires { bits < 32 }
    ensures { result ≡ sext 32 (shifted_right_signed 32 a bits) }
{
    shift_right_signed(extend32(a), bits)
}
