//! The operands of instructions. In a clause each of them is the number in its field: a register its number, an
//! immediate its bits in two's complement, with the zeros that its format leaves out.
ghost use Rattle.std.specs.Prelude.{◌≡◌, [], ◌∷◌, ℕ, ◌+◌, ◌-◌, ◌*◌, ◌/◌, ◌%◌, ◌^◌};
ghost use Rattle.std.specs.Prelude.{◌<◌, ◌≤◌};
ghost use Rattle.rv_isa.specs.Registers.{zero_register, ra, sp, a0, a1, a2, a7};
ghost use Rattle.rv_isa.specs.Word.{sext};

use std::marker::Model;
use words::sign_extend;

/// One of the integer registers x0 to x31 (RISC-V unprivileged ISA manual, "Programmers' Model for
/// Base Integer ISA").
#[derive(Clone, Copy, PartialEq, Eq)]
pub struct Reg {
    number: u8,
}

impl Model for Reg {
    ghost Value = { ℕ };

    ghost view = { λ x. x.number };

    ghost invariant = { λ x. x.number < 2 ^ 5 };

    ghost inverse = { λ n. record { number = n } };
}

impl Reg {
    /// `zero`, x0: zero, whatever is written to it (RISC-V ELF psABI, "Integer Register Convention").
    pub const ZERO: Reg = Reg { number: 0 };

    /// `ra`, x1: the return address.
    pub const RA: Reg = Reg { number: 1 };

    /// `sp`, x2: the stack pointer.
    pub const SP: Reg = Reg { number: 2 };

    /// `a0`, x10: the first argument and the result.
    pub const A0: Reg = Reg { number: 10 };

    /// `a1`, x11: the second argument.
    pub const A1: Reg = Reg { number: 11 };

    /// `a2`, x12: the third argument.
    pub const A2: Reg = Reg { number: 12 };

    /// `a7`, x17: the number of an environment call.
    pub const A7: Reg = Reg { number: 17 };

    /// The registers that have names here, in the order of their numbers.
    pub fn named() -> [Reg; 7]
        ensures { result ≡ zero_register ∷ ra ∷ sp ∷ a0 ∷ a1 ∷ a2 ∷ a7 ∷ [] }
    {
        [
            Self::ZERO,
            Self::RA,
            Self::SP,
            Self::A0,
            Self::A1,
            Self::A2,
            Self::A7,
        ]
    }

    /// The register x`number`, for a number below 32.
    pub fn new(number: u8) -> Self
        requires { number < 2 ^ 5 }
        ensures { result ≡ number }
    {
        Self { number }
    }

    /// The low 5 bits of a word; its other bits are passed over.
    pub fn low(word: u32) -> Self
        ensures { result ≡ word % 2 ^ 5 }
    {
        Self {
            number: (word & 0x1f) as u8,
        }
    }

    /// The register's number, 0 to 31.
    pub fn number(self) -> u8
        ensures value { result ≡ self }
        ensures small { result < 2 ^ 5 }
    {
        self.number
    }
}

/// The 12 bits of an immediate of the I or S format (RISC-V unprivileged ISA manual, "Immediate
/// Encoding Variants"): -2048 to 2047 in two's complement.
#[derive(Clone, Copy, PartialEq, Eq)]
pub struct Imm12 {
    bits: u16,
}

impl Model for Imm12 {
    ghost Value = { ℕ };

    ghost view = { λ x. x.bits };

    ghost invariant = { λ x. x.bits < 2 ^ 12 };

    ghost inverse = { λ n. record { bits = n } };
}

impl Imm12 {
    /// The immediate with these bits, below 4096.
    pub fn new(bits: u16) -> Self
        requires { bits < 2 ^ 12 }
        ensures { result ≡ bits }
    {
        Self { bits }
    }

    /// The low 12 bits of a word; its other bits are passed over.
    pub fn low(word: u32) -> Self
        ensures { result ≡ word % 2 ^ 12 }
    {
        Self {
            bits: (word & 0xfff) as u16,
        }
    }

    /// The bits, below 4096.
    pub fn bits(self) -> u16
        ensures value { result ≡ self }
        ensures small { result < 2 ^ 12 }
    {
        self.bits
    }

    /// The immediate as the 64 bits that an instruction works on: bit 11 is copied upwards.
    pub fn sign_extended(self) -> u64
        ensures { result ≡ sext 12 self }
    {
        sign_extend(12, u64::from(self.bits))
    }
}

/// The upper 20 bits of an immediate of the U format, whose low 12 bits are zero (RISC-V unprivileged
/// ISA manual, "Immediate Encoding Variants").
#[derive(Clone, Copy, PartialEq, Eq)]
pub struct Imm20 {
    bits: u32,
}

impl Model for Imm20 {
    ghost Value = { ℕ };

    ghost view = { λ x. x.bits };

    ghost invariant = { λ x. x.bits < 2 ^ 20 };

    ghost inverse = { λ n. record { bits = n } };
}

impl Imm20 {
    /// The immediate whose upper 20 bits these are, below 2^20.
    pub fn new(bits: u32) -> Self
        requires { bits < 2 ^ 20 }
        ensures { result ≡ bits }
    {
        Self { bits }
    }

    /// The low 20 bits of a word; its other bits are passed over.
    pub fn low(word: u32) -> Self
        ensures { result ≡ word % 2 ^ 20 }
    {
        Self {
            bits: word & 0xfffff,
        }
    }

    /// The upper 20 bits alone, below 2^20.
    pub fn bits(self) -> u32
        ensures value { result ≡ self }
        ensures small { result < 2 ^ 20 }
    {
        self.bits
    }

    /// The immediate as the 64 bits that an instruction works on: the 20 bits over 12 zeros, bit 31
    /// copied upwards.
    pub fn sign_extended(self) -> u64
        ensures { result ≡ sext 32 (self * 2 ^ 12) }
    {
        sign_extend(32, u64::from(self.bits) << 12)
    }
}

/// How far a branch goes, in bytes: an even number of 13 bits, -4096 to 4094 in two's complement
/// (B format; RISC-V unprivileged ISA manual, "Conditional Branches").
#[derive(Clone, Copy, PartialEq, Eq)]
pub struct BranchOffset {
    bits: u16,
}

impl Model for BranchOffset {
    ghost Value = { ℕ };

    ghost view = { λ x. x.bits };

    ghost invariant = { λ x. (x.bits < 2 ^ 13) × (x.bits % 2 ≡ 0) };

    ghost inverse = { λ n. record { bits = n } };
}

impl BranchOffset {
    /// The offset with these bits: an even number below 8192.
    pub fn new(bits: u16) -> Self
        requires fits { bits < 2 ^ 13 }
        requires even { bits % 2 ≡ 0 }
        ensures { result ≡ bits }
    {
        Self { bits }
    }

    /// The bits, bit 0 among them: an even number below 8192.
    pub fn bits(self) -> u16
        ensures value { result ≡ self }
        ensures small { result < 2 ^ 13 }
        ensures even { result % 2 ≡ 0 }
    {
        self.bits
    }

    /// The offset as 64 bits: bit 12 is copied upwards.
    pub fn sign_extended(self) -> u64
        ensures { result ≡ sext 13 self }
    {
        sign_extend(13, u64::from(self.bits))
    }
}

/// How far JAL goes, in bytes: an even number of 21 bits, -1048576 to 1048574 in two's complement
/// (J format; RISC-V unprivileged ISA manual, "Unconditional Jumps").
#[derive(Clone, Copy, PartialEq, Eq)]
pub struct JumpOffset {
    bits: u32,
}

impl Model for JumpOffset {
    ghost Value = { ℕ };

    ghost view = { λ x. x.bits };

    ghost invariant = { λ x. (x.bits < 2 ^ 21) × (x.bits % 2 ≡ 0) };

    ghost inverse = { λ n. record { bits = n } };
}

impl JumpOffset {
    /// The offset with these bits: an even number below 2^21.
    pub fn new(bits: u32) -> Self
        requires fits { bits < 2 ^ 21 }
        requires even { bits % 2 ≡ 0 }
        ensures { result ≡ bits }
    {
        Self { bits }
    }

    /// The bits, bit 0 among them: an even number below 2^21.
    pub fn bits(self) -> u32
        ensures value { result ≡ self }
        ensures small { result < 2 ^ 21 }
        ensures even { result % 2 ≡ 0 }
    {
        self.bits
    }

    /// The offset as 64 bits: bit 20 is copied upwards.
    pub fn sign_extended(self) -> u64
        ensures { result ≡ sext 21 self }
    {
        sign_extend(21, u64::from(self.bits))
    }
}

/// By how many bits a register of 64 bits is shifted: 0 to 63 (field shamt; RISC-V unprivileged ISA
/// manual, "RV64I", "Integer Register-Immediate Instructions").
#[derive(Clone, Copy, PartialEq, Eq)]
pub struct ShiftAmount {
    bits: u8,
}

impl Model for ShiftAmount {
    ghost Value = { ℕ };

    ghost view = { λ x. x.bits };

    ghost invariant = { λ x. x.bits < 2 ^ 6 };

    ghost inverse = { λ n. record { bits = n } };
}

impl ShiftAmount {
    /// A shift by this many bits, below 64.
    pub fn new(bits: u8) -> Self
        requires { bits < 2 ^ 6 }
        ensures { result ≡ bits }
    {
        Self { bits }
    }

    /// The low 6 bits of a word; its other bits are passed over.
    pub fn low(word: u32) -> Self
        ensures { result ≡ word % 2 ^ 6 }
    {
        Self {
            bits: (word & 0x3f) as u8,
        }
    }

    /// How many bits, 0 to 63.
    pub fn bits(self) -> u8
        ensures value { result ≡ self }
        ensures small { result < 2 ^ 6 }
    {
        self.bits
    }
}

/// By how many bits a word of 32 bits is shifted: 0 to 31 (field shamt of the instructions that end
/// in W).
#[derive(Clone, Copy, PartialEq, Eq)]
pub struct ShiftAmount32 {
    bits: u8,
}

impl Model for ShiftAmount32 {
    ghost Value = { ℕ };

    ghost view = { λ x. x.bits };

    ghost invariant = { λ x. x.bits < 2 ^ 5 };

    ghost inverse = { λ n. record { bits = n } };
}

impl ShiftAmount32 {
    /// A shift by this many bits, below 32.
    pub fn new(bits: u8) -> Self
        requires { bits < 2 ^ 5 }
        ensures { result ≡ bits }
    {
        Self { bits }
    }

    /// The low 5 bits of a word; its other bits are passed over.
    pub fn low(word: u32) -> Self
        ensures { result ≡ word % 2 ^ 5 }
    {
        Self {
            bits: (word & 0x1f) as u8,
        }
    }

    /// How many bits, 0 to 31.
    pub fn bits(self) -> u8
        ensures value { result ≡ self }
        ensures small { result < 2 ^ 5 }
    {
        self.bits
    }
}
