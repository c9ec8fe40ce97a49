//! Integer types (C99 6.2.5), their sizes (LP64 of the RISC-V psABI) and conversions (C99 6.3.1).
//! An integer is held as a word, its number modulo 2^64.

ghost use Rattle.std.specs.Prelude.{◌≡◌, ◌≤◌};

use words::sign_extend;

/// An integer type. Plain `char` is unsigned, and an enumeration is `Int`.
#[derive(Clone, Copy, Debug, PartialEq, Eq)]
pub enum IntType {
    /// `char`, 1 byte, with the values of `unsigned char`.
    Char,
    /// `signed char`, 1 byte.
    SignedChar,
    /// `unsigned char`, 1 byte.
    UnsignedChar,
    /// `short`, 2 bytes.
    Short,
    /// `unsigned short`, 2 bytes.
    UnsignedShort,
    /// `int`, 4 bytes.
    Int,
    /// `unsigned int`, 4 bytes.
    UnsignedInt,
    /// `long`, 8 bytes.
    Long,
    /// `unsigned long`, 8 bytes.
    UnsignedLong,
    /// `long long`, 8 bytes.
    LongLong,
    /// `unsigned long long`, 8 bytes.
    UnsignedLongLong,
}

impl IntType {
    ghost use Rattle.obj_memory.specs.Integers.{size_of, is_signed, rank, promoted, unsigned_of, mixed_type};
    ghost use Rattle.obj_memory.specs.Integers.{balanced_type, common_type, fit};

    /// The number of bytes: 1, 2, 4 or 8.
    #[tactic(auto, unfolding(crate::specs::Integers::size_of))]
    pub fn size(self) -> u64
        ensures value { result ≡ size_of self }
        ensures small { result ≤ 8 }
        ensures positive { 1 ≤ result }
    {
        match self {
            IntType::Char | IntType::SignedChar | IntType::UnsignedChar => 1,
            IntType::Short | IntType::UnsignedShort => 2,
            IntType::Int | IntType::UnsignedInt => 4,
            IntType::Long | IntType::UnsignedLong | IntType::LongLong | IntType::UnsignedLongLong =>
                8,
        }
    }

    /// Whether it has negative values.
    #[tactic(auto, unfolding(crate::specs::Integers::is_signed))]
    pub fn is_signed(self) -> bool
        ensures { result ≡ is_signed self }
    {
        match self {
            IntType::SignedChar
            | IntType::Short
            | IntType::Int
            | IntType::Long
            | IntType::LongLong => true,
            IntType::Char
            | IntType::UnsignedChar
            | IntType::UnsignedShort
            | IntType::UnsignedInt
            | IntType::UnsignedLong
            | IntType::UnsignedLongLong => false,
        }
    }

    /// The conversion rank, from 1 of the character types to 5 of `long long` (C99 6.3.1.1).
    #[tactic(auto, unfolding(crate::specs::Integers::rank))]
    pub fn rank(self) -> u32
        ensures { result ≡ rank self }
    {
        match self {
            IntType::Char | IntType::SignedChar | IntType::UnsignedChar => 1,
            IntType::Short | IntType::UnsignedShort => 2,
            IntType::Int | IntType::UnsignedInt => 3,
            IntType::Long | IntType::UnsignedLong => 4,
            IntType::LongLong | IntType::UnsignedLongLong => 5,
        }
    }

    /// The type after the integer promotions (C99 6.3.1.1): `Int` for a lower rank than its own.
    #[tactic(auto, unfolding(crate::specs::Integers::promoted))]
    pub fn promoted(self) -> IntType
        ensures { result ≡ promoted self }
    {
        match self {
            IntType::UnsignedInt
            | IntType::Long
            | IntType::UnsignedLong
            | IntType::LongLong
            | IntType::UnsignedLongLong => self,
            _ => IntType::Int,
        }
    }

    /// The unsigned type that corresponds to it (C99 6.2.5).
    #[tactic(auto, unfolding(crate::specs::Integers::unsigned_of))]
    pub fn unsigned(self) -> IntType
        ensures { result ≡ unsigned_of self }
    {
        match self {
            IntType::Char | IntType::SignedChar | IntType::UnsignedChar => IntType::UnsignedChar,
            IntType::Short | IntType::UnsignedShort => IntType::UnsignedShort,
            IntType::Int | IntType::UnsignedInt => IntType::UnsignedInt,
            IntType::Long | IntType::UnsignedLong => IntType::UnsignedLong,
            IntType::LongLong | IntType::UnsignedLongLong => IntType::UnsignedLongLong,
        }
    }

    /// The type of an operation on operands of this type and another (C99 6.3.1.8, the usual
    /// arithmetic conversions).
    #[tactic(auto, unfolding(crate::specs::Integers::common_type))]
    pub fn common(self, other: IntType) -> IntType
        ensures { result ≡ common_type self other }
    {
        self.promoted().balanced(other.promoted())
    }

    // The same, of promoted types.
    #[tactic(auto, unfolding(crate::specs::Integers::balanced_type))]
    fn balanced(self, other: IntType) -> IntType
        ensures { result ≡ balanced_type self other }
    {
        match (self.is_signed(), other.is_signed()) {
            (true, false) => self.mixed(other),
            (false, true) => other.mixed(self),
            _ if self.rank() < other.rank() => other,
            _ => self,
        }
    }

    // The same, of a signed and an unsigned promoted type.
    #[tactic(auto, unfolding(crate::specs::Integers::mixed_type))]
    fn mixed(self, unsigned: IntType) -> IntType
        ensures { result ≡ mixed_type self unsigned }
    {
        if self.rank() <= unsigned.rank() {
            unsigned
        } else if unsigned.size() < self.size() {
            self
        } else {
            self.unsigned()
        }
    }

    /// A number converted to this type (C99 6.3.1.3). The number comes modulo 2^64, whatever type it has.
    #[tactic(auto, unfolding(crate::specs::Integers::fit))]
    pub fn fit(self, word: u64) -> u64
        ensures { result ≡ fit self word }
    {
        match self {
            IntType::Char | IntType::UnsignedChar => word % 0x100,
            IntType::SignedChar => sign_extend(8, word % 0x100),
            IntType::Short => sign_extend(16, word % 0x1_0000),
            IntType::UnsignedShort => word % 0x1_0000,
            IntType::Int => sign_extend(32, word % 0x1_0000_0000),
            IntType::UnsignedInt => word % 0x1_0000_0000,
            IntType::Long | IntType::UnsignedLong | IntType::LongLong | IntType::UnsignedLongLong =>
                word,
        }
    }
}
