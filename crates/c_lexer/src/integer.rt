//! Integer constants (C99 6.4.4.1).

ghost use Rattle.std.specs.Prelude.{◌≡◌, ◌≤◌, ◌^◌, ℕ, MatchOption, length};
ghost use Rattle.std.specs.List.{prefix_len};
ghost use Rattle.c_lexer.specs.Constants as spec;

use crate::character::{digit_value, is_digit, is_hexadecimal_digit, is_octal_digit};

/// The type of an integer constant. `Int` and `UnsignedInt` have 32 bits, the others 64.
#[derive(Clone, Copy, Debug, PartialEq, Eq)]
pub enum IntegerType {
    Int,
    UnsignedInt,
    Long,
    UnsignedLong,
    LongLong,
    UnsignedLongLong,
}

/// What an integer constant stands for.
#[derive(Clone, Copy, Debug, PartialEq, Eq)]
pub struct IntegerConstant {
    /// Its type.
    pub integer_type: IntegerType,
    /// Its value, which the type holds.
    pub value: u64,
}

/// How the digits of an integer constant are read.
#[derive(Clone, Copy, Debug, PartialEq, Eq)]
pub enum Radix {
    /// Digits `0` to `7`, the first of them `0`.
    Octal,
    /// Digits `0` to `9`.
    Decimal,
    /// Digits `0` to `9`, `a` to `f` and `A` to `F`, behind `0x` or `0X`.
    Hexadecimal,
}

/// The suffix of an integer constant. The letters of each stand for both cases, and for either order of `u` and the
/// length.
#[derive(Clone, Copy, Debug, PartialEq, Eq)]
pub enum Suffix {
    /// no suffix
    Absent,
    /// `u`
    U,
    /// `l`
    L,
    /// `ul`
    Ul,
    /// `ll`
    Ll,
    /// `ull`
    Ull,
}

impl IntegerType {
    #[tactic(auto, unfolding(crate::specs::Constants::greatest_of))]
    fn greatest(self) -> u64
        ensures { result ≡ spec.greatest_of self }
    {
        match self {
            IntegerType::Int => i32::MAX as u64,
            IntegerType::UnsignedInt => u32::MAX as u64,
            IntegerType::Long | IntegerType::LongLong => i64::MAX as u64,
            IntegerType::UnsignedLong | IntegerType::UnsignedLongLong => u64::MAX,
        }
    }
}

impl Radix {
    fn base(self) -> u64
        ensures value { result ≡ spec.base_of self }
        ensures some { 1 ≤ result }
    {
        match self {
            Radix::Octal => 8,
            Radix::Decimal => 10,
            Radix::Hexadecimal => 16,
        }
    }

    fn has_digit(self, b: u8) -> bool
        ensures { result ≡ spec.is_digit_of self b }
    {
        match self {
            Radix::Octal => is_octal_digit(b),
            Radix::Decimal => is_digit(b),
            Radix::Hexadecimal => is_hexadecimal_digit(b),
        }
    }

    // How many digits there are at the front.
    fn digits_length(self, text: &[u8]) -> usize
        ensures value { result ≡ prefix_len (spec.is_digit_of self) text.now }
        ensures within { result ≤ length text.now }
    {
        text.iter().take_while(|b| self.has_digit(**b)).count()
    }

    // The types that a constant may have, in order (paragraph 5).
    #[tactic(auto, unfolding(crate::specs::Constants::types_of))]
    fn types(self, suffix: Suffix) -> &'static [IntegerType]
        ensures { result.now ≡ spec.types_of self suffix }
    {
        match self {
            Radix::Decimal => decimal_types(suffix),
            Radix::Octal | Radix::Hexadecimal => other_types(suffix),
        }
    }
}

fn decimal_types(suffix: Suffix) -> &'static [IntegerType]
    ensures { result.now ≡ spec.decimal_types suffix }
{
    match suffix {
        Suffix::Absent => &[IntegerType::Int, IntegerType::Long, IntegerType::LongLong],
        Suffix::U => &[
            IntegerType::UnsignedInt,
            IntegerType::UnsignedLong,
            IntegerType::UnsignedLongLong,
        ],
        Suffix::L => &[IntegerType::Long, IntegerType::LongLong],
        Suffix::Ul => &[IntegerType::UnsignedLong, IntegerType::UnsignedLongLong],
        Suffix::Ll => &[IntegerType::LongLong],
        Suffix::Ull => &[IntegerType::UnsignedLongLong],
    }
}

// Of an octal or a hexadecimal constant.
fn other_types(suffix: Suffix) -> &'static [IntegerType]
    ensures { result.now ≡ spec.other_types suffix }
{
    match suffix {
        Suffix::Absent => &[
            IntegerType::Int,
            IntegerType::UnsignedInt,
            IntegerType::Long,
            IntegerType::UnsignedLong,
            IntegerType::LongLong,
            IntegerType::UnsignedLongLong,
        ],
        Suffix::U => &[
            IntegerType::UnsignedInt,
            IntegerType::UnsignedLong,
            IntegerType::UnsignedLongLong,
        ],
        Suffix::L => &[
            IntegerType::Long,
            IntegerType::UnsignedLong,
            IntegerType::LongLong,
            IntegerType::UnsignedLongLong,
        ],
        Suffix::Ul => &[IntegerType::UnsignedLong, IntegerType::UnsignedLongLong],
        Suffix::Ll => &[IntegerType::LongLong, IntegerType::UnsignedLongLong],
        Suffix::Ull => &[IntegerType::UnsignedLongLong],
    }
}

fn is_u(b: u8) -> bool
    ensures { result ≡ spec.is_u b }
{
    b == b'u' || b == b'U'
}

fn is_l(b: u8) -> bool
    ensures { result ≡ spec.is_l b }
{
    b == b'l' || b == b'L'
}

fn is_ll(a: u8, b: u8) -> bool
    ensures { result ≡ spec.is_ll a b }
{
    is_l(a) && a == b
}

#[tactic(auto, unfolding(crate::specs::Constants::suffix_of))]
fn suffix_of(text: &[u8]) -> Option<Suffix>
    ensures { result ≡ spec.suffix_of text.now }
{
    match text {
        [] => Some(Suffix::Absent),
        [a] if is_u(*a) => Some(Suffix::U),
        [a] if is_l(*a) => Some(Suffix::L),
        [a, b] if is_u(*a) && is_l(*b) => Some(Suffix::Ul),
        [a, b] if is_l(*a) && is_u(*b) => Some(Suffix::Ul),
        [a, b] if is_ll(*a, *b) => Some(Suffix::Ll),
        [a, b, c] if is_u(*a) && is_ll(*b, *c) => Some(Suffix::Ull),
        [a, b, c] if is_ll(*a, *b) && is_u(*c) => Some(Suffix::Ull),
        _ => None,
    }
}

// None where 64 bits do not hold it.
#[tactic(auto, using(crate::proofs::Digits::number_grows, crate::proofs::Digits::number_at))]
fn number(base: u64, digits: &[u8]) -> Option<u64>
    requires { 1 ≤ base }
    ensures { MatchOption result (2 ^ 64 ≤ spec.number_from base 0 digits.now)
        (λ v. v ≡ spec.number_from base 0 digits.now) }
{
    let mut number: u64 = 0;
    for b in digits {
        number = number
            .checked_mul(base)?
            .checked_add(u64::from(digit_value(*b)))?;
    }
    Some(number)
}

#[tactic(auto, unfolding(crate::specs::Constants::typed))]
fn typed(types: &[IntegerType], value: u64) -> Option<IntegerConstant>
    ensures { result ≡ spec.typed types.now value }
{
    let integer_type = *types.iter().find(|t| value <= t.greatest())?;
    Some(IntegerConstant {
        integer_type,
        value,
    })
}

#[tactic(auto, using(crate::proofs::Digits::none_typed), unfolding(crate::specs::Constants::constant_in))]
fn constant_in(radix: Radix, text: &[u8]) -> Option<IntegerConstant>
    ensures { result ≡ spec.constant_in radix text.now }
{
    let count = radix.digits_length(text);
    if count == 0 {
        return None;
    }
    let suffix = suffix_of(&text[count..])?;
    let value = number(radix.base(), &text[..count])?;
    typed(radix.types(suffix), value)
}

/// The type and the value of an integer constant that is all of these bytes: of the types that paragraph 5 lists for
/// its radix and suffix the first that holds the value. `None` where the bytes are no integer constant, or no type
/// holds it.
#[tactic(auto, unfolding(crate::specs::Constants::constant_of))]
pub fn constant_of(spelling: &[u8]) -> Option<IntegerConstant>
    ensures { result ≡ spec.constant_of spelling.now }
{
    match spelling {
        [b'0', b'x' | b'X', digits @ ..] => constant_in(Radix::Hexadecimal, digits),
        [b'0', ..] => constant_in(Radix::Octal, spelling),
        _ => constant_in(Radix::Decimal, spelling),
    }
}
