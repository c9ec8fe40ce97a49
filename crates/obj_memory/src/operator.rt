//! The operators on integers (C99 6.5.3, 6.5.5 to 6.5.12), computed on words: numbers modulo 2^64.
//! What C99 leaves open is settled so: numbers wrap in two's complement, a shift goes by the amount
//! modulo the width, a right shift keeps the sign, and the least number divided by -1 is itself.

ghost use Rattle.std.specs.Prelude.{◌≡◌, ℕ, ◌+◌, ◌-◌, ◌*◌, ◌/◌, ◌%◌, ◌^◌, ◌<◌, ◌≤◌};
ghost use Rattle.obj_memory.specs.Operators.{is_less, quotient, remainder, shift_amount, shift_right};

use crate::int_type::IntType;
use words::{is_less_signed, shift_right_signed, signed_quotient, signed_remainder};

/// A unary operator on one operand of a promoted type (C99 6.5.3.3).
#[derive(Clone, Copy, Debug, PartialEq, Eq)]
pub enum UnaryOperator {
    /// `+`
    Plus,
    /// `-`
    Negate,
    /// `~`
    Complement,
    /// `!`
    Not,
}

/// A binary operator on two operands of one type; of a shift the type is that of the left operand, promoted.
#[derive(Clone, Copy, Debug, PartialEq, Eq)]
pub enum BinaryOperator {
    /// `+` (C99 6.5.6)
    Add,
    /// `-` (C99 6.5.6)
    Subtract,
    /// `*` (C99 6.5.5)
    Multiply,
    /// `/` (C99 6.5.5)
    Divide,
    /// `%` (C99 6.5.5)
    Remainder,
    /// `<<` (C99 6.5.7)
    ShiftLeft,
    /// `>>` (C99 6.5.7)
    ShiftRight,
    /// `&` (C99 6.5.10)
    BitAnd,
    /// `^` (C99 6.5.11)
    BitXor,
    /// `|` (C99 6.5.12)
    BitOr,
    /// `<` (C99 6.5.8)
    Less,
    /// `>` (C99 6.5.8)
    Greater,
    /// `<=` (C99 6.5.8)
    LessOrEqual,
    /// `>=` (C99 6.5.8)
    GreaterOrEqual,
    /// `==` (C99 6.5.9)
    Equal,
    /// `!=` (C99 6.5.9)
    NotEqual,
}

impl UnaryOperator {
    ghost use Rattle.obj_memory.specs.Operators.{unary_value};

    /// The value at an operand of a promoted type, also a word of that type; of `Not` an `Int`.
    #[tactic(auto, using(crate::proofs::Words::fit_word), unfolding(crate::specs::Operators::unary_value))]
    pub fn apply(self, operand_type: IntType, operand: u64) -> u64
        ensures { result ≡ unary_value self operand_type operand }
    {
        match self {
            UnaryOperator::Plus => operand_type.fit(operand),
            UnaryOperator::Negate => operand_type.fit(0u64.wrapping_sub(operand)),
            UnaryOperator::Complement => operand_type.fit(!operand),
            UnaryOperator::Not => u64::from(operand == 0),
        }
    }
}

impl BinaryOperator {
    ghost use Rattle.obj_memory.specs.Operators.{binary_value};

    /// The value at operands of one promoted type, also a word of that type; of a comparison an `Int`.
    /// The right operand of a shift may have any type. There is none where the divisor is zero.
    #[tactic(auto, using(crate::proofs::Words::fit_word), unfolding(crate::specs::Operators::binary_value))]
    pub fn apply(self, operand_type: IntType, left: u64, right: u64) -> Option<u64>
        ensures { result ≡ binary_value self operand_type left right }
    {
        let has_sign = operand_type.is_signed();
        let amount = shift_amount(operand_type, right);
        let value = match self {
            BinaryOperator::Add => operand_type.fit(left.wrapping_add(right)),
            BinaryOperator::Subtract => operand_type.fit(left.wrapping_sub(right)),
            BinaryOperator::Multiply => operand_type.fit(left.wrapping_mul(right)),
            BinaryOperator::Divide | BinaryOperator::Remainder if right == 0 => return None,
            BinaryOperator::Divide => operand_type.fit(quotient(has_sign, left, right)),
            BinaryOperator::Remainder => operand_type.fit(remainder(has_sign, left, right)),
            BinaryOperator::ShiftLeft => operand_type.fit(left << amount),
            BinaryOperator::ShiftRight => shift_right(has_sign, left, amount),
            BinaryOperator::BitAnd => left & right,
            BinaryOperator::BitXor => left ^ right,
            BinaryOperator::BitOr => left | right,
            BinaryOperator::Less => u64::from(is_less(has_sign, left, right)),
            BinaryOperator::Greater => u64::from(is_less(has_sign, right, left)),
            BinaryOperator::LessOrEqual => u64::from(!is_less(has_sign, right, left)),
            BinaryOperator::GreaterOrEqual => u64::from(!is_less(has_sign, left, right)),
            BinaryOperator::Equal => u64::from(left == right),
            BinaryOperator::NotEqual => u64::from(left != right),
        };
        Some(value)
    }
}

// Whether the left operand is below the right one.
fn is_less(has_sign: bool, left: u64, right: u64) -> bool
    ensures { result ≡ is_less has_sign left right }
{
    if has_sign {
        is_less_signed(left, right)
    } else {
        left < right
    }
}

fn quotient(has_sign: bool, left: u64, right: u64) -> u64
    requires { 0 < right }
    ensures { result ≡ quotient has_sign left right }
{
    if has_sign {
        signed_quotient(left, right)
    } else {
        left / right
    }
}

fn remainder(has_sign: bool, left: u64, right: u64) -> u64
    requires { 0 < right }
    ensures { result ≡ remainder has_sign left right }
{
    if has_sign {
        signed_remainder(left, right)
    } else {
        left % right
    }
}

// By how many bits a shift of this type goes.
#[tactic(auto, unfolding(crate::specs::Operators::shift_amount))]
fn shift_amount(operand_type: IntType, amount: u64) -> u32
    ensures value { result ≡ shift_amount operand_type amount }
    ensures small { result < 64 }
{
    if operand_type.size() == 8 {
        (amount % 64) as u32
    } else {
        (amount % 32) as u32
    }
}

fn shift_right(has_sign: bool, word: u64, bits: u32) -> u64
    requires { bits < 64 }
    ensures { result ≡ shift_right has_sign word bits }
{
    if has_sign {
        shift_right_signed(word, bits)
    } else {
        word >> bits
    }
}
