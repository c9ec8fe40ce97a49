//! The words of rows.

use anyhow::{Context, Result, bail};
use obj_memory::{BinaryOperator, IntType, UnaryOperator};

/// What a row asks.
#[derive(Clone, Copy)]
pub enum Asked {
    Fit,
    Common,
    Unary,
    Binary,
    Type,
    Pointer,
    Structure,
    Union,
    Pointers,
    Incomplete,
    Same,
    Object,
    Judge,
    Named,
    Value,
    Static,
}

/// The words that rows begin with.
pub const ASKED: [(&str, Asked); 16] = [
    ("fit", Asked::Fit),
    ("common", Asked::Common),
    ("unary", Asked::Unary),
    ("binary", Asked::Binary),
    ("type", Asked::Type),
    ("pointer", Asked::Pointer),
    ("structure", Asked::Structure),
    ("union", Asked::Union),
    ("pointers", Asked::Pointers),
    ("incomplete", Asked::Incomplete),
    ("same", Asked::Same),
    ("object", Asked::Object),
    ("judge", Asked::Judge),
    ("named", Asked::Named),
    ("value", Asked::Value),
    ("static", Asked::Static),
];

const TYPES: [(&str, IntType); 11] = [
    ("Char", IntType::Char),
    ("SignedChar", IntType::SignedChar),
    ("UnsignedChar", IntType::UnsignedChar),
    ("Short", IntType::Short),
    ("UnsignedShort", IntType::UnsignedShort),
    ("Int", IntType::Int),
    ("UnsignedInt", IntType::UnsignedInt),
    ("Long", IntType::Long),
    ("UnsignedLong", IntType::UnsignedLong),
    ("LongLong", IntType::LongLong),
    ("UnsignedLongLong", IntType::UnsignedLongLong),
];

/// The unary operators.
pub const UNARY: [(&str, UnaryOperator); 4] = [
    ("+", UnaryOperator::Plus),
    ("-", UnaryOperator::Negate),
    ("~", UnaryOperator::Complement),
    ("!", UnaryOperator::Not),
];

/// The binary operators.
pub const BINARY: [(&str, BinaryOperator); 16] = [
    ("+", BinaryOperator::Add),
    ("-", BinaryOperator::Subtract),
    ("*", BinaryOperator::Multiply),
    ("/", BinaryOperator::Divide),
    ("%", BinaryOperator::Remainder),
    ("<<", BinaryOperator::ShiftLeft),
    (">>", BinaryOperator::ShiftRight),
    ("&", BinaryOperator::BitAnd),
    ("^", BinaryOperator::BitXor),
    ("|", BinaryOperator::BitOr),
    ("<", BinaryOperator::Less),
    (">", BinaryOperator::Greater),
    ("<=", BinaryOperator::LessOrEqual),
    (">=", BinaryOperator::GreaterOrEqual),
    ("==", BinaryOperator::Equal),
    ("!=", BinaryOperator::NotEqual),
];

/// What a table has beside a word.
pub fn found<T: Copy>(table: &[(&str, T)], word: Option<&str>) -> Result<T> {
    let word = word.context("a word")?;
    for (name, value) in table {
        if *name == word {
            return Ok(*value);
        }
    }
    bail!("an unknown word")
}

/// The integer type of a word.
pub fn integer_type(word: Option<&str>) -> Result<IntType> {
    found(&TYPES, word)
}

/// The number that a word has in hexadecimal digits.
pub fn number(word: Option<&str>) -> Result<u64> {
    let digits = word.context("a number")?;
    u64::from_str_radix(digits, 16).context("hexadecimal digits")
}
