//! The integer constant expressions of declarators and enumerators (C99 6.6, 6.7.2.2, 6.7.5.2).

ghost use Rattle.std.specs.Prelude.{◌≡◌};
ghost use Rattle.c_tree.specs.View.{expression_of};
ghost use Rattle.c_rules.specs.Values.{value_of};
ghost use Rattle.c_declarator_typing.specs.Sizes.{count_in, enumeration_value, has_sign, is_count, is_int, next_value};
ghost use Rattle.c_declarator_typing.specs.Sizes.{successor};

use c_const::constant_word;
use c_rules::TypedValue;
use c_tree::{Expression, Kind};
use obj_memory::{IntType, Scalar};

/// The number of elements of an array, where the value is an integer constant expression of at least 1.
pub fn count_in(value: &TypedValue) -> Option<u64>
    ensures { result ≡ count_in (value_of value.now) }
{
    match constant_word(&value.tree) {
        Some(word) if is_count(has_sign(&value.tree), word) => Some(word),
        _ => None,
    }
}

/// The word of the value of an enumerator, where it is an integer constant expression that int can hold.
pub fn enumeration_value(value: &TypedValue) -> Option<u64>
    ensures { result ≡ enumeration_value (value_of value.now) }
{
    match constant_word(&value.tree) {
        Some(word) if is_int(has_sign(&value.tree), word) => Some(word),
        _ => None,
    }
}

/// The word of the value of an enumerator that follows one with a value and has none of its own, where int can hold it.
pub fn next_value(value: Option<u64>) -> Option<u64>
    ensures { result ≡ next_value value }
{
    match value {
        None => None,
        Some(word) => successor(word),
    }
}

fn successor(word: u64) -> Option<u64>
    ensures { result ≡ successor word }
{
    if word == (1 << 31) - 1 {
        None
    } else {
        Some(word.wrapping_add(1))
    }
}

/// Whether the type of an expression is signed.
pub fn has_sign(tree: &Expression) -> bool
    ensures { result ≡ has_sign (expression_of tree.now) }
{
    match tree.kind {
        Kind::Scalar(Scalar::Integer(of)) => of.is_signed(),
        _ => IntType::UnsignedLong.is_signed(),
    }
}

fn is_count(has_sign: bool, word: u64) -> bool
    ensures { result ≡ is_count has_sign word }
{
    word != 0 && (!has_sign || word < 1 << 63)
}

/// The word of the least int, -2^31.
const LEAST_INT: u64 = u64::MAX - ((1 << 31) - 1);

fn is_int(has_sign: bool, word: u64) -> bool
    ensures { result ≡ is_int has_sign word }
{
    word < 1 << 31 || (has_sign && word >= LEAST_INT)
}
