//! Values of conditions (C99 6.10.1 paragraph 4).

ghost use Rattle.std.specs.Prelude.{◌≡◌};
ghost use Rattle.std.specs.List.{list_any};
ghost use Rattle.c_conditions.specs.Values as spec;
ghost use Rattle.c_lexer.specs.Constants as constants;
ghost use Rattle.c_lexer.specs.Literals as literals;
ghost use Rattle.c_syntax.specs.View.{expression_of};

use crate::operator::{Operator, prefix_of};
use c_lexer::{character_value, constant_of};
use c_syntax::Expression;
use obj_memory::{BinaryOperator, IntType, UnaryOperator};

/// The value of a condition or of a part of one.
#[derive(Clone, Copy, Debug, PartialEq, Eq)]
pub struct Value {
    /// Its type: `Long` or `UnsignedLong`.
    pub integer_type: IntType,
    /// Its number modulo 2^64, or `None` where an operand that is evaluated divides by zero.
    pub word: Option<u64>,
}

/// Whether a constant has a suffix `u`.
fn has_unsigned_suffix(spelling: &[u8]) -> bool
    ensures { result ≡ list_any constants.is_u spelling.now }
{
    spelling.iter().any(|b| *b == b'u' || *b == b'U')
}

/// The type of an integer constant with this value.
fn constant_type(spelling: &[u8], value: u64) -> IntType
    ensures { result ≡ spec.constant_type spelling.now value }
{
    if has_unsigned_suffix(spelling) || value > i64::MAX as u64 {
        IntType::UnsignedLong
    } else {
        IntType::Long
    }
}

/// The value of an integer constant.
fn constant(spelling: &[u8]) -> Option<Value>
    ensures { result ≡ spec.constant_value spelling.now (constants.constant_of spelling.now) }
{
    let constant = constant_of(spelling)?;
    Some(Value {
        integer_type: constant_type(spelling, constant.value),
        word: Some(constant.value),
    })
}

/// The value of a character constant.
fn character(spelling: &[u8]) -> Option<Value>
    ensures { result ≡ spec.character_value (literals.character_value spelling.now) }
{
    let value = character_value(spelling)?;
    Some(Value {
        integer_type: IntType::Long,
        word: Some(u64::from(value)),
    })
}

/// A word as one that is true or false.
fn truth(word: Option<u64>) -> Option<u64>
    ensures { result ≡ spec.truth word }
{
    let word = word?;
    Some(u64::from(word != 0))
}

/// The value of an operator on two words of a type.
fn computed(
    operator: BinaryOperator,
    integer_type: IntType,
    left: Option<u64>,
    right: Option<u64>,
) -> Option<u64>
    ensures { result ≡ spec.computed operator integer_type left right }
{
    operator.apply(integer_type, left?, right?)
}

/// The value of `&&` (C99 6.5.13).
fn conjunction(left: Option<u64>, right: Option<u64>) -> Option<u64>
    ensures { result ≡ spec.conjunction left right }
{
    match left? {
        0 => Some(0),
        _ => truth(right),
    }
}

/// The value of `||` (C99 6.5.14).
fn disjunction(left: Option<u64>, right: Option<u64>) -> Option<u64>
    ensures { result ≡ spec.disjunction left right }
{
    match left? {
        0 => truth(right),
        _ => Some(1),
    }
}

/// The type of the value of an operator before an operand of a type.
fn prefix_type(operator: UnaryOperator, integer_type: IntType) -> IntType
    ensures { result ≡ spec.prefix_type operator integer_type }
{
    match operator {
        UnaryOperator::Not => IntType::Long,
        _ => integer_type,
    }
}

impl Value {
    /// The type to which both are converted (C99 6.3.1.8).
    fn common(self, other: Value) -> IntType
        ensures { result ≡ spec.common self other }
    {
        self.integer_type.common(other.integer_type)
    }

    /// The word in another type (C99 6.3.1.3).
    fn word_in(self, integer_type: IntType) -> Option<u64>
        ensures { result ≡ spec.word_in integer_type self }
    {
        let word = self.word?;
        Some(integer_type.fit(word))
    }

    /// The value of an operator before it (C99 6.5.3.3).
    fn prefixed(self, operator: UnaryOperator) -> Value
        ensures { result ≡ spec.prefixed operator self }
    {
        Value {
            integer_type: prefix_type(operator, self.integer_type),
            word: match self.word {
                Some(word) => Some(operator.apply(self.integer_type, word)),
                None => None,
            },
        }
    }

    /// The word of an operator between it and another, both in their common type.
    fn computed_in_common(self, operator: BinaryOperator, other: Value) -> Option<u64>
        ensures { result ≡ spec.computed_in_common operator self other }
    {
        let common = self.common(other);
        computed(
            operator,
            common,
            self.word_in(common),
            other.word_in(common),
        )
    }

    /// The value of an operator between it and another (C99 6.5.5 to 6.5.14).
    fn combined(self, operator: Operator, other: Value) -> Value
        ensures { result ≡ spec.combined operator self other }
    {
        match operator {
            Operator::Arithmetic(operator) => Value {
                integer_type: self.common(other),
                word: self.computed_in_common(operator, other),
            },
            Operator::Shift(operator) => Value {
                integer_type: self.integer_type,
                word: computed(operator, self.integer_type, self.word, other.word),
            },
            Operator::Comparison(operator) => Value {
                integer_type: IntType::Long,
                word: self.computed_in_common(operator, other),
            },
            Operator::And => Value {
                integer_type: IntType::Long,
                word: conjunction(self.word, other.word),
            },
            Operator::Or => Value {
                integer_type: IntType::Long,
                word: disjunction(self.word, other.word),
            },
        }
    }

    /// The value of `?:` behind it as the condition (C99 6.5.15).
    fn choosing(self, second: Value, third: Value) -> Value
        ensures { result ≡ spec.conditional self second third }
    {
        let common = second.common(third);
        let word = match self.word {
            Some(0) => third.word_in(common),
            Some(_) => second.word_in(common),
            None => None,
        };
        Value {
            integer_type: common,
            word,
        }
    }

    /// The value of an expression. `None` where it has a part that no condition has.
    pub fn of(expression: &Expression) -> Option<Value>
        ensures { result ≡ spec.value_of (expression_of expression.now) }
    {
        match expression {
            Expression::Integer(x) => constant(x.spelling.bytes()),
            Expression::Character(x) => character(x.spelling.bytes()),
            Expression::Parenthesized(_, e, _) => Value::of(e.get()),
            Expression::Unary(operator, _, e) => {
                let operator = prefix_of(*operator)?;
                let value = Value::of(e.get())?;
                Some(value.prefixed(operator))
            }
            Expression::Binary(a, operator, _, b) => {
                let operator = Operator::of(*operator)?;
                let left = Value::of(a.get())?;
                let right = Value::of(b.get())?;
                Some(left.combined(operator, right))
            }
            Expression::Conditional(c, _, a, _, b) => {
                let condition = Value::of(c.get())?;
                let second = Value::of(a.get())?;
                let third = Value::of(b.get())?;
                Some(condition.choosing(second, third))
            }
            _ => None,
        }
    }
}
