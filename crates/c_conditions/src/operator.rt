//! The operators of conditions (C99 6.5.3.3, 6.5.5 to 6.5.14).

ghost use Rattle.std.specs.Prelude.{◌≡◌};
ghost use Rattle.c_conditions.specs.Operators as spec;

use c_lexer::Punctuator;
use obj_memory::{BinaryOperator, UnaryOperator};

/// An operator between two operands, by what it does to their types.
#[derive(Clone, Copy, Debug, PartialEq, Eq)]
pub enum Operator {
    /// Both operands are converted to their common type, which the value has (C99 6.5.5, 6.5.6, 6.5.10 to 6.5.12).
    Arithmetic(BinaryOperator),
    /// The value has the type of the left operand (6.5.7).
    Shift(BinaryOperator),
    /// Both operands are converted to their common type, and the value is a truth (6.5.8, 6.5.9).
    Comparison(BinaryOperator),
    /// `&&`, whose value is a truth (6.5.13).
    And,
    /// `||`, whose value is a truth (6.5.14).
    Or,
}

impl Operator {
    /// The operator of a punctuator between two operands. `None` for the comma and for each that is no such operator.
    pub fn of(punctuator: Punctuator) -> Option<Operator>
        ensures { result ≡ spec.operator_of punctuator }
    {
        match punctuator {
            Punctuator::Star => Some(Operator::Arithmetic(BinaryOperator::Multiply)),
            Punctuator::Slash => Some(Operator::Arithmetic(BinaryOperator::Divide)),
            Punctuator::Percent => Some(Operator::Arithmetic(BinaryOperator::Remainder)),
            Punctuator::Plus => Some(Operator::Arithmetic(BinaryOperator::Add)),
            Punctuator::Minus => Some(Operator::Arithmetic(BinaryOperator::Subtract)),
            Punctuator::ShiftLeft => Some(Operator::Shift(BinaryOperator::ShiftLeft)),
            Punctuator::ShiftRight => Some(Operator::Shift(BinaryOperator::ShiftRight)),
            Punctuator::Less => Some(Operator::Comparison(BinaryOperator::Less)),
            Punctuator::Greater => Some(Operator::Comparison(BinaryOperator::Greater)),
            Punctuator::LessOrEqual => Some(Operator::Comparison(BinaryOperator::LessOrEqual)),
            Punctuator::GreaterOrEqual => Some(Operator::Comparison(
                BinaryOperator::GreaterOrEqual,
            )),
            Punctuator::Equal => Some(Operator::Comparison(BinaryOperator::Equal)),
            Punctuator::NotEqual => Some(Operator::Comparison(BinaryOperator::NotEqual)),
            Punctuator::Ampersand => Some(Operator::Arithmetic(BinaryOperator::BitAnd)),
            Punctuator::Caret => Some(Operator::Arithmetic(BinaryOperator::BitXor)),
            Punctuator::Bar => Some(Operator::Arithmetic(BinaryOperator::BitOr)),
            Punctuator::And => Some(Operator::And),
            Punctuator::Or => Some(Operator::Or),
            _ => None,
        }
    }
}

/// The operator of a punctuator before an operand. `None` for `++`, `--`, `*` and `&`, and for each that is no such
/// operator.
pub fn prefix_of(punctuator: Punctuator) -> Option<UnaryOperator>
    ensures { result ≡ spec.prefix_of punctuator }
{
    match punctuator {
        Punctuator::Plus => Some(UnaryOperator::Plus),
        Punctuator::Minus => Some(UnaryOperator::Negate),
        Punctuator::Tilde => Some(UnaryOperator::Complement),
        Punctuator::Exclamation => Some(UnaryOperator::Not),
        _ => None,
    }
}
