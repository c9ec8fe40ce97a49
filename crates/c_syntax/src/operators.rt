//! Operators and their precedence (C99 6.5).

ghost use Rattle.std.specs.Prelude.{◌≡◌};
ghost use Rattle.c_syntax.specs.Formed as formed;
ghost use Rattle.c_syntax.specs.View as view;

use crate::tree::Expression;
use c_lexer::Punctuator;

/// How tightly an operator between two operands binds, from 1 for the comma to 13 for `*`; 0 where it is none
/// (C99 6.5.5 to 6.5.14, 6.5.17).
#[tactic(auto, unfolding(crate::specs::Formed::binary_precedence))]
pub fn binary_precedence(punctuator: Punctuator) -> u8
    ensures { result ≡ formed.binary_precedence punctuator }
{
    match punctuator {
        Punctuator::Comma => 1,
        Punctuator::Or => 4,
        Punctuator::And => 5,
        Punctuator::Bar => 6,
        Punctuator::Caret => 7,
        Punctuator::Ampersand => 8,
        Punctuator::Equal | Punctuator::NotEqual => 9,
        Punctuator::Less
        | Punctuator::Greater
        | Punctuator::LessOrEqual
        | Punctuator::GreaterOrEqual => 10,
        Punctuator::ShiftLeft | Punctuator::ShiftRight => 11,
        Punctuator::Plus | Punctuator::Minus => 12,
        Punctuator::Star | Punctuator::Slash | Punctuator::Percent => 13,
        _ => 0,
    }
}

/// The least precedence of the operand behind an operator: 15 for `++` and `--`, 14 for a unary operator; 0 where it
/// stands before none (C99 6.5.3).
#[tactic(auto, unfolding(crate::specs::Formed::operand_precedence))]
pub fn operand_precedence(punctuator: Punctuator) -> u8
    ensures { result ≡ formed.operand_precedence punctuator }
{
    match punctuator {
        Punctuator::Increment | Punctuator::Decrement => 15,
        Punctuator::Ampersand
        | Punctuator::Star
        | Punctuator::Plus
        | Punctuator::Minus
        | Punctuator::Tilde
        | Punctuator::Exclamation => 14,
        _ => 0,
    }
}

/// Whether it is an assignment operator (C99 6.5.16).
#[tactic(auto, unfolding(crate::specs::Formed::is_assignment))]
pub fn is_assignment(punctuator: Punctuator) -> bool
    ensures { result ≡ formed.is_assignment punctuator }
{
    match punctuator {
        Punctuator::Assign
        | Punctuator::MultiplyAssign
        | Punctuator::DivideAssign
        | Punctuator::RemainderAssign
        | Punctuator::AddAssign
        | Punctuator::SubtractAssign
        | Punctuator::ShiftLeftAssign
        | Punctuator::ShiftRightAssign
        | Punctuator::AndAssign
        | Punctuator::XorAssign
        | Punctuator::OrAssign => true,
        _ => false,
    }
}

/// Whether it is `.` or `->` (C99 6.5.2.3).
#[tactic(auto, unfolding(crate::specs::Formed::is_member_operator))]
pub fn is_member_operator(punctuator: Punctuator) -> bool
    ensures { result ≡ formed.is_member_operator punctuator }
{
    match punctuator {
        Punctuator::Dot | Punctuator::Arrow => true,
        _ => false,
    }
}

/// Whether it is `++` or `--` (C99 6.5.2.4).
#[tactic(auto, unfolding(crate::specs::Formed::is_postfix_operator))]
pub fn is_postfix_operator(punctuator: Punctuator) -> bool
    ensures { result ≡ formed.is_postfix_operator punctuator }
{
    match punctuator {
        Punctuator::Increment | Punctuator::Decrement => true,
        _ => false,
    }
}

/// How tightly the outermost operator of an expression binds: 1 comma, 2 assignment, 3 conditional, 4 to 13 binary,
/// 14 cast, 15 unary, 16 postfix, 17 primary (C99 6.5.1 to 6.5.17).
pub fn precedence(expression: &Expression) -> u8
    ensures { result ≡ formed.precedence (view.expression_of expression.now) }
{
    match expression {
        Expression::Binary(_, operator, _, _) => binary_precedence(*operator),
        Expression::Assignment(_, _, _, _) => 2,
        Expression::Conditional(_, _, _, _, _) => 3,
        Expression::Cast(_, _, _, _) => 14,
        Expression::Unary(_, _, _)
        | Expression::SizeofExpression(_, _)
        | Expression::SizeofType(_, _, _, _) => 15,
        Expression::Subscript(_, _, _, _)
        | Expression::Call(_, _, _, _)
        | Expression::Member(_, _, _, _)
        | Expression::Postfix(_, _, _) => 16,
        Expression::Identifier(_)
        | Expression::Integer(_)
        | Expression::Character(_)
        | Expression::Strings(_, _)
        | Expression::Parenthesized(_, _, _) => 17,
    }
}
