//! Operations that have an operand before their first punctuator.

ghost use Rattle.std.specs.Prelude.{◌≡◌};
ghost use Rattle.c_grammar.specs.ExpressionReader as spec;

use crate::least_precedence;
use c_lexer::{Punctuator, TokenKind};
use c_syntax::operators::{
    binary_precedence, is_assignment, is_member_operator, is_postfix_operator,
};

/// An operation whose first operand stands before a punctuator (C99 6.5.2, 6.5.5 to 6.5.17).
#[derive(Clone, Copy, Debug, PartialEq, Eq)]
pub enum Operation {
    /// By an operator from `*` to `||`, or by the comma.
    Binary,
    /// By an assignment operator.
    Assignment,
    /// By `?` and `:`.
    Conditional,
    /// By `[` and `]`.
    Subscript,
    /// By `(` and `)`.
    Call,
    /// By `.` or `->`.
    Member,
    /// By `++` or `--`.
    Postfix,
}

/// The operation of a punctuator that is no operator of one token.
fn bracket_operation(punctuator: Punctuator) -> Option<Operation>
    ensures { result ≡ spec.bracket_operation punctuator }
{
    match punctuator {
        Punctuator::Question => Some(Operation::Conditional),
        Punctuator::LeftBracket => Some(Operation::Subscript),
        Punctuator::LeftParenthesis => Some(Operation::Call),
        _ => None,
    }
}

/// The operation that has its first operand before the punctuator, or `None` where no operation has.
#[tactic(auto, unfolding(crate::specs::ExpressionReader::operation))]
pub fn operation_of(punctuator: Punctuator) -> Option<Operation>
    ensures { result ≡ spec.operation punctuator }
{
    if 1 <= binary_precedence(punctuator) {
        return Some(Operation::Binary);
    }
    if is_assignment(punctuator) {
        return Some(Operation::Assignment);
    }
    if is_member_operator(punctuator) {
        return Some(Operation::Member);
    }
    if is_postfix_operator(punctuator) {
        return Some(Operation::Postfix);
    }
    bracket_operation(punctuator)
}

/// How tightly a word binds what stands before it, from 1 for the comma to 16; 0 where no operation goes on with it.
pub fn binds(word: &TokenKind) -> u8
    ensures { result ≡ spec.binds word.now }
{
    let TokenKind::Punctuator(punctuator) = word else {
        return 0;
    };
    match operation_of(*punctuator) {
        None => 0,
        Some(Operation::Binary) => binary_precedence(*punctuator),
        Some(Operation::Assignment) => least_precedence::ASSIGNMENT,
        Some(Operation::Conditional) => least_precedence::CONDITIONAL,
        Some(_) => least_precedence::POSTFIX,
    }
}

/// The least precedence of what stands before a word that goes on with it; 0 where no operation does.
pub fn needs(word: &TokenKind) -> u8
    ensures { result ≡ spec.needs word.now }
{
    let TokenKind::Punctuator(punctuator) = word else {
        return 0;
    };
    match operation_of(*punctuator) {
        None => 0,
        Some(Operation::Binary) => binary_precedence(*punctuator),
        Some(Operation::Assignment) => least_precedence::UNARY,
        Some(Operation::Conditional) => least_precedence::LOGICAL_OR,
        Some(_) => least_precedence::POSTFIX,
    }
}
