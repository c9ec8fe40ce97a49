//! Which operator a punctuator is (C99 6.5).

ghost use Rattle.std.specs.Prelude.{◌≡◌};
ghost use Rattle.c_operand_typing.specs.Operators.{assignment_form_of, binary_form_of, prefix_form_of, step_form};

use c_assignment_rules::StepOperator;
use c_lexer::Punctuator;
use c_rules::LogicalOperator;
use obj_memory::{BinaryOperator, UnaryOperator};

/// What stands before an operand.
#[derive(Clone, Copy)]
pub enum PrefixForm {
    /// `&`
    Address,
    /// `*`
    Dereference,
    /// `++` or `--`
    Step(StepOperator),
    /// `+`, `-`, `~` or `!`
    Value(UnaryOperator),
    /// No such operator.
    Nothing,
}

/// What stands between two operands.
#[derive(Clone, Copy)]
pub enum BinaryForm {
    /// `,`
    Comma,
    /// `&&` or `||`
    Logical(LogicalOperator),
    /// An operator on two values.
    Value(BinaryOperator),
    /// No such operator.
    Nothing,
}

/// What assigns.
#[derive(Clone, Copy)]
pub enum AssignmentForm {
    /// `=`
    Simple,
    /// A compound assignment by an operator.
    Compound(BinaryOperator),
    /// No such operator.
    Nothing,
}

/// Which operator a punctuator before an operand is.
pub fn prefix_form(punctuator: Punctuator) -> PrefixForm
    ensures { result ≡ prefix_form_of punctuator }
{
    match punctuator {
        Punctuator::Ampersand => PrefixForm::Address,
        Punctuator::Star => PrefixForm::Dereference,
        Punctuator::Increment => PrefixForm::Step(StepOperator::Increment),
        Punctuator::Decrement => PrefixForm::Step(StepOperator::Decrement),
        Punctuator::Plus => PrefixForm::Value(UnaryOperator::Plus),
        Punctuator::Minus => PrefixForm::Value(UnaryOperator::Negate),
        Punctuator::Tilde => PrefixForm::Value(UnaryOperator::Complement),
        Punctuator::Exclamation => PrefixForm::Value(UnaryOperator::Not),
        _ => PrefixForm::Nothing,
    }
}

/// Which operator a punctuator behind an operand is.
pub fn step_form(punctuator: Punctuator) -> PrefixForm
    ensures { result ≡ step_form punctuator }
{
    match punctuator {
        Punctuator::Increment => PrefixForm::Step(StepOperator::Increment),
        Punctuator::Decrement => PrefixForm::Step(StepOperator::Decrement),
        _ => PrefixForm::Nothing,
    }
}

/// Which operator a punctuator between two operands is, assignments aside.
pub fn binary_form(punctuator: Punctuator) -> BinaryForm
    ensures { result ≡ binary_form_of punctuator }
{
    match punctuator {
        Punctuator::Comma => BinaryForm::Comma,
        Punctuator::And => BinaryForm::Logical(LogicalOperator::And),
        Punctuator::Or => BinaryForm::Logical(LogicalOperator::Or),
        Punctuator::Star => BinaryForm::Value(BinaryOperator::Multiply),
        Punctuator::Slash => BinaryForm::Value(BinaryOperator::Divide),
        Punctuator::Percent => BinaryForm::Value(BinaryOperator::Remainder),
        Punctuator::Plus => BinaryForm::Value(BinaryOperator::Add),
        Punctuator::Minus => BinaryForm::Value(BinaryOperator::Subtract),
        Punctuator::ShiftLeft => BinaryForm::Value(BinaryOperator::ShiftLeft),
        Punctuator::ShiftRight => BinaryForm::Value(BinaryOperator::ShiftRight),
        Punctuator::Less => BinaryForm::Value(BinaryOperator::Less),
        Punctuator::Greater => BinaryForm::Value(BinaryOperator::Greater),
        Punctuator::LessOrEqual => BinaryForm::Value(BinaryOperator::LessOrEqual),
        Punctuator::GreaterOrEqual => BinaryForm::Value(BinaryOperator::GreaterOrEqual),
        Punctuator::Equal => BinaryForm::Value(BinaryOperator::Equal),
        Punctuator::NotEqual => BinaryForm::Value(BinaryOperator::NotEqual),
        Punctuator::Ampersand => BinaryForm::Value(BinaryOperator::BitAnd),
        Punctuator::Caret => BinaryForm::Value(BinaryOperator::BitXor),
        Punctuator::Bar => BinaryForm::Value(BinaryOperator::BitOr),
        _ => BinaryForm::Nothing,
    }
}

/// Which assignment a punctuator is.
pub fn assignment_form(punctuator: Punctuator) -> AssignmentForm
    ensures { result ≡ assignment_form_of punctuator }
{
    match punctuator {
        Punctuator::Assign => AssignmentForm::Simple,
        Punctuator::MultiplyAssign => AssignmentForm::Compound(BinaryOperator::Multiply),
        Punctuator::DivideAssign => AssignmentForm::Compound(BinaryOperator::Divide),
        Punctuator::RemainderAssign => AssignmentForm::Compound(BinaryOperator::Remainder),
        Punctuator::AddAssign => AssignmentForm::Compound(BinaryOperator::Add),
        Punctuator::SubtractAssign => AssignmentForm::Compound(BinaryOperator::Subtract),
        Punctuator::ShiftLeftAssign => AssignmentForm::Compound(BinaryOperator::ShiftLeft),
        Punctuator::ShiftRightAssign => AssignmentForm::Compound(BinaryOperator::ShiftRight),
        Punctuator::AndAssign => AssignmentForm::Compound(BinaryOperator::BitAnd),
        Punctuator::XorAssign => AssignmentForm::Compound(BinaryOperator::BitXor),
        Punctuator::OrAssign => AssignmentForm::Compound(BinaryOperator::BitOr),
        _ => AssignmentForm::Nothing,
    }
}
