//! The tables of the operators between two operands (C99 6.5.5 to 6.5.12).

ghost use Rattle.std.specs.Prelude.{◌≡◌};
ghost use Rattle.c_rules.specs.Rows.{comparison_row, difference_row, integer_row, is_object, is_void, may_meet, row_of};
ghost use Rattle.c_rules.specs.Rows.{shift_row, sum_row};

use crate::class::{Class, Target};
use c_tree::OffsetForm;
use obj_memory::{BinaryOperator, IntType};

/// A row of a table: what the operator does.
#[derive(Clone, Copy)]
pub enum Row {
    /// It works on both operands in this type, which the result has too.
    Arithmetic(IntType),
    /// It shifts the left operand in the first type by the right one, which is converted to the second.
    Shift(IntType, IntType),
    /// It compares both operands in this type.
    Comparison(IntType),
    /// It compares two pointers.
    PointerComparison,
    /// It moves a pointer by elements of so many bytes.
    Offset(OffsetForm, u64),
    /// It counts the elements of so many bytes between two pointers.
    Difference(u64),
    /// There is no row for operands of these types.
    NoRow,
}

/// What a table asks of two operands together.
#[derive(Clone, Copy)]
pub struct Pair {
    /// Whether both are pointers to one type, qualifiers of that type aside.
    pub same_pointee: bool,
    /// Whether the left operand is a null pointer constant (C99 6.3.2.3).
    pub left_is_null: bool,
    /// Whether the right operand is one.
    pub right_is_null: bool,
}

impl Row {
    ghost use Rattle.std.specs.Prelude.{◌≡◌};
    ghost use Rattle.c_rules.specs.Rows.{row_of};

    /// The row of an operator for two operands of these classes.
    #[tactic(auto, unfolding(crate::specs::Rows::row_of))]
    pub fn of(operator: BinaryOperator, pair: Pair, left: Class, right: Class) -> Row
        ensures { result ≡ row_of operator pair left right }
    {
        match operator {
            BinaryOperator::Add => sum(left, right),
            BinaryOperator::Subtract => difference(pair.same_pointee, left, right),
            BinaryOperator::Multiply
            | BinaryOperator::Divide
            | BinaryOperator::Remainder
            | BinaryOperator::BitAnd
            | BinaryOperator::BitXor
            | BinaryOperator::BitOr => integers(left, right),
            BinaryOperator::ShiftLeft | BinaryOperator::ShiftRight => shift(left, right),
            BinaryOperator::Less
            | BinaryOperator::Greater
            | BinaryOperator::LessOrEqual
            | BinaryOperator::GreaterOrEqual
            | BinaryOperator::Equal
            | BinaryOperator::NotEqual => comparison(pair, left, right),
        }
    }
}

fn integers(left: Class, right: Class) -> Row
    ensures { result ≡ integer_row left right }
{
    match (left, right) {
        (Class::Integer(j), Class::Integer(k)) => Row::Arithmetic(j.common(k)),
        _ => Row::NoRow,
    }
}

fn shift(left: Class, right: Class) -> Row
    ensures { result ≡ shift_row left right }
{
    match (left, right) {
        (Class::Integer(j), Class::Integer(k)) => Row::Shift(j.promoted(), k.promoted()),
        _ => Row::NoRow,
    }
}

fn sum(left: Class, right: Class) -> Row
    ensures { result ≡ sum_row left right }
{
    match (left, right) {
        (Class::Integer(j), Class::Integer(k)) => Row::Arithmetic(j.common(k)),
        (Class::Pointer(Target::Object(size)), Class::Integer(_)) => {
            Row::Offset(OffsetForm::PointerPlusIndex, size)
        }
        (Class::Integer(_), Class::Pointer(Target::Object(size))) => {
            Row::Offset(OffsetForm::IndexPlusPointer, size)
        }
        _ => Row::NoRow,
    }
}

fn difference(same_pointee: bool, left: Class, right: Class) -> Row
    ensures { result ≡ difference_row same_pointee left right }
{
    match (left, right) {
        (Class::Integer(j), Class::Integer(k)) => Row::Arithmetic(j.common(k)),
        (Class::Pointer(Target::Object(size)), Class::Integer(_)) => {
            Row::Offset(OffsetForm::PointerMinusIndex, size)
        }
        (Class::Pointer(Target::Object(size)), Class::Pointer(_)) if same_pointee => {
            Row::Difference(size)
        }
        _ => Row::NoRow,
    }
}

fn comparison(pair: Pair, left: Class, right: Class) -> Row
    ensures { result ≡ comparison_row pair left right }
{
    match (left, right) {
        (Class::Integer(j), Class::Integer(k)) => Row::Comparison(j.common(k)),
        (Class::Pointer(s), Class::Pointer(t))
            if may_meet(pair.same_pointee, s, t) || (pair.left_is_null || pair.right_is_null) => {
            Row::PointerComparison
        }
        (Class::Pointer(_), Class::Integer(_)) if pair.right_is_null => Row::PointerComparison,
        (Class::Integer(_), Class::Pointer(_)) if pair.left_is_null => Row::PointerComparison,
        _ => Row::NoRow,
    }
}

/// Whether two pointers may be compared or assigned, by what they point to.
pub fn may_meet(same_pointee: bool, left: Target, right: Target) -> bool
    ensures { result ≡ may_meet same_pointee left right }
{
    same_pointee || (is_void(left) && is_object(right) || is_object(left) && is_void(right))
}

fn is_void(target: Target) -> bool
    ensures { result ≡ is_void target }
{
    matches!(target, Target::Void)
}

fn is_object(target: Target) -> bool
    ensures { result ≡ is_object target }
{
    !matches!(target, Target::Function)
}
