//! `=`, the compound assignments, `++` and `--` (C99 6.5.2.4, 6.5.3.1, 6.5.16).

ghost use Rattle.std.specs.Prelude.{◌≡◌, IfOk, Some};
ghost use Rattle.c_tree.specs.declared.expression.Update.TheVariants.{Arithmetic};
ghost use Rattle.c_tree.specs.Kinds.{integer};
ghost use Rattle.c_tree.specs.View.{expression_of};
ghost use Rattle.c_faults.specs.Answer.{Gives};
ghost use Rattle.c_rules.specs.Values.{value_of};
ghost use Rattle.c_place_rules.specs.Operands.{operand_of};
ghost use Rattle.c_assignment_rules.specs.Writing.{writing_of};
ghost use Rattle.c_assignment_rules.specs.Assignments.{assignment, change_between, change_of, change_to, compound};
ghost use Rattle.c_assignment_rules.specs.Assignments.{converted_if, operator_of, step_to, stepped};

use crate::modifiable::assignable;
use crate::writing::{Writing, written};
use c_faults::{Fault, Refusal, Rule};
use c_place_rules::refusal::refused;
use c_place_rules::{Operand, type_in};
use c_rules::conversion::assigned;
use c_rules::holding::beside;
use c_rules::row::Pair;
use c_rules::value::{converted, integer};
use c_rules::{Class, Row, TypedValue};
use c_tree::{Expression, Extent, Fixity, Kind, OffsetForm, Update};
use obj_memory::{BinaryOperator, IntType};
use sb_base::Line;
use std::alloc::{AllocError, Global};

/// `++` and `--`.
#[derive(Clone, Copy)]
pub enum StepOperator {
    Increment,
    Decrement,
}

/// What an operator does to its left operand.
#[derive(Clone, Copy)]
pub struct Change {
    /// How the new value is made.
    pub update: Update,
    /// The kind to which the right operand is converted. The index of a pointer counts as it stands.
    pub operand: Option<Kind>,
}

/// `left = right`, with the line of its operator, among structures and unions with these extents, of which the second
/// list tells, by number, whether they have a const member. The rules are those of `assignable`, and behind them that
/// on conversions.
#[tactic(auto, unfolding(crate::specs::Assignments::assignment))]
pub fn assignment(
    alloc: Global,
    structures: &[Option<Extent>],
    with_const: &[bool],
    line: Line,
    left: Operand,
    right: TypedValue,
) -> Result<TypedValue, Refusal>
    ensures { Gives value_of result
        (assignment structures.now with_const.now line (operand_of left) (value_of right)) }
{
    let (right, left) = beside(right, assignable(with_const, line, left))?;
    let right = assigned(alloc, structures, line, type_in(&left), right);
    let (left, right) = beside(left, right)?;
    written(alloc, line, left, Writing::Set(right))
}

/// A compound assignment by an operator. The rules are those of `assignable`, and behind them that on operands, where
/// their types have no row in the operator's table (C99 6.5.16.2).
#[tactic(auto, unfolding(crate::specs::Assignments::compound))]
pub fn compound(
    alloc: Global,
    structures: &[Option<Extent>],
    with_const: &[bool],
    operator: BinaryOperator,
    line: Line,
    left: Operand,
    right: TypedValue,
) -> Result<TypedValue, Refusal>
    ensures { Gives value_of result
        (compound structures.now with_const.now operator line (operand_of left) (value_of right)) }
{
    let (right, left) = beside(right, assignable(with_const, line, left))?;
    let of_left = Class::of(structures, type_in(&left));
    let of_right = Class::of(structures, right.c_type.words());
    let change = change_between(operator, of_left, of_right);
    let (left, writing) = beside(left, change_to(alloc, line, change, right))?;
    written(alloc, line, left, writing)
}

// What an operator does to operands of two classes.
fn change_between(operator: BinaryOperator, left: Class, right: Class) -> Option<Change>
    ensures { result ≡ change_between operator left right }
{
    let pair = Pair {
        same_pointee: false,
        left_is_null: false,
        right_is_null: false,
    };
    change_of(operator, Row::of(operator, pair, left, right))
}

fn change_of(operator: BinaryOperator, row: Row) -> Option<Change>
    ensures { result ≡ change_of operator row }
{
    match row {
        Row::Arithmetic(t) => Some(arithmetic(operator, t, t)),
        Row::Shift(t, u) => Some(arithmetic(operator, t, u)),
        Row::Offset(OffsetForm::PointerPlusIndex, size) => Some(Change {
            update: Update::Forward(size),
            operand: None,
        }),
        Row::Offset(OffsetForm::PointerMinusIndex, size) => Some(Change {
            update: Update::Back(size),
            operand: None,
        }),
        _ => None,
    }
}

fn arithmetic(operator: BinaryOperator, of: IntType, right: IntType) -> Change
    ensures { result ≡ record { update = Arithmetic operator of; operand = Some (integer right) } }
{
    Change {
        update: Update::Arithmetic(operator, of),
        operand: Some(integer(right)),
    }
}

fn change_to(
    alloc: Global,
    line: Line,
    change: Option<Change>,
    right: TypedValue,
) -> Result<Writing, Refusal>
    ensures { Gives writing_of result (change_to line change (value_of right)) }
{
    match change {
        Some(Change { update, operand }) => {
            let right = converted_if(alloc, operand, right.tree)?;
            Ok(Writing::Change(update, right))
        }
        None => refused(right, Rule::Operands, line),
    }
}

fn converted_if(
    alloc: Global,
    kind: Option<Kind>,
    tree: Expression,
) -> Result<Expression, AllocError>
    ensures { IfOk result (λ tree'. expression_of tree' ≡ converted_if kind (expression_of tree)) }
{
    match kind {
        Some(kind) => converted(alloc, kind, tree),
        None => Ok(tree),
    }
}

/// `++` or `--` before or behind its operand, which adds or subtracts the int 1. The rules are those of `compound`.
#[tactic(auto, unfolding(crate::specs::Assignments::stepped))]
pub fn stepped(
    alloc: Global,
    structures: &[Option<Extent>],
    with_const: &[bool],
    operator: StepOperator,
    fixity: Fixity,
    line: Line,
    operand: Operand,
) -> Result<TypedValue, Refusal>
    ensures { Gives value_of result
        (stepped structures.now with_const.now operator fixity line (operand_of operand)) }
{
    let operand = assignable(with_const, line, operand)?;
    let class = Class::of(structures, type_in(&operand));
    let change = change_between(operator_of(operator), class, Class::Integer(IntType::Int));
    let (operand, writing) = beside(operand, step_to(line, fixity, change))?;
    written(alloc, line, operand, writing)
}

fn operator_of(operator: StepOperator) -> BinaryOperator
    ensures { result ≡ operator_of operator }
{
    match operator {
        StepOperator::Increment => BinaryOperator::Add,
        StepOperator::Decrement => BinaryOperator::Subtract,
    }
}

fn step_to(line: Line, fixity: Fixity, change: Option<Change>) -> Result<Writing, Refusal>
    ensures { Gives writing_of result (step_to line fixity change) }
{
    match change {
        Some(change) => Ok(Writing::StepBy(change.update, fixity)),
        None => {
            let rule = Rule::Operands;
            Err(Refusal::Fault(Fault { rule, line }))
        }
    }
}
