//! Expressions of statements: those that are evaluated, those that control, and the value of a switch (C99 6.8.3,
//! 6.8.4, 6.8.5).

ghost use Rattle.std.specs.Prelude.{◌≡◌, option_map};
ghost use Rattle.c_syntax.specs.StatementsView as views;
ghost use Rattle.c_syntax.specs.View as view;
ghost use Rattle.c_tree.specs.Tree.{kind_of};
ghost use Rattle.c_tree.specs.View.{expression_of, statement_of};
ghost use Rattle.c_const.specs.Integers as integers;
ghost use Rattle.c_faults.specs.Answer.{Gives};
ghost use Rattle.c_rules.specs.Values.{value_of};
ghost use Rattle.c_typing_state.specs.State.{Types, state_of};
ghost use Rattle.c_expression_typing.specs.Constructs.{valued};
ghost use Rattle.c_expression_typing.specs.Typed.{typed};
ghost use Rattle.c_unit_typing.specs.Constructs as constructs;

use crate::initializers::values::value;
use crate::statements::allocated::Allocated;
use crate::statements::building::{empty, expression};
use c_condition_rules::controlling::{condition, switch_value};
use c_faults::Refusal;
use c_rules::TypedValue;
use c_syntax::{Boxed, Expression as ExpressionTree};
use c_tree::{Expression, Kind, Statement};
use c_typing_state::Typer;
use obj_memory::{IntType, Scalar};
use sb_base::Line;

/// The value of an expression, which is evaluated or not. Refusals as of `value`.
pub(crate) fn allocated_value<'a>(
    typer: &mut Typer<'a>,
    is_evaluated: bool,
    tree: &ExpressionTree<'a>,
) -> Result<Allocated<TypedValue>, Refusal>
    ensures { Types value_of (state_of typer.new) result
        (valued (typed is_evaluated (view.expression_of tree.now)) (state_of typer.old)) }
{
    let value = value(typer, is_evaluated, tree)?;
    let value = Allocated::new(typer.alloc, value)?;
    Ok(value)
}

/// An expression that is evaluated. Refusals as of the expression.
pub(crate) fn evaluated<'a>(
    typer: &mut Typer<'a>,
    tree: &ExpressionTree<'a>,
) -> Result<Allocated<Expression>, Refusal>
    ensures { Types expression_of (state_of typer.new) result
        (constructs.evaluated (view.expression_of tree.now) (state_of typer.old)) }
{
    let value = allocated_value(typer, true, tree)?;
    let TypedValue { c_type: _, tree } = value.take();
    let tree = Allocated::new(typer.alloc, tree)?;
    Ok(tree)
}

/// The same, if it is there.
pub(crate) fn evaluated_if<'a>(
    typer: &mut Typer<'a>,
    tree: &Option<Boxed<ExpressionTree<'a>>>,
) -> Result<Option<Allocated<Expression>>, Refusal>
    ensures { Types (option_map expression_of) (state_of typer.new) result
        (constructs.evaluated_if (views.optional_of tree.now) (state_of typer.old)) }
{
    match tree {
        None => Ok(None),
        Some(tree) => {
            let tree = evaluated(typer, tree.get())?;
            Ok(Some(tree))
        }
    }
}

/// The value of an expression, if it is there.
pub(crate) fn valued_if<'a>(
    typer: &mut Typer<'a>,
    tree: &Option<Boxed<ExpressionTree<'a>>>,
) -> Result<Option<Allocated<TypedValue>>, Refusal>
    ensures { Types (option_map value_of) (state_of typer.new) result
        (constructs.valued_if (views.optional_of tree.now) (state_of typer.old)) }
{
    match tree {
        None => Ok(None),
        Some(tree) => {
            let value = allocated_value(typer, true, tree.get())?;
            Ok(Some(value))
        }
    }
}

/// A value that controls. The rule on conditions is violated at the line by one that is no scalar.
pub(crate) fn controls(
    typer: &Typer,
    line: Line,
    value: Allocated<TypedValue>,
) -> Result<Allocated<Expression>, Refusal>
    ensures { Gives expression_of result (constructs.controls line (value_of value) (state_of typer.now)) }
{
    let condition = condition(typer.extents(), line, value.take())?;
    let condition = Allocated::new(typer.alloc, condition)?;
    Ok(condition)
}

/// A controlling expression, with the line of its statement's word. Refusals as of the expression and of `controls`.
pub(crate) fn controlling<'a>(
    typer: &mut Typer<'a>,
    line: Line,
    tree: &ExpressionTree<'a>,
) -> Result<Allocated<Expression>, Refusal>
    ensures { Types expression_of (state_of typer.new) result
        (constructs.controlling line (view.expression_of tree.now) (state_of typer.old)) }
{
    let value = allocated_value(typer, true, tree)?;
    controls(typer, line, value)
}

/// The value of a switch, with the line of the word. The rule on conditions is violated there by one that is no
/// integer.
pub(crate) fn switching_on<'a>(
    typer: &mut Typer<'a>,
    line: Line,
    tree: &ExpressionTree<'a>,
) -> Result<Allocated<TypedValue>, Refusal>
    ensures { Types value_of (state_of typer.new) result
        (constructs.switching_on line (view.expression_of tree.now) (state_of typer.old)) }
{
    let value = allocated_value(typer, true, tree)?;
    let value = switch_value(typer.alloc, typer.extents(), line, value.take())?;
    let value = Allocated::new(typer.alloc, value)?;
    Ok(value)
}

/// `E;` and `;` (C99 6.8.3).
pub(crate) fn expression_statement<'a>(
    typer: &mut Typer<'a>,
    tree: &Option<Boxed<ExpressionTree<'a>>>,
) -> Result<Allocated<Statement>, Refusal>
    ensures { Types statement_of (state_of typer.new) result
        (constructs.expression_typed (views.optional_of tree.now) (state_of typer.old)) }
{
    match tree {
        None => {
            let statement = empty(typer.alloc)?;
            Ok(statement)
        }
        Some(tree) => {
            let tree = evaluated(typer, tree.get())?;
            let statement = expression(typer.alloc, tree)?;
            Ok(statement)
        }
    }
}

fn type_of_kind(kind: Kind) -> IntType
    ensures { result ≡ integers.type_of kind }
{
    match kind {
        Kind::Scalar(Scalar::Integer(value_type)) => value_type,
        _ => IntType::UnsignedLong,
    }
}

/// The integer type of a value.
pub(crate) fn type_of(value: &Allocated<TypedValue>) -> IntType
    ensures { result ≡ integers.type_of (kind_of (value_of value.now).tree) }
{
    type_of_kind(value.get().tree.kind)
}
