//! The unary operators on values, `&&`, `||` and `,` (C99 6.5.3.3, 6.5.13, 6.5.14, 6.5.17).

ghost use Rattle.std.specs.Prelude.{◌≡◌, Ok};
ghost use Rattle.c_tree.specs.View.{expression_of};
ghost use Rattle.c_faults.specs.Answer.{Gives};
ghost use Rattle.c_rules.specs.Unary.{combined, comma, is_scalar, negating, promoting, unary};
ghost use Rattle.c_rules.specs.Values.{integer_words, value_of};

use crate::class::Class;
use crate::holding::boxed_pair;
use crate::value::{TypedValue, converted, integer, typed};
use c_faults::{Fault, Refusal, Rule};
use c_tree::{Expression, Extent, Node};
use obj_memory::{IntType, UnaryOperator};
use sb_base::Line;
use std::alloc::Global;
use tree_containers::Boxed;

/// `&&` and `||`.
#[derive(Clone, Copy)]
pub enum LogicalOperator {
    And,
    Or,
}

/// `+`, `-` or `~` of an integer, which is promoted, or `!` of a scalar. The rule on operands is violated by any other.
#[tactic(auto, unfolding(crate::specs::Unary::unary))]
pub fn unary(
    alloc: Global,
    structures: &[Option<Extent>],
    operator: UnaryOperator,
    line: Line,
    operand: TypedValue,
) -> Result<TypedValue, Refusal>
    ensures { Gives value_of result (unary structures.now operator line (value_of operand)) }
{
    let class = Class::of(structures, operand.c_type.words());
    match operator {
        UnaryOperator::Not => negating(alloc, line, is_scalar(class), operand),
        _ => promoting(alloc, operator, line, class, operand),
    }
}

/// Whether it is an integer or a pointer.
pub fn is_scalar(class: Class) -> bool
    ensures { result ≡ is_scalar class }
{
    match class {
        Class::Integer(_) | Class::Pointer(_) => true,
        Class::Other => false,
    }
}

fn promoting(
    alloc: Global,
    operator: UnaryOperator,
    line: Line,
    class: Class,
    operand: TypedValue,
) -> Result<TypedValue, Refusal>
    ensures { Gives value_of result (promoting operator line class (value_of operand)) }
{
    let Class::Integer(t) = class else {
        let rule = Rule::Operands;
        return Err(Refusal::Fault(Fault { rule, line }));
    };
    let kind = integer(t.promoted());
    let operand = converted(alloc, kind, operand.tree)?;
    let node = Node::Unary(operator, Boxed::new(alloc, operand)?);
    typed(alloc, t.promoted(), Expression { kind, line, node })
}

fn negating(
    alloc: Global,
    line: Line,
    is_scalar: bool,
    operand: TypedValue,
) -> Result<TypedValue, Refusal>
    ensures { Gives value_of result (negating line is_scalar (value_of operand)) }
{
    if !is_scalar {
        let rule = Rule::Operands;
        return Err(Refusal::Fault(Fault { rule, line }));
    }
    let kind = integer(IntType::Int);
    let node = Node::Unary(UnaryOperator::Not, Boxed::new(alloc, operand.tree)?);
    typed(alloc, IntType::Int, Expression { kind, line, node })
}

/// `&&` or `||` of two scalars. The rule on operands is violated by any others.
#[tactic(auto, unfolding(crate::specs::Unary::combined))]
pub fn logical(
    alloc: Global,
    structures: &[Option<Extent>],
    operator: LogicalOperator,
    line: Line,
    left: TypedValue,
    right: TypedValue,
) -> Result<TypedValue, Refusal>
    ensures { Gives value_of result (combined structures.now operator line (value_of left) (value_of right)) }
{
    let are_scalars = is_scalar(Class::of(structures, left.c_type.words()))
        && is_scalar(Class::of(structures, right.c_type.words()));
    if !are_scalars {
        let rule = Rule::Operands;
        return Err(Refusal::Fault(Fault { rule, line }));
    }
    let (left, right) = boxed_pair(alloc, left.tree, right.tree)?;
    let node = match operator {
        LogicalOperator::And => Node::And(left, right),
        LogicalOperator::Or => Node::Or(left, right),
    };
    let kind = integer(IntType::Int);
    typed(alloc, IntType::Int, Expression { kind, line, node })
}

/// `,` of two values, whose type is that of the right one.
#[tactic(auto, unfolding(crate::specs::Unary::comma))]
pub fn comma(
    alloc: Global,
    line: Line,
    left: TypedValue,
    right: TypedValue,
) -> Result<TypedValue, Refusal>
    ensures { Gives value_of result (comma line (value_of left) (value_of right)) }
{
    let TypedValue { c_type, tree } = right;
    let kind = tree.kind;
    let (left, right) = boxed_pair(alloc, left.tree, tree)?;
    let node = Node::Comma(left, right);
    let tree = Expression { kind, line, node };
    Ok(TypedValue { c_type, tree })
}
