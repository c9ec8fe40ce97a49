//! The operators between two operands (C99 6.5.5 to 6.5.12).

ghost use Rattle.std.specs.Prelude.{◌≡◌, IfOk};
ghost use Rattle.c_tree.specs.View.{expression_of};
ghost use Rattle.c_faults.specs.Answer.{Gives};
ghost use Rattle.c_rules.specs.Binary.{binary, built, counted, moved, operated, pair_of};
ghost use Rattle.c_rules.specs.Values.{converted, value_of};

use crate::class::Class;
use crate::holding::{beside, boxed_pair};
use crate::row::{Pair, Row};
use crate::value::{TypedValue, converted, integer, is_null, same_pointee, typed};
use c_faults::{Fault, Refusal, Rule};
use c_tree::{Expression, Extent, Kind, Node, OffsetForm};
use obj_memory::{BinaryOperator, IntType, Scalar};
use sb_base::Line;
use std::alloc::{AllocError, Global};

const POINTER: Kind = Kind::Scalar(Scalar::Pointer);

/// An operator between two values, with the line of its token, among structures and unions with these extents. The rule
/// on operands is violated where their types have no row in the operator's table.
#[tactic(auto, unfolding(crate::specs::Binary::binary))]
pub fn binary(
    alloc: Global,
    structures: &[Option<Extent>],
    operator: BinaryOperator,
    line: Line,
    left: TypedValue,
    right: TypedValue,
) -> Result<TypedValue, Refusal>
    ensures { Gives value_of result (binary structures.now operator line (value_of left) (value_of right)) }
{
    let pair = pair_of(&left, &right);
    let row = Row::of(
        operator,
        pair,
        Class::of(structures, left.c_type.words()),
        Class::of(structures, right.c_type.words()),
    );
    built(alloc, row, operator, line, left, right)
}

fn pair_of(left: &TypedValue, right: &TypedValue) -> Pair
    ensures { result ≡ pair_of (value_of left.now) (value_of right.now) }
{
    Pair {
        same_pointee: same_pointee(left.c_type.words(), right.c_type.words()),
        left_is_null: is_null(left),
        right_is_null: is_null(right),
    }
}

// The node of a row, with the conversions of its operands.
fn built(
    alloc: Global,
    row: Row,
    operator: BinaryOperator,
    line: Line,
    left: TypedValue,
    right: TypedValue,
) -> Result<TypedValue, Refusal>
    ensures { Gives value_of result (built row operator line (value_of left) (value_of right)) }
{
    match row {
        Row::Arithmetic(t) => operated(
            alloc,
            operator,
            line,
            t,
            (integer(t), integer(t)),
            left,
            right,
        ),
        Row::Shift(t, u) => operated(
            alloc,
            operator,
            line,
            t,
            (integer(t), integer(u)),
            left,
            right,
        ),
        Row::Comparison(t) => {
            let kinds = (integer(t), integer(t));
            operated(alloc, operator, line, IntType::Int, kinds, left, right)
        }
        Row::PointerComparison => {
            let kinds = (POINTER, POINTER);
            operated(alloc, operator, line, IntType::Int, kinds, left, right)
        }
        Row::Offset(form, size) => moved(alloc, form, size, line, left, right),
        Row::Difference(size) => counted(alloc, size, line, left, right),
        Row::NoRow => {
            let rule = Rule::Operands;
            Err(Refusal::Fault(Fault { rule, line }))
        }
    }
}

// An operator on operands that are converted to two kinds, with a result of a type.
fn operated(
    alloc: Global,
    operator: BinaryOperator,
    line: Line,
    of: IntType,
    kinds: (Kind, Kind),
    left: TypedValue,
    right: TypedValue,
) -> Result<TypedValue, Refusal>
    ensures { Gives value_of result (operated operator line of kinds.0 kinds.1 (value_of left) (value_of right)) }
{
    let (left, right) = both_converted(alloc, kinds, left.tree, right.tree)?;
    let (left, right) = boxed_pair(alloc, left, right)?;
    let tree = Expression {
        kind: integer(of),
        line,
        node: Node::Binary(operator, left, right),
    };
    typed(alloc, of, tree)
}

fn both_converted(
    alloc: Global,
    kinds: (Kind, Kind),
    left: Expression,
    right: Expression,
) -> Result<(Expression, Expression), AllocError>
    ensures { IfOk result
        (λ both. (expression_of both.0 ≡ converted kinds.0 (expression_of left))
        × (expression_of both.1 ≡ converted kinds.1 (expression_of right))) }
{
    let (right, left) = beside(right, converted(alloc, kinds.0, left))?;
    beside(left, converted(alloc, kinds.1, right))
}

// A pointer moved by an index.
fn moved(
    alloc: Global,
    form: OffsetForm,
    size: u64,
    line: Line,
    left: TypedValue,
    right: TypedValue,
) -> Result<TypedValue, Refusal>
    ensures { Gives value_of result (moved form size line (value_of left) (value_of right)) }
{
    let TypedValue {
        c_type: left_type,
        tree: left,
    } = left;
    let TypedValue {
        c_type: right_type,
        tree: right,
    } = right;
    let (left, right) = boxed_pair(alloc, left, right)?;
    let c_type = match form {
        OffsetForm::PointerPlusIndex | OffsetForm::PointerMinusIndex => left_type,
        OffsetForm::IndexPlusPointer => right_type,
    };
    let tree = Expression {
        kind: POINTER,
        line,
        node: Node::Offset(form, size, left, right),
    };
    Ok(TypedValue { c_type, tree })
}

// The elements between two pointers.
fn counted(
    alloc: Global,
    size: u64,
    line: Line,
    left: TypedValue,
    right: TypedValue,
) -> Result<TypedValue, Refusal>
    ensures { Gives value_of result (counted size line (value_of left) (value_of right)) }
{
    let (left, right) = boxed_pair(alloc, left.tree, right.tree)?;
    let tree = Expression {
        kind: integer(IntType::Long),
        line,
        node: Node::Difference(size, left, right),
    };
    typed(alloc, IntType::Long, tree)
}
