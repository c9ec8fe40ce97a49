//! The conditional operator (C99 6.5.15).

ghost use Rattle.std.specs.Prelude.{◌≡◌, IfOk, Ok, Err};
ghost use Rattle.c_tree.specs.View.{expression_of};
ghost use Rattle.c_faults.specs.declared.fault.Refusal.{Refusal as AnyRefusal};
ghost use Rattle.c_faults.specs.declared.fault.Refusal.TheVariants.{Memory};
ghost use Rattle.c_faults.specs.Answer.{Gives};
ghost use Rattle.c_rules.specs.Binary.{pair_of};
ghost use Rattle.c_rules.specs.Values.{converted, value_of};
ghost use Rattle.c_condition_rules.specs.Conditions.{are_same, chosen, conditional, meeting_in, meeting_of};
ghost use Rattle.c_condition_rules.specs.Conditions.{merged_pointer, pointers_meet, shape_in, shape_of, shape_view};
ghost use Rattle.c_condition_rules.specs.Conditions.{where_met};

use c_faults::{Fault, Refusal, Rule};
use c_place_rules::target::{is_const, pointee, pointer_to, qualified};
use c_rules::holding::{beside, boxed_pair};
use c_rules::row::{Pair, may_meet};
use c_rules::unary::is_scalar;
use c_rules::value::{converted, integer, integer_type, is_null, same_pointee, unqualified};
use c_rules::{Class, Target, TypedValue};
use c_tree::{CType, Expression, Extent, Kind, Node, TypeWord, same_words};
use obj_memory::{IntType, Scalar};
use sb_base::Line;
use std::alloc::{AllocError, Global};
use tree_containers::Boxed;

const POINTER: Kind = Kind::Scalar(Scalar::Pointer);

/// What the second and third operands become.
#[derive(Clone, Copy)]
pub enum Meeting {
    /// Integers of this type.
    Arithmetic(IntType),
    /// Pointers to their one type, with the qualifiers of both.
    SamePointee,
    /// Pointers to void, with the qualifiers of both.
    ToVoid,
    /// Pointers of the type of the second operand.
    AsLeft,
    /// Pointers of the type of the third operand.
    AsRight,
    /// What they are: void, or one structure or union.
    AsTheyAre,
    /// They have no common type.
    NoMeeting,
}

/// The kind and the type of what a conditional gives.
#[derive(Drop)]
pub struct Shape {
    /// The kind to which the second and third operands are converted.
    pub kind: Kind,
    /// The type.
    pub c_type: CType,
}

/// `condition ? first : second`, with the line of the `?`. The rule on operands is violated where the condition is no
/// scalar, and where the types of the others have no common one (C99 6.5.15).
#[tactic(auto, unfolding(crate::specs::Conditions::conditional))]
pub fn conditional(
    alloc: Global,
    structures: &[Option<Extent>],
    line: Line,
    condition: TypedValue,
    first: TypedValue,
    second: TypedValue,
) -> Result<TypedValue, Refusal>
    ensures { Gives value_of result
        (conditional structures.now line (value_of condition) (value_of first) (value_of second)) }
{
    let shape = shape_in(alloc, structures, line, &condition, &first, &second);
    let (condition, first, second) = (condition.tree, first.tree, second.tree);
    let (condition, (first, (second, shape))) = beside(
        condition,
        beside(first, beside(second, shape)),
    )?;
    let Shape { kind, c_type } = shape;
    let tree = chosen(alloc, line, kind, condition, first, second);
    let (c_type, tree) = beside(c_type, tree)?;
    Ok(TypedValue { c_type, tree })
}

fn shape_in(
    alloc: Global,
    structures: &[Option<Extent>],
    line: Line,
    condition: &TypedValue,
    first: &TypedValue,
    second: &TypedValue,
) -> Result<Shape, Refusal>
    ensures { Gives shape_view result
        (shape_in structures.now line (value_of condition.now) (value_of first.now) (value_of second.now)) }
{
    if !is_scalar(Class::of(structures, condition.c_type.words())) {
        let rule = Rule::Operands;
        return Err(Refusal::Fault(Fault { rule, line }));
    }
    let meeting = meeting_in(structures, first, second);
    shape_of(alloc, meeting, line, first, second)
}

fn meeting_in(structures: &[Option<Extent>], first: &TypedValue, second: &TypedValue) -> Meeting
    ensures { result ≡ meeting_in structures.now (value_of first.now) (value_of second.now) }
{
    let (left, right) = (first.c_type.words(), second.c_type.words());
    let pair = pair_of(first, second);
    let of_left = Class::of(structures, left);
    meeting_of(
        pair,
        are_same(left, right),
        of_left,
        Class::of(structures, right),
    )
}

fn pair_of(left: &TypedValue, right: &TypedValue) -> Pair
    ensures { result ≡ pair_of (value_of left.now) (value_of right.now) }
{
    Pair {
        same_pointee: same_pointee(left.c_type.words(), right.c_type.words()),
        left_is_null: is_null(left),
        right_is_null: is_null(right),
    }
}

fn are_same(left: &[TypeWord], right: &[TypeWord]) -> bool
    ensures { result ≡ are_same left.now right.now }
{
    matches!(left, [TypeWord::Structure(_), ..]) && same_words(left, right)
        || (matches!(left, [TypeWord::Void, ..]) && matches!(right, [TypeWord::Void, ..]))
}

fn meeting_of(pair: Pair, are_same: bool, left: Class, right: Class) -> Meeting
    ensures { result ≡ meeting_of pair are_same left right }
{
    match (left, right) {
        (Class::Integer(j), Class::Integer(k)) => Meeting::Arithmetic(j.common(k)),
        (Class::Pointer(s), Class::Pointer(t)) => pointers_meet(pair, s, t),
        (Class::Pointer(_), Class::Integer(_)) => where_met(pair.right_is_null, Meeting::AsLeft),
        (Class::Integer(_), Class::Pointer(_)) => where_met(pair.left_is_null, Meeting::AsRight),
        (Class::Other, Class::Other) => where_met(are_same, Meeting::AsTheyAre),
        _ => Meeting::NoMeeting,
    }
}

fn where_met(holds: bool, meeting: Meeting) -> Meeting
    ensures { result ≡ where_met holds meeting }
{
    if holds { meeting } else { Meeting::NoMeeting }
}

fn pointers_meet(pair: Pair, left: Target, right: Target) -> Meeting
    ensures { result ≡ pointers_meet pair left right }
{
    if pair.same_pointee {
        Meeting::SamePointee
    } else if pair.right_is_null {
        Meeting::AsLeft
    } else if pair.left_is_null {
        Meeting::AsRight
    } else if may_meet(false, left, right) {
        Meeting::ToVoid
    } else {
        Meeting::NoMeeting
    }
}

fn shape_of(
    alloc: Global,
    meeting: Meeting,
    line: Line,
    first: &TypedValue,
    second: &TypedValue,
) -> Result<Shape, Refusal>
    ensures { Gives shape_view result (shape_of meeting line (value_of first.now) (value_of second.now)) }
{
    let (left, right) = (first.c_type.words(), second.c_type.words());
    match meeting {
        Meeting::Arithmetic(t) => shaped(integer(t), integer_type(alloc, t)),
        Meeting::SamePointee => {
            let target = unqualified(pointee(left));
            shaped(POINTER, merged_pointer(alloc, target, left, right))
        }
        Meeting::ToVoid => {
            let target = [TypeWord::Void];
            shaped(POINTER, merged_pointer(alloc, &target, left, right))
        }
        Meeting::AsLeft => shaped(POINTER, copied(alloc, left)),
        Meeting::AsRight => shaped(POINTER, copied(alloc, right)),
        Meeting::AsTheyAre => shaped(first.tree.kind, copied(alloc, left)),
        Meeting::NoMeeting => {
            let rule = Rule::Operands;
            Err(Refusal::Fault(Fault { rule, line }))
        }
    }
}

fn shaped(kind: Kind, c_type: Result<CType, AllocError>) -> Result<Shape, Refusal>
    ensures ok { IfOk result (λ shape. (shape.kind ≡ kind) × (c_type ≡ Ok shape.c_type)) }
    ensures err { (fault : AnyRefusal) → result ≡ Err fault → fault ≡ Memory }
{
    let c_type = c_type?;
    Ok(Shape { kind, c_type })
}

fn copied(alloc: Global, words: &[TypeWord]) -> Result<CType, AllocError>
    ensures { IfOk result (λ c_type. c_type ≡ words.now) }
{
    let words = words.to_vec(alloc)?;
    Ok(CType::new(words))
}

fn merged_pointer(
    alloc: Global,
    target: &[TypeWord],
    left: &[TypeWord],
    right: &[TypeWord],
) -> Result<CType, AllocError>
    ensures { IfOk result (λ c_type. c_type ≡ merged_pointer target.now left.now right.now) }
{
    let is_const = is_const(pointee(left)) || is_const(pointee(right));
    let target = qualified(alloc, is_const, target)?;
    pointer_to(alloc, target.words())
}

fn chosen(
    alloc: Global,
    line: Line,
    kind: Kind,
    condition: Expression,
    first: Expression,
    second: Expression,
) -> Result<Expression, AllocError>
    ensures { IfOk result (λ tree. expression_of tree
        ≡ chosen line kind (expression_of condition) (expression_of first) (expression_of second)) }
{
    let operands = both_converted(alloc, kind, first, second);
    let (condition, (first, second)) = beside(condition, operands)?;
    let (condition, first, second) = boxed_three(alloc, condition, first, second)?;
    let node = Node::Conditional(condition, first, second);
    Ok(Expression { kind, line, node })
}

fn both_converted(
    alloc: Global,
    kind: Kind,
    first: Expression,
    second: Expression,
) -> Result<(Expression, Expression), AllocError>
    ensures { IfOk result (λ both. (expression_of both.0 ≡ converted kind (expression_of first))
        × (expression_of both.1 ≡ converted kind (expression_of second))) }
{
    let (second, first) = beside(second, converted(alloc, kind, first))?;
    beside(first, converted(alloc, kind, second))
}

// Three values, each in a block of its own.
fn boxed_three<T: Drop, U: Drop, V: Drop>(
    alloc: Global,
    first: T,
    second: U,
    third: V,
) -> Result<(Boxed<T>, Boxed<U>, Boxed<V>), AllocError>
    ensures { IfOk result (λ three. (three.0 ≡ first) × ((three.1 ≡ second) × (three.2 ≡ third))) }
{
    let (second, third) = boxed_pair(alloc, second, third)?;
    let first = Boxed::new(alloc, first)?;
    Ok((first, second, third))
}
