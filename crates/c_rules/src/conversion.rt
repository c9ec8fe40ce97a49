//! Casts, and conversions as by assignment (C99 6.5.4, 6.5.16.1).

ghost use Rattle.std.specs.Prelude.{◌≡◌};
ghost use Rattle.c_tree.specs.View.{expression_of};
ghost use Rattle.c_faults.specs.Answer.{Gives};
ghost use Rattle.c_rules.specs.Conversions.{are_one_structure, assigned, cast, cast_kind, is_structure_type};
ghost use Rattle.c_rules.specs.Conversions.{is_void_type, passed, passing_of};
ghost use Rattle.c_rules.specs.Values.{value_of};

use crate::class::Class;
use crate::holding::beside;
use crate::row::may_meet;
use crate::unary::is_scalar;
use crate::value::{TypedValue, converted, integer, is_null, same_pointee, unqualified};
use c_faults::{Fault, Refusal, Rule};
use c_tree::{CType, Expression, Extent, Kind, Node, TypeWord, same_words};
use obj_memory::Scalar;
use sb_base::Line;
use std::alloc::Global;
use tree_containers::Boxed;

const POINTER: Kind = Kind::Scalar(Scalar::Pointer);

/// How a value comes to an object of another type.
#[derive(Clone, Copy)]
pub enum Passing {
    /// Converted to this kind, where it has another.
    Convert(Kind),
    /// As it is.
    AsItIs,
    /// Not at all.
    NoWay,
}

/// A cast of a value to a type, with the line of its `(`. The rule on casts is violated where it is neither to void nor
/// between integers and pointers.
#[tactic(auto, unfolding(crate::specs::Conversions::cast))]
pub fn cast(
    alloc: Global,
    structures: &[Option<Extent>],
    line: Line,
    to: &[TypeWord],
    value: TypedValue,
) -> Result<TypedValue, Refusal>
    ensures { Gives value_of result (cast structures.now line to.now (value_of value)) }
{
    let is_void = is_void_type(unqualified(to));
    let from = Class::of(structures, value.c_type.words());
    let Some(kind) = cast_kind(is_void, Class::of(structures, to), from) else {
        let rule = Rule::NoCast;
        return Err(Refusal::Fault(Fault { rule, line }));
    };
    let node = Node::Cast(Boxed::new(alloc, value.tree)?);
    let (tree, words) = beside(
        Expression { kind, line, node },
        unqualified(to).to_vec(alloc),
    )?;
    let c_type = CType::new(words);
    Ok(TypedValue { c_type, tree })
}

fn is_void_type(words: &[TypeWord]) -> bool
    ensures { result ≡ is_void_type words.now }
{
    matches!(words, [TypeWord::Void, ..])
}

fn is_structure_type(words: &[TypeWord]) -> bool
    ensures { result ≡ is_structure_type words.now }
{
    matches!(words, [TypeWord::Structure(_), ..])
}

fn cast_kind(is_void: bool, to: Class, from: Class) -> Option<Kind>
    ensures { result ≡ cast_kind is_void to from }
{
    if is_void {
        return Some(Kind::Void);
    }
    match to {
        Class::Integer(t) if is_scalar(from) => Some(integer(t)),
        Class::Pointer(_) if is_scalar(from) => Some(POINTER),
        _ => None,
    }
}

/// A value as one of a type, as by assignment, with the line of the token at which that is judged. The rule on
/// conversions
/// is violated where C99 6.5.16.1 does not allow it.
#[tactic(auto, unfolding(crate::specs::Conversions::assigned))]
pub fn assigned(
    alloc: Global,
    structures: &[Option<Extent>],
    line: Line,
    to: &[TypeWord],
    value: TypedValue,
) -> Result<Expression, Refusal>
    ensures { Gives expression_of result (assigned structures.now line to.now (value_of value)) }
{
    let same = same_pointee(to, value.c_type.words());
    let structure = are_one_structure(unqualified(to), unqualified(value.c_type.words()));
    let from = Class::of(structures, value.c_type.words());
    let passing = passing_of(
        same,
        is_null(&value),
        structure,
        Class::of(structures, to),
        from,
    );
    passed(alloc, passing, line, value.tree)
}

fn are_one_structure(to: &[TypeWord], from: &[TypeWord]) -> bool
    ensures { result ≡ are_one_structure to.now from.now }
{
    is_structure_type(to) && same_words(to, from)
}

fn passing_of(same: bool, is_null: bool, structure: bool, to: Class, from: Class) -> Passing
    ensures { result ≡ passing_of same is_null structure to from }
{
    match (to, from) {
        (Class::Integer(j), Class::Integer(_)) => Passing::Convert(integer(j)),
        (Class::Pointer(s), Class::Pointer(t)) if may_meet(same, s, t) || is_null => {
            Passing::Convert(POINTER)
        }
        (Class::Pointer(_), Class::Integer(_)) if is_null => Passing::Convert(POINTER),
        (Class::Other, Class::Other) if structure => Passing::AsItIs,
        _ => Passing::NoWay,
    }
}

fn passed(
    alloc: Global,
    passing: Passing,
    line: Line,
    tree: Expression,
) -> Result<Expression, Refusal>
    ensures { Gives expression_of result (passed passing line (expression_of tree)) }
{
    match passing {
        Passing::Convert(kind) => {
            let tree = converted(alloc, kind, tree)?;
            Ok(tree)
        }
        Passing::AsItIs => Ok(tree),
        Passing::NoWay => {
            let rule = Rule::NoConversion;
            Err(Refusal::Fault(Fault { rule, line }))
        }
    }
}
