//! The lists in expressions, declarators and specifiers, which contain each other (C99 6.5, 6.7).

ghost use Rattle.std.specs.Prelude.{◌≡◌, List, suc};
ghost use Rattle.c_syntax.specs.View as view;
ghost use Rattle.c_counts.specs.Counts as counts;
ghost use Rattle.c_counts.specs.Counts.{Count};
ghost use Rattle.c_counts.specs.Excess.{with_counts};

use crate::excess::Excess;
use c_syntax::position::Position;
use c_syntax::tree::{
    Arguments, Declarator, Enumerator, Expression, Member, Parameters, Specifier, TypedDeclarator,
};
use tree_containers::Boxed;

/// With the lists in an expression.
#[cycle(trees)]
pub(crate) fn expression(so_far: Excess, tree: &Expression) -> Excess
    ensures { (cs : List Count) → with_counts cs result
        ≡ with_counts (counts.expression (view.expression_of tree.now) cs) so_far }
{
    match tree {
        Expression::Identifier(_)
        | Expression::Integer(_)
        | Expression::Character(_)
        | Expression::Strings(_, _) => so_far,
        Expression::Parenthesized(_, inner, _)
        | Expression::Member(inner, _, _, _)
        | Expression::Postfix(inner, _, _)
        | Expression::Unary(_, _, inner)
        | Expression::SizeofExpression(_, inner) => expression(so_far, inner.get()),
        Expression::Call(called, _, given, _) => {
            arguments(expression(so_far, called.get()), given)
        }
        Expression::SizeofType(_, _, name, _) => typed_declarator(so_far, name.get()),
        Expression::Cast(_, name, _, operand) => {
            expression(typed_declarator(so_far, name.get()), operand.get())
        }
        Expression::Subscript(first, _, second, _)
        | Expression::Binary(first, _, _, second)
        | Expression::Assignment(first, _, _, second) => {
            expression(expression(so_far, first.get()), second.get())
        }
        Expression::Conditional(condition, _, first, _, second) => {
            let so_far = expression(so_far, condition.get());
            expression(expression(so_far, first.get()), second.get())
        }
    }
}

// With the lists in arguments (C99 6.5.2.2).
#[cycle(trees)]
fn arguments(so_far: Excess, tree: &Arguments) -> Excess
    ensures { (cs : List Count) → with_counts cs result
        ≡ with_counts (counts.arguments (view.arguments_of tree.now) cs) so_far }
{
    match tree {
        Arguments::Empty => so_far,
        Arguments::Given(first, others) => {
            more_arguments(expression(so_far, first.get()), others.as_slice())
        }
    }
}

#[cycle(trees)]
fn more_arguments(mut so_far: Excess, others: &[(Position, Boxed<Expression>)]) -> Excess
    ensures { (cs : List Count) → with_counts cs result
        ≡ with_counts (counts.more_arguments (view.more_arguments_in others.now) cs) so_far }
{
    for (_, argument) in others {
        so_far = expression(so_far, argument.get());
    }
    so_far
}

// With the lists in a type name or parameter (C99 6.7.5, 6.7.6).
#[cycle(trees)]
fn typed_declarator(so_far: Excess, tree: &TypedDeclarator) -> Excess
    ensures { (cs : List Count) → with_counts cs result
        ≡ with_counts (counts.typed_declarator (view.typed_of tree.now) cs) so_far }
{
    let so_far = specifiers(so_far, tree.specifiers.as_slice());
    declarator(so_far, tree.declarator.get())
}

/// With the lists in a declarator (C99 6.7.5): one of parameters stands before those within.
#[cycle(trees)]
pub(crate) fn declarator(so_far: Excess, tree: &Declarator) -> Excess
    ensures { (cs : List Count) → with_counts cs result
        ≡ with_counts (counts.declarator (view.declarator_of tree.now) cs) so_far }
{
    match tree {
        Declarator::Named(_) | Declarator::Unnamed => so_far,
        Declarator::Pointer(_, _, inner)
        | Declarator::Parenthesized(_, inner, _)
        | Declarator::OpenArray(inner, _, _) => declarator(so_far, inner.get()),
        Declarator::Array(inner, _, size, _) => {
            expression(declarator(so_far, inner.get()), size.get())
        }
        Declarator::Function(inner, _, given, _) => {
            parameters(declarator(so_far, inner.get()), given)
        }
    }
}

// With a list of parameters (C99 6.7.5.3), if it is one, and the lists in them.
#[cycle(trees)]
#[tactic(auto, using(crate::proofs::Members::others_are, c_syntax::proofs::ListViews::parameters_view))]
fn parameters(so_far: Excess, tree: &Parameters) -> Excess
    ensures { (cs : List Count) → with_counts cs result
        ≡ with_counts (counts.parameters_counted (view.parameters_of tree.now)
        (counts.parameters (view.parameters_of tree.now) cs)) so_far }
{
    match tree {
        Parameters::Empty | Parameters::Void(_) => so_far,
        Parameters::Given(first, others) => {
            let others = others.as_slice();
            let so_far = so_far.with_parameters(others.len() as u128 + 1);
            more_parameters(typed_declarator(so_far, first.get()), others)
        }
    }
}

#[cycle(trees)]
fn more_parameters(mut so_far: Excess, others: &[(Position, TypedDeclarator)]) -> Excess
    ensures { (cs : List Count) → with_counts cs result
        ≡ with_counts (counts.more_parameters (view.more_parameters_in others.now) cs) so_far }
{
    for (_, parameter) in others {
        so_far = typed_declarator(so_far, parameter);
    }
    so_far
}

/// With the lists in specifiers (C99 6.7).
#[cycle(trees)]
pub(crate) fn specifiers(mut so_far: Excess, trees: &[Specifier]) -> Excess
    ensures { (cs : List Count) → with_counts cs result
        ≡ with_counts (counts.specifiers (view.specifiers_in trees.now) cs) so_far }
{
    for tree in trees {
        so_far = specifier(so_far, tree);
    }
    so_far
}

#[cycle(trees)]
#[tactic(auto, using(c_syntax::proofs::ListViews::enumeration_view))]
fn specifier(so_far: Excess, tree: &Specifier) -> Excess
    ensures { (cs : List Count) → with_counts cs result
        ≡ with_counts (counts.specifier (view.specifier_of tree.now) cs) so_far }
{
    match tree {
        Specifier::Keyword(_, _)
        | Specifier::TypedefName(_)
        | Specifier::Structure(_, _, _)
        | Specifier::Enumeration(_, _) => so_far,
        Specifier::StructureBody(_, _, _, _, declared, _) => {
            let declared = declared.as_slice();
            members(so_far.with_members(member_count(declared)), declared)
        }
        Specifier::EnumerationBody(_, _, _, first, others, _, _) => {
            more_enumerators(enumerator(so_far, first.get()), others.as_slice())
        }
    }
}

// How many members declarations have (C99 6.7.2.1).
fn member_count(trees: &[Member]) -> u128
    ensures { result ≡ counts.members_in (view.members_in trees.now) }
{
    let mut count = 0;
    for tree in trees {
        count += tree.others.as_slice().len() as u128 + 1;
    }
    count
}

#[cycle(trees)]
fn members(mut so_far: Excess, trees: &[Member]) -> Excess
    ensures { (cs : List Count) → with_counts cs result
        ≡ with_counts (counts.members (view.members_in trees.now) cs) so_far }
{
    for tree in trees {
        so_far = member(so_far, tree);
    }
    so_far
}

#[cycle(trees)]
fn member(so_far: Excess, tree: &Member) -> Excess
    ensures { (cs : List Count) → with_counts cs result
        ≡ with_counts (counts.member (view.member_of tree.now) cs) so_far }
{
    let so_far = specifiers(so_far, tree.specifiers.as_slice());
    let so_far = declarator(so_far, tree.first.get());
    more_declarators(so_far, tree.others.as_slice())
}

#[cycle(trees)]
fn more_declarators(mut so_far: Excess, others: &[(Position, Boxed<Declarator>)]) -> Excess
    ensures { (cs : List Count) → with_counts cs result
        ≡ with_counts (counts.more_declarators (view.more_declarators_in others.now) cs) so_far }
{
    for (_, tree) in others {
        so_far = declarator(so_far, tree.get());
    }
    so_far
}

#[cycle(trees)]
fn enumerator(so_far: Excess, tree: &Enumerator) -> Excess
    ensures { (cs : List Count) → with_counts cs result
        ≡ with_counts (counts.enumerator (view.enumerator_of tree.now) cs) so_far }
{
    match tree {
        Enumerator::Plain(_) => so_far,
        Enumerator::Valued(_, _, value) => expression(so_far, value.get()),
    }
}

#[cycle(trees)]
fn more_enumerators(mut so_far: Excess, others: &[(Position, Enumerator)]) -> Excess
    ensures { (cs : List Count) → with_counts cs result
        ≡ with_counts (counts.more_enumerators (view.more_enumerators_in others.now) cs) so_far }
{
    for (_, tree) in others {
        so_far = enumerator(so_far, tree);
    }
    so_far
}
