//! Whether a tree has no more than some levels of nesting. No function here calls itself more deeply than the levels
//! that it is given.

ghost use Rattle.std.specs.Prelude.{IsTrue, ◌↔◌, ◌≤◌, ◌<◌};
ghost use Rattle.c_syntax.specs.Levels as spec;
ghost use Rattle.c_syntax.specs.View as view;

use c_syntax::position::Position;
use c_syntax::tree::{
    Arguments, Declarator, Enumerator, Expression, Member, Parameters, Specifier, TypedDeclarator,
};
use tree_containers::Boxed;

/// Whether an expression has no more levels (C99 6.5).
#[cycle(levels)]
pub(crate) fn expression_fits<'r, 'a>(expression: &'r Expression<'a>, levels: usize) -> bool
    ensures { IsTrue result ↔ (spec.expression_levels (view.expression_of expression.now) ≤ levels) }
{
    match expression {
        Expression::Identifier(_)
        | Expression::Integer(_)
        | Expression::Character(_)
        | Expression::Strings(_, _) => true,
        Expression::Parenthesized(_, inner, _)
        | Expression::Member(inner, _, _, _)
        | Expression::Postfix(inner, _, _)
        | Expression::Unary(_, _, inner)
        | Expression::SizeofExpression(_, inner) => operand_fits(inner, levels),
        Expression::Subscript(first, _, second, _)
        | Expression::Binary(first, _, _, second)
        | Expression::Assignment(first, _, _, second) => {
            operand_fits(first, levels) && operand_fits(second, levels)
        }
        Expression::Call(called, _, arguments, _) => {
            levels > 0 && operand_fits(called, levels) && arguments_fit(arguments, levels - 1)
        }
        Expression::SizeofType(_, _, name, _) => name_fits(name, levels),
        Expression::Cast(_, name, _, operand) => {
            name_fits(name, levels) && operand_fits(operand, levels)
        }
        Expression::Conditional(condition, _, first, _, second) => {
            operand_fits(condition, levels)
                && operand_fits(first, levels)
                && operand_fits(second, levels)
        }
    }
}

/// Whether an operand has fewer levels.
#[cycle(levels)]
fn operand_fits<'r, 'a>(operand: &'r Boxed<Expression<'a>>, levels: usize) -> bool
    ensures { IsTrue result ↔ (spec.expression_levels (view.expression_of operand.now) < levels) }
{
    levels > 0 && expression_fits(operand.get(), levels - 1)
}

/// Whether a type name has fewer levels.
#[cycle(levels)]
fn name_fits<'r, 'a>(name: &'r Boxed<TypedDeclarator<'a>>, levels: usize) -> bool
    ensures { IsTrue result ↔ (spec.typed_levels (view.typed_of name.now) < levels) }
{
    levels > 0 && typed_fits(name.get(), levels - 1)
}

/// Whether arguments have no more levels (C99 6.5.2.2).
#[cycle(levels)]
#[tactic(auto, using(c_syntax::proofs::ListViews::arguments_view))]
fn arguments_fit<'r, 'a>(arguments: &'r Arguments<'a>, levels: usize) -> bool
    ensures { IsTrue result ↔ (spec.arguments_levels (view.arguments_of arguments.now) ≤ levels) }
{
    match arguments {
        Arguments::Empty => true,
        Arguments::Given(first, others) => {
            expression_fits(first.get(), levels) && more_arguments_fit(others.as_slice(), levels)
        }
    }
}

/// Whether the arguments behind the first have no more levels.
#[cycle(levels)]
fn more_arguments_fit(others: &[(Position, Boxed<Expression>)], levels: usize) -> bool
    ensures { IsTrue result ↔ (spec.more_arguments_levels (view.more_arguments_in others.now) ≤ levels) }
{
    for (_, argument) in others {
        if !expression_fits(argument.get(), levels) {
            return false;
        }
    }
    true
}

/// Whether a type name or parameter has no more levels (C99 6.7.5, 6.7.6).
#[cycle(levels)]
#[tactic(auto, using(c_syntax::proofs::TypedView::typed_view))]
fn typed_fits<'r, 'a>(typed: &'r TypedDeclarator<'a>, levels: usize) -> bool
    ensures { IsTrue result ↔ (spec.typed_levels (view.typed_of typed.now) ≤ levels) }
{
    specifiers_fit(typed.specifiers.as_slice(), levels)
        && declarator_fits(typed.declarator.get(), levels)
}

/// Whether a declarator has no more levels (C99 6.7.5).
#[cycle(levels)]
pub(crate) fn declarator_fits<'r, 'a>(declarator: &'r Declarator<'a>, levels: usize) -> bool
    ensures { IsTrue result ↔ (spec.declarator_levels (view.declarator_of declarator.now) ≤ levels) }
{
    match declarator {
        Declarator::Named(_) | Declarator::Unnamed => true,
        Declarator::Pointer(_, _, inner)
        | Declarator::Parenthesized(_, inner, _)
        | Declarator::OpenArray(inner, _, _) => inner_fits(inner, levels),
        Declarator::Array(inner, _, size, _) => {
            inner_fits(inner, levels) && operand_fits(size, levels)
        }
        Declarator::Function(inner, _, parameters, _) => {
            levels > 0 && inner_fits(inner, levels) && parameters_fit(parameters, levels - 1)
        }
    }
}

/// Whether an inner declarator has fewer levels.
#[cycle(levels)]
fn inner_fits<'r, 'a>(inner: &'r Boxed<Declarator<'a>>, levels: usize) -> bool
    ensures { IsTrue result ↔ (spec.declarator_levels (view.declarator_of inner.now) < levels) }
{
    levels > 0 && declarator_fits(inner.get(), levels - 1)
}

/// Whether parameters have no more levels (C99 6.7.5.3).
#[cycle(levels)]
#[tactic(auto, using(c_syntax::proofs::ListViews::parameters_view))]
fn parameters_fit<'r, 'a>(parameters: &'r Parameters<'a>, levels: usize) -> bool
    ensures { IsTrue result ↔ (spec.parameters_levels (view.parameters_of parameters.now) ≤ levels) }
{
    match parameters {
        Parameters::Empty | Parameters::Void(_) => true,
        Parameters::Given(first, others) => {
            typed_fits(first.get(), levels) && more_parameters_fit(others.as_slice(), levels)
        }
    }
}

/// Whether the parameters behind the first have no more levels.
#[cycle(levels)]
fn more_parameters_fit(others: &[(Position, TypedDeclarator)], levels: usize) -> bool
    ensures { IsTrue result ↔ (spec.more_parameters_levels (view.more_parameters_in others.now) ≤ levels) }
{
    for (_, parameter) in others {
        if !typed_fits(parameter, levels) {
            return false;
        }
    }
    true
}

/// Whether specifiers have no more levels (C99 6.7).
#[cycle(levels)]
pub(crate) fn specifiers_fit<'r, 'a>(specifiers: &'r [Specifier<'a>], levels: usize) -> bool
    ensures { IsTrue result ↔ (spec.specifiers_levels (view.specifiers_in specifiers.now) ≤ levels) }
{
    for specifier in specifiers {
        if !specifier_fits(specifier, levels) {
            return false;
        }
    }
    true
}

/// Whether a specifier has no more levels (C99 6.7.1 to 6.7.4).
#[cycle(levels)]
#[tactic(auto, using(c_syntax::proofs::ListViews::enumeration_view))]
fn specifier_fits<'r, 'a>(specifier: &'r Specifier<'a>, levels: usize) -> bool
    ensures { IsTrue result ↔ (spec.specifier_levels (view.specifier_of specifier.now) ≤ levels) }
{
    match specifier {
        Specifier::Keyword(_, _)
        | Specifier::TypedefName(_)
        | Specifier::Structure(_, _, _)
        | Specifier::Enumeration(_, _) => true,
        Specifier::StructureBody(_, _, _, _, members, _) => {
            levels > 0 && members_fit(members.as_slice(), levels - 1)
        }
        Specifier::EnumerationBody(_, _, _, first, others, _, _) => {
            levels > 0
                && enumerator_fits(first.get(), levels - 1)
                && more_enumerators_fit(others.as_slice(), levels - 1)
        }
    }
}

/// Whether declarations of members have no more levels (C99 6.7.2.1).
#[cycle(levels)]
fn members_fit<'r, 'a>(members: &'r [Member<'a>], levels: usize) -> bool
    ensures { IsTrue result ↔ (spec.members_levels (view.members_in members.now) ≤ levels) }
{
    for member in members {
        if !member_fits(member, levels) {
            return false;
        }
    }
    true
}

/// Whether a declaration of members has no more levels.
#[cycle(levels)]
#[tactic(auto, using(c_syntax::proofs::MemberView::member_view))]
fn member_fits<'r, 'a>(member: &'r Member<'a>, levels: usize) -> bool
    ensures { IsTrue result ↔ (spec.member_levels (view.member_of member.now) ≤ levels) }
{
    specifiers_fit(member.specifiers.as_slice(), levels)
        && declarator_fits(member.first.get(), levels)
        && more_declarators_fit(member.others.as_slice(), levels)
}

/// Whether declarators behind commas have no more levels.
#[cycle(levels)]
fn more_declarators_fit(others: &[(Position, Boxed<Declarator>)], levels: usize) -> bool
    ensures { IsTrue result ↔ (spec.more_declarators_levels (view.more_declarators_in others.now) ≤ levels) }
{
    for (_, declarator) in others {
        if !declarator_fits(declarator.get(), levels) {
            return false;
        }
    }
    true
}

/// Whether an enumerator has no more levels (C99 6.7.2.2).
#[cycle(levels)]
fn enumerator_fits<'r, 'a>(enumerator: &'r Enumerator<'a>, levels: usize) -> bool
    ensures { IsTrue result ↔ (spec.enumerator_levels (view.enumerator_of enumerator.now) ≤ levels) }
{
    match enumerator {
        Enumerator::Plain(_) => true,
        Enumerator::Valued(_, _, value) => expression_fits(value.get(), levels),
    }
}

/// Whether enumerators behind commas have no more levels.
#[cycle(levels)]
fn more_enumerators_fit(others: &[(Position, Enumerator)], levels: usize) -> bool
    ensures { IsTrue result ↔ (spec.more_enumerators_levels (view.more_enumerators_in others.now) ≤ levels) }
{
    for (_, enumerator) in others {
        if !enumerator_fits(enumerator, levels) {
            return false;
        }
    }
    true
}
