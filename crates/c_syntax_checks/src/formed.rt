//! Which expressions, declarators and specifiers are well formed, where some names are typedef names (C99 6.5, 6.7).

ghost use Rattle.std.specs.Prelude.{◌≡◌, IsTrue, ◌↔◌, ◌≤◌, ◌<◌, true, false};
ghost use Rattle.c_syntax.specs.Formed as formed;
ghost use Rattle.c_syntax.specs.View as view;

use c_lexer::{Punctuator, Spelling};
use c_syntax::declarators::{has_name, is_direct, is_lone_void, is_unnamed};
use c_syntax::operators::{
    binary_precedence, is_assignment, is_member_operator, is_postfix_operator, operand_precedence,
    precedence,
};
use c_syntax::position::Position;
use c_syntax::specifiers::{has_typedef, names_one_type};
use c_syntax::tree::{
    Arguments, Declarator, Enumerator, Expression, Member, Parameters, Specifier, TypedDeclarator,
};
use tree_containers::Boxed;

// Whether a spelling is among typedef names.
#[tactic(auto, unfolding(c_syntax::specs::Formed::is_among))]
fn is_among(names: &[Spelling], name: &Spelling) -> bool
    ensures { result ≡ formed.is_among name.now names.now }
{
    for other in names {
        if other.is(name) {
            return true;
        }
    }
    false
}

/// Whether it is a well-formed expression (C99 6.5.1 to 6.5.17).
#[cycle(shapes)]
pub(crate) fn is_expression<'r, 'a>(
    names: &'r [Spelling<'a>],
    expression: &'r Expression<'a>,
) -> bool
    ensures { IsTrue result ↔ formed.IsExpression names.now (view.expression_of expression.now) }
{
    match expression {
        Expression::Identifier(name) => !is_among(names, &name.spelling),
        Expression::Integer(_) | Expression::Character(_) | Expression::Strings(_, _) => true,
        Expression::Parenthesized(_, inner, _) => is_expression(names, inner.get()),
        Expression::Subscript(array, _, index, _) => {
            is_operand(names, 16, array) && is_boxed(names, index)
        }
        Expression::Call(called, _, arguments, _) => {
            is_operand(names, 16, called) && are_arguments(names, arguments)
        }
        Expression::Member(whole, operator, _, _) => {
            is_member_operator(*operator) && is_operand(names, 16, whole)
        }
        Expression::Postfix(operand, operator, _) => {
            is_postfix_operator(*operator) && is_operand(names, 16, operand)
        }
        Expression::Unary(operator, _, operand) => {
            binds_operand(*operator, operand) && is_boxed(names, operand)
        }
        Expression::SizeofExpression(_, operand) => is_operand(names, 15, operand),
        Expression::SizeofType(_, _, name, _) => is_type_name(names, name.get()),
        Expression::Cast(_, name, _, operand) => {
            is_type_name(names, name.get()) && is_operand(names, 14, operand)
        }
        Expression::Binary(first, operator, _, second) => {
            binds_operands(first, *operator, second)
                && is_boxed(names, first)
                && is_boxed(names, second)
        }
        Expression::Conditional(condition, _, first, _, second) => {
            is_operand(names, 4, condition)
                && is_boxed(names, first)
                && is_operand(names, 3, second)
        }
        Expression::Assignment(first, operator, _, second) => {
            is_assignment(*operator) && is_operand(names, 15, first) && is_operand(names, 2, second)
        }
    }
}

/// Whether an expression in a block of its own is well formed.
#[cycle(shapes)]
fn is_boxed<'r, 'a>(names: &'r [Spelling<'a>], boxed: &'r Boxed<Expression<'a>>) -> bool
    ensures { IsTrue result ↔ formed.IsExpression names.now (view.expression_of boxed.now) }
{
    is_expression(names, boxed.get())
}

/// Whether an operand binds at least this tightly and is well formed.
#[cycle(shapes)]
fn is_operand<'r, 'a>(
    names: &'r [Spelling<'a>],
    least: u8,
    operand: &'r Boxed<Expression<'a>>,
) -> bool
    ensures { IsTrue result ↔ ((least ≤ formed.precedence (view.expression_of operand.now))
        × formed.IsExpression names.now (view.expression_of operand.now)) }
{
    least <= precedence(operand.get()) && is_expression(names, operand.get())
}

/// Whether a unary operator may stand before this operand (C99 6.5.3).
fn binds_operand<'r, 'a>(operator: Punctuator, operand: &'r Boxed<Expression<'a>>) -> bool
    ensures { IsTrue result ↔ ((1 ≤ formed.operand_precedence operator)
        × (formed.operand_precedence operator ≤ formed.precedence (view.expression_of operand.now))) }
{
    let least = operand_precedence(operator);
    1 <= least && least <= precedence(operand.get())
}

/// Whether a binary operator may stand between these operands (C99 6.5.5 to 6.5.14, 6.5.17).
fn binds_operands<'r, 'a>(
    first: &'r Boxed<Expression<'a>>,
    operator: Punctuator,
    second: &'r Boxed<Expression<'a>>,
) -> bool
    ensures { IsTrue result ↔ ((1 ≤ formed.binary_precedence operator)
        × (formed.binary_precedence operator ≤ formed.precedence (view.expression_of first.now))
        × (formed.binary_precedence operator < formed.precedence (view.expression_of second.now))) }
{
    let precedence_between = binary_precedence(operator);
    1 <= precedence_between
        && precedence_between <= precedence(first.get())
        && precedence_between < precedence(second.get())
}

/// Whether they are well-formed arguments, each an assignment expression (C99 6.5.2.2).
#[cycle(shapes)]
#[tactic(auto, using(c_syntax::proofs::ListViews::arguments_view))]
fn are_arguments<'r, 'a>(names: &'r [Spelling<'a>], arguments: &'r Arguments<'a>) -> bool
    ensures { IsTrue result ↔ formed.AreArguments names.now (view.arguments_of arguments.now) }
{
    match arguments {
        Arguments::Empty => true,
        Arguments::Given(first, others) => {
            is_argument(names, first.get()) && are_more_arguments(names, others.as_slice())
        }
    }
}

/// Whether it is a well-formed assignment expression (C99 6.5.16).
#[cycle(shapes)]
pub(crate) fn is_argument<'r, 'a>(names: &'r [Spelling<'a>], argument: &'r Expression<'a>) -> bool
    ensures { IsTrue result ↔ ((2 ≤ formed.precedence (view.expression_of argument.now))
        × formed.IsExpression names.now (view.expression_of argument.now)) }
{
    2 <= precedence(argument) && is_expression(names, argument)
}

/// Whether the arguments behind the first are well formed.
#[cycle(shapes)]
fn are_more_arguments<'r, 'a>(
    names: &'r [Spelling<'a>],
    others: &'r [(Position, Boxed<Expression<'a>>)],
) -> bool
    ensures { IsTrue result ↔ formed.AreMoreArguments names.now (view.more_arguments_in others.now) }
{
    for (_, argument) in others {
        if !is_argument(names, argument.get()) {
            return false;
        }
    }
    true
}

/// Whether it is a well-formed type name (C99 6.7.6).
#[cycle(shapes)]
#[tactic(auto, using(c_syntax::proofs::TypedView::typed_view))]
fn is_type_name<'r, 'a>(names: &'r [Spelling<'a>], typed: &'r TypedDeclarator<'a>) -> bool
    ensures { IsTrue result ↔ formed.IsTypeName names.now (view.typed_of typed.now) }
{
    let declarator = typed.declarator.get();
    are_plain(names, typed.specifiers.as_slice())
        && is_declarator(names, declarator)
        && !has_name(declarator)
}

/// Whether it is a well-formed parameter (C99 6.7.5.3).
#[cycle(shapes)]
#[tactic(auto, using(c_syntax::proofs::TypedView::typed_view))]
fn is_parameter<'r, 'a>(names: &'r [Spelling<'a>], typed: &'r TypedDeclarator<'a>) -> bool
    ensures { IsTrue result ↔ formed.IsParameter names.now (view.typed_of typed.now) }
{
    are_plain(names, typed.specifiers.as_slice()) && is_declarator(names, typed.declarator.get())
}

/// Whether it is a well-formed declarator, abstract or not (C99 6.7.5, 6.7.6).
#[cycle(shapes)]
pub(crate) fn is_declarator<'r, 'a>(
    names: &'r [Spelling<'a>],
    declarator: &'r Declarator<'a>,
) -> bool
    ensures { IsTrue result ↔ formed.IsDeclarator names.now (view.declarator_of declarator.now) }
{
    match declarator {
        Declarator::Named(name) => !is_among(names, &name.spelling),
        Declarator::Unnamed => true,
        Declarator::Pointer(_, _, inner) => is_declarator(names, inner.get()),
        Declarator::Parenthesized(_, inner, _) => {
            let inner = inner.get();
            !is_unnamed(inner) && is_declarator(names, inner)
        }
        Declarator::OpenArray(inner, _, _) => {
            let inner = inner.get();
            is_direct(inner) && is_declarator(names, inner)
        }
        Declarator::Array(inner, _, size, _) => {
            let inner = inner.get();
            is_direct(inner) && is_declarator(names, inner) && is_operand(names, 3, size)
        }
        Declarator::Function(inner, _, parameters, _) => {
            let inner = inner.get();
            is_direct(inner) && is_declarator(names, inner) && are_parameters(names, parameters)
        }
    }
}

/// Whether it is a well-formed declarator that is not abstract (C99 6.7.5).
#[cycle(shapes)]
pub(crate) fn is_named<'r, 'a>(names: &'r [Spelling<'a>], declarator: &'r Declarator<'a>) -> bool
    ensures { IsTrue result ↔ formed.IsNamed names.now (view.declarator_of declarator.now) }
{
    has_name(declarator) && is_declarator(names, declarator)
}

/// Whether they are well-formed parameters (C99 6.7.5.3).
#[cycle(shapes)]
#[tactic(auto, using(c_syntax::proofs::ListViews::parameters_view))]
fn are_parameters<'r, 'a>(names: &'r [Spelling<'a>], parameters: &'r Parameters<'a>) -> bool
    ensures { IsTrue result ↔ formed.AreParameters names.now (view.parameters_of parameters.now) }
{
    match parameters {
        Parameters::Empty | Parameters::Void(_) => true,
        Parameters::Given(first, others) => {
            !is_lone_void(first.get(), others.as_slice())
                && is_parameter(names, first.get())
                && are_more_parameters(names, others.as_slice())
        }
    }
}

/// Whether the parameters behind the first are well formed.
#[cycle(shapes)]
fn are_more_parameters<'r, 'a>(
    names: &'r [Spelling<'a>],
    others: &'r [(Position, TypedDeclarator<'a>)],
) -> bool
    ensures { IsTrue result ↔ formed.AreMoreParameters names.now (view.more_parameters_in others.now) }
{
    for (_, parameter) in others {
        if !is_parameter(names, parameter) {
            return false;
        }
    }
    true
}

/// Whether each specifier is well formed by itself.
#[cycle(shapes)]
fn is_each_specifier<'r, 'a>(names: &'r [Spelling<'a>], specifiers: &'r [Specifier<'a>]) -> bool
    ensures { IsTrue result ↔ formed.EachSpecifier names.now (view.specifiers_in specifiers.now) }
{
    for specifier in specifiers {
        if !is_specifier(names, specifier) {
            return false;
        }
    }
    true
}

/// Whether they are well-formed specifiers of one type, and of no typedef.
#[cycle(shapes)]
fn are_plain<'r, 'a>(names: &'r [Spelling<'a>], specifiers: &'r [Specifier<'a>]) -> bool
    ensures { IsTrue result ↔ ((formed.names_one_type (view.specifiers_in specifiers.now) ≡ true)
        × formed.EachSpecifier names.now (view.specifiers_in specifiers.now)
        × (formed.has_typedef (view.specifiers_in specifiers.now) ≡ false)) }
{
    names_one_type(specifiers) && is_each_specifier(names, specifiers) && !has_typedef(specifiers)
}

/// Whether a specifier is well formed by itself (C99 6.7.1 to 6.7.4).
#[cycle(shapes)]
#[tactic(auto, using(c_syntax::proofs::ListViews::enumeration_view))]
fn is_specifier<'r, 'a>(names: &'r [Spelling<'a>], specifier: &'r Specifier<'a>) -> bool
    ensures { IsTrue result ↔ formed.IsSpecifier names.now (view.specifier_of specifier.now) }
{
    match specifier {
        Specifier::Keyword(_, _) | Specifier::Structure(_, _, _) | Specifier::Enumeration(_, _) =>
            true,
        Specifier::TypedefName(name) => is_among(names, &name.spelling),
        Specifier::StructureBody(_, _, _, _, members, _) => {
            !is_no_member(members.as_slice()) && are_members(names, members.as_slice())
        }
        Specifier::EnumerationBody(_, _, _, first, others, _, _) => {
            is_enumerator(names, first.get()) && are_more_enumerators(names, others.as_slice())
        }
    }
}

/// Whether a structure has no members.
#[tactic(auto, using(c_syntax::proofs::MemberView::some_members))]
fn is_no_member<'r, 'a>(members: &'r [Member<'a>]) -> bool
    ensures { result ≡ formed.is_no_member (view.members_in members.now) }
{
    match members {
        [] => true,
        [_, ..] => false,
    }
}

/// Whether declarations of members are well formed (C99 6.7.2.1).
#[cycle(shapes)]
fn are_members<'r, 'a>(names: &'r [Spelling<'a>], members: &'r [Member<'a>]) -> bool
    ensures { IsTrue result ↔ formed.AreMembers names.now (view.members_in members.now) }
{
    for member in members {
        if !is_member(names, member) {
            return false;
        }
    }
    true
}

/// Whether a declaration of members is well formed (C99 6.7.2.1, without bit-fields).
#[cycle(shapes)]
#[tactic(auto, using(c_syntax::proofs::MemberView::member_view))]
fn is_member<'r, 'a>(names: &'r [Spelling<'a>], member: &'r Member<'a>) -> bool
    ensures { IsTrue result ↔ formed.IsMember names.now (view.member_of member.now) }
{
    are_plain(names, member.specifiers.as_slice())
        && is_named(names, member.first.get())
        && are_more_declarators(names, member.others.as_slice())
}

/// Whether the declarators behind the first are well formed, and none is abstract.
#[cycle(shapes)]
fn are_more_declarators<'r, 'a>(
    names: &'r [Spelling<'a>],
    others: &'r [(Position, Boxed<Declarator<'a>>)],
) -> bool
    ensures { IsTrue result ↔ formed.AreMoreDeclarators names.now (view.more_declarators_in others.now) }
{
    for (_, declarator) in others {
        if !is_named(names, declarator.get()) {
            return false;
        }
    }
    true
}

/// Whether an enumerator is well formed (C99 6.7.2.2).
#[cycle(shapes)]
fn is_enumerator<'r, 'a>(names: &'r [Spelling<'a>], enumerator: &'r Enumerator<'a>) -> bool
    ensures { IsTrue result ↔ formed.IsEnumerator names.now (view.enumerator_of enumerator.now) }
{
    match enumerator {
        Enumerator::Plain(name) => !is_among(names, &name.spelling),
        Enumerator::Valued(name, _, value) => {
            !is_among(names, &name.spelling) && is_operand(names, 3, value)
        }
    }
}

/// Whether the enumerators behind the first are well formed.
#[cycle(shapes)]
fn are_more_enumerators<'r, 'a>(
    names: &'r [Spelling<'a>],
    others: &'r [(Position, Enumerator<'a>)],
) -> bool
    ensures { IsTrue result ↔ formed.AreMoreEnumerators names.now (view.more_enumerators_in others.now) }
{
    for (_, enumerator) in others {
        if !is_enumerator(names, enumerator) {
            return false;
        }
    }
    true
}

/// Whether they are well-formed specifiers of one type (C99 6.7).
pub(crate) fn are_specifiers<'r, 'a>(
    names: &'r [Spelling<'a>],
    specifiers: &'r [Specifier<'a>],
) -> bool
    ensures { IsTrue result ↔ formed.AreSpecifiers names.now (view.specifiers_in specifiers.now) }
{
    names_one_type(specifiers) && is_each_specifier(names, specifiers)
}
