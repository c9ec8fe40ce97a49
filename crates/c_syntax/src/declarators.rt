//! What the shape of a declarator says (C99 6.7.5, 6.7.6, 6.9.1).

ghost use Rattle.std.specs.Prelude.{◌≡◌};
ghost use Rattle.c_syntax.specs.Formed as formed;
ghost use Rattle.c_syntax.specs.Tree as tree;
ghost use Rattle.c_syntax.specs.View as view;

use crate::position::Position;
use crate::tree::{Declarator, Parameters, Specifier, TypedDeclarator};
use c_lexer::Keyword;

/// Whether it is not abstract, so it has a name (C99 6.7.5, 6.7.6).
pub fn has_name(declarator: &Declarator) -> bool
    ensures { result ≡ formed.has_name (view.declarator_of declarator.now) }
{
    match declarator {
        Declarator::Named(_) => true,
        Declarator::Unnamed => false,
        Declarator::Pointer(_, _, inner)
        | Declarator::Parenthesized(_, inner, _)
        | Declarator::OpenArray(inner, _, _)
        | Declarator::Array(inner, _, _, _)
        | Declarator::Function(inner, _, _, _) => has_name(inner.get()),
    }
}

/// Whether it is an abstract declarator of which nothing is left (C99 6.7.6).
pub fn is_unnamed(declarator: &Declarator) -> bool
    ensures { result ≡ formed.is_unnamed (view.declarator_of declarator.now) }
{
    matches!(declarator, Declarator::Unnamed)
}

/// Whether it is no pointer, so that `[..]` or `(..)` may stand behind it (C99 6.7.5).
pub fn is_direct(declarator: &Declarator) -> bool
    ensures { result ≡ formed.is_direct (view.declarator_of declarator.now) }
{
    !matches!(declarator, Declarator::Pointer(_, _, _))
}

/// Whether it is a name, which may stand in parentheses that hold nothing else.
pub fn is_plain_name(declarator: &Declarator) -> bool
    ensures { result ≡ formed.is_plain_name (view.declarator_of declarator.now) }
{
    match declarator {
        Declarator::Named(_) => true,
        Declarator::Parenthesized(_, inner, _) => is_plain_name(inner.get()),
        Declarator::Unnamed
        | Declarator::Pointer(_, _, _)
        | Declarator::OpenArray(_, _, _)
        | Declarator::Array(_, _, _, _)
        | Declarator::Function(_, _, _, _) => false,
    }
}

/// Whether a specifier is the word `void`.
fn is_void_word(specifier: &Specifier) -> bool
    ensures { result ≡ formed.is_void (tree.typed (tree.specifiers (view.specifier_of specifier.now) tree.no_specifiers)
        tree.unnamed) }
{
    matches!(specifier, Specifier::Keyword(Keyword::Void, _))
}

/// Whether specifiers are the word `void` alone.
#[tactic(auto, using(crate::proofs::TypedView::two_are_not_void))]
fn are_void(specifiers: &[Specifier]) -> bool
    ensures { result ≡ formed.is_void (tree.typed (view.specifiers_in specifiers.now) tree.unnamed) }
{
    match specifiers {
        [] | [_, _, ..] => false,
        [only] => is_void_word(only),
    }
}

/// Whether a parameter is the word `void` and no declarator.
#[tactic(auto, using(crate::proofs::TypedView::typed_view))]
fn is_void(parameter: &TypedDeclarator) -> bool
    ensures { result ≡ formed.is_void (view.typed_of parameter.now) }
{
    are_void(parameter.specifiers.as_slice()) && is_unnamed(parameter.declarator.get())
}

/// Whether a first parameter is the word `void` and no others follow: this is the empty list, and no parameter (C99
/// 6.7.5.3).
#[tactic(auto, using(crate::proofs::TypedView::others_are_not_lone))]
pub fn is_lone_void(first: &TypedDeclarator, others: &[(Position, TypedDeclarator)]) -> bool
    ensures { result ≡ formed.is_lone_void (view.typed_of first.now) (view.more_parameters_in others.now) }
{
    match others {
        [] => is_void(first),
        [_, ..] => false,
    }
}

/// Whether a parameter has a name.
#[tactic(auto, using(crate::proofs::TypedView::typed_view))]
fn is_named_parameter(parameter: &TypedDeclarator) -> bool
    ensures { result ≡ formed.is_named_parameter (view.typed_of parameter.now) }
{
    has_name(parameter.declarator.get())
}

/// Whether the parameters behind the first have names.
fn are_named_parameters(others: &[(Position, TypedDeclarator)]) -> bool
    ensures { result ≡ formed.are_named_parameters (view.more_parameters_in others.now) }
{
    for (_, parameter) in others {
        if !is_named_parameter(parameter) {
            return false;
        }
    }
    true
}

/// Whether all parameters have names (C99 6.9.1).
fn has_named_parameters(parameters: &Parameters) -> bool
    ensures { result ≡ formed.has_named_parameters (view.parameters_of parameters.now) }
{
    match parameters {
        Parameters::Empty | Parameters::Void(_) => true,
        Parameters::Given(first, others) => {
            is_named_parameter(first.get()) && are_named_parameters(others.as_slice())
        }
    }
}

/// Whether a function's block may stand behind it: its name, which may stand in parentheses that hold nothing else, is
/// directly followed by `(..)`, and each parameter there has a name (C99 6.9.1).
pub fn defines_function(declarator: &Declarator) -> bool
    ensures { result ≡ formed.defines_function (view.declarator_of declarator.now) }
{
    match declarator {
        Declarator::Named(_) | Declarator::Unnamed => false,
        Declarator::Function(inner, _, parameters, _) => {
            if is_plain_name(inner.get()) {
                has_named_parameters(parameters)
            } else {
                defines_function(inner.get())
            }
        }
        Declarator::Pointer(_, _, inner)
        | Declarator::Parenthesized(_, inner, _)
        | Declarator::OpenArray(inner, _, _)
        | Declarator::Array(inner, _, _, _) => defines_function(inner.get()),
    }
}
