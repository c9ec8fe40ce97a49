//! Expressions, type names, declarators and specifiers (C99 6.5, 6.7), which contain each other.

ghost use Rattle.c_syntax.specs.View.{declarator_of, expression_of, specifiers_in, typed_of};
ghost use Rattle.c_place_rules.specs.Operands.{operand_of};
ghost use Rattle.c_declarator_typing.specs.Declarators.{shape_of};
ghost use Rattle.c_declarator_typing.specs.Specifications.{specification_of};
ghost use Rattle.c_typing_state.specs.State.{Types, state_of};
ghost use Rattle.c_expression_typing.specs.Typed.{shape, specification, type_name, typed};

use crate::nested::Nested;
use c_declarator_typing::{Shape, Specification};
use c_faults::Refusal;
use c_place_rules::operand::Operand;
use c_syntax::{Declarator, Expression, Specifier, TypedDeclarator};
use c_tree::CType;
use c_typing_state::Typer;

/// Types an expression (C99 6.5). Where it is not evaluated, as inside `sizeof`, it makes no objects and uses no
/// functions. The refusal is that of the first rule that is violated, in the order of the tokens, or that there is no
/// memory.
#[cycle(typing)]
pub fn expression<'a>(
    typer: &mut Typer<'a>,
    is_evaluated: bool,
    tree: &Expression<'a>,
) -> Result<Operand, Refusal>
    ensures { Types operand_of (state_of typer.new) result
        (typed is_evaluated (expression_of tree.now) (state_of typer.old)) }
{
    Nested {
        expression,
        declarator,
        specifiers,
    }
    .expression_at(typer, is_evaluated, tree)
}

/// Types a declarator (C99 6.7.5, 6.7.6): what it derives the type from, and its name, if it has one. The parameters
/// that directly follow the name of a function which is defined have complete types. Refusals as of `expression`.
#[cycle(typing)]
pub fn declarator<'a>(
    typer: &mut Typer<'a>,
    in_definition: bool,
    tree: &Declarator<'a>,
) -> Result<Shape<'a>, Refusal>
    ensures { Types shape_of (state_of typer.new) result
        (shape in_definition (declarator_of tree.now) (state_of typer.old)) }
{
    Nested {
        expression,
        declarator,
        specifiers,
    }
    .declarator_at(typer, in_definition, tree)
}

/// Types specifiers (C99 6.7.1 to 6.7.4), with the structures, unions and enumerations that they declare. They are
/// alone in a declaration that declares nothing else (6.7.2.3 paragraph 7). Refusals as of `expression`.
#[cycle(typing)]
pub fn specifiers<'a>(
    typer: &mut Typer<'a>,
    is_alone: bool,
    trees: &[Specifier<'a>],
) -> Result<Specification, Refusal>
    ensures { Types specification_of (state_of typer.new) result
        (specification is_alone (specifiers_in trees.now) (state_of typer.old)) }
{
    Nested {
        expression,
        declarator,
        specifiers,
    }
    .specifiers_at(typer, is_alone, trees)
}

/// The type that a type name names (C99 6.7.6). Refusals as of `expression`.
pub fn type_name<'a>(typer: &mut Typer<'a>, name: &TypedDeclarator<'a>) -> Result<CType, Refusal>
    ensures { Types (λ c_type. c_type) (state_of typer.new) result
        (type_name (typed_of name.now) (state_of typer.old)) }
{
    Nested {
        expression,
        declarator,
        specifiers,
    }
    .type_name(typer, name)
}
