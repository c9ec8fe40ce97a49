//! Declarators (C99 6.7.5, 6.7.6).

ghost use Rattle.std.specs.Prelude.{◌≡◌, Some};
ghost use Rattle.c_declarator_typing.specs.Declarators.{plain_shape, shape_of};
ghost use Rattle.c_expression_typing.specs.Constructs.{has_words};
ghost use Rattle.c_expression_typing.specs.Lines.{name_of};

use crate::dropped::without;
use crate::nested::Nested;
use c_declarator_typing::shape::{LocatedName, leave_scope, open_scope};
use c_declarator_typing::sizes::count_in;
use c_declarator_typing::{Shape, Specification};
use c_declarators::Derivation;
use c_faults::Refusal;
use c_place_rules::operand::Operand;
use c_rules::holding::beside;
use c_syntax::declarators::is_plain_name;
use c_syntax::{Boxed, Declarator, Expression, Parameters, Position, Specifier, Spelled};
use c_typing_state::Typer;
use std::alloc::Global;

// Whether there is a word `const` behind a `*`.
fn has_words(words: &[Position]) -> bool
    ensures { result ≡ has_words words.now }
{
    match words {
        [] => false,
        [_, ..] => true,
    }
}

// A name alone.
fn named<'a>(alloc: Global, name: &Spelled<'a>) -> Shape<'a>
    ensures { shape_of result ≡ plain_shape (Some (name_of name.now, name.now.position.line)) }
{
    let (line, name) = (name.position.line, name.spelling.again());
    Shape::new(alloc, Some(LocatedName { name, line }))
}

impl<
    'a,
    E,
    D: FnOnce(&mut Typer<'a>, bool, &Declarator<'a>) -> Result<Shape<'a>, Refusal> + Copy,
    S,
> Nested<E, D, S> {
    ghost use Rattle.c_syntax.specs.Tree as tree;
    ghost use Rattle.c_syntax.specs.View.{declarator_of};
    ghost use Rattle.c_syntax.specs.declared.position.Position.{Position};
    ghost use Rattle.c_declarator_typing.specs.Declarators.{shape_of};
    ghost use Rattle.c_typing_state.specs.State.{Types, state_of};
    ghost use Rattle.c_expression_typing.specs.Typed.{shape};
    ghost use Rattle.c_syntax_typing.specs.Nested.{TypesDeclarator};

    // `*`, the words `const` behind it, and the declarator of the pointer (6.7.5.1).
    fn pointer(
        &self,
        typer: &mut Typer<'a>,
        in_definition: bool,
        star: Position,
        words: &[Position],
        inner: &Boxed<Declarator<'a>>,
    ) -> Result<Shape<'a>, Refusal>
        requires { TypesDeclarator D.FnOnce self.now.declarator (declarator_of inner.now) }
        ensures { Types shape_of (state_of typer.new) result (shape in_definition
            (tree.pointer star words.now (declarator_of inner.now)) (state_of typer.old)) }
    {
        let shape = self.shape(typer, in_definition, inner)?;
        let shape = shape.with_derivation(Derivation::Pointer(has_words(words)))?;
        Ok(shape)
    }

    // `declarator [ ]` (6.7.5.2).
    fn open_array(
        &self,
        typer: &mut Typer<'a>,
        in_definition: bool,
        inner: &Boxed<Declarator<'a>>,
    ) -> Result<Shape<'a>, Refusal>
        requires { TypesDeclarator D.FnOnce self.now.declarator (declarator_of inner.now) }
        ensures { (opening closing : Position) → Types shape_of (state_of typer.new) result (shape in_definition
            (tree.open_array (declarator_of inner.now) opening closing) (state_of typer.old)) }
    {
        let shape = self.shape(typer, in_definition, inner)?;
        let shape = shape.with_derivation(Derivation::OpenArray)?;
        Ok(shape)
    }
}

impl<
    'a,
    E: FnOnce(&mut Typer<'a>, bool, &Expression<'a>) -> Result<Operand, Refusal> + Copy,
    D: FnOnce(&mut Typer<'a>, bool, &Declarator<'a>) -> Result<Shape<'a>, Refusal> + Copy,
    S,
> Nested<E, D, S> {
    ghost use Rattle.c_syntax.specs.Tree as tree;
    ghost use Rattle.c_syntax.specs.View.{declarator_of, expression_of};
    ghost use Rattle.c_syntax.specs.declared.position.Position.{Position};
    ghost use Rattle.c_declarator_typing.specs.Declarators.{shape_of};
    ghost use Rattle.c_typing_state.specs.State.{Types, state_of};
    ghost use Rattle.c_expression_typing.specs.Typed.{shape};
    ghost use Rattle.c_syntax_typing.specs.Nested.{TypesDeclarator, TypesExpression};

    // `declarator [ size ]` (6.7.5.2).
    fn array(
        &self,
        typer: &mut Typer<'a>,
        in_definition: bool,
        inner: &Boxed<Declarator<'a>>,
        opening: Position,
        size: &Boxed<Expression<'a>>,
    ) -> Result<Shape<'a>, Refusal>
        requires inner { TypesDeclarator D.FnOnce self.now.declarator (declarator_of inner.now) }
        requires size { TypesExpression E.FnOnce self.now.expression (expression_of size.now) }
        ensures { (closing : Position) → Types shape_of (state_of typer.new) result (shape in_definition
            (tree.array (declarator_of inner.now) opening (expression_of size.now) closing) (state_of typer.old)) }
    {
        let shape = self.shape(typer, in_definition, inner)?;
        let (shape, size) = beside(shape, self.value(typer, false, size))?;
        let count = count_in(&size);
        let count = without(size, count);
        let shape = shape.with_derivation(Derivation::Array(count))?;
        Ok(shape)
    }
}

impl<
    'a,
    E,
    D: FnOnce(&mut Typer<'a>, bool, &Declarator<'a>) -> Result<Shape<'a>, Refusal> + Copy,
    S: FnOnce(&mut Typer<'a>, bool, &[Specifier<'a>]) -> Result<Specification, Refusal> + Copy,
> Nested<E, D, S> {
    ghost use Rattle.std.specs.Prelude.{suc};
    ghost use Rattle.c_syntax.specs.Tree as tree;
    ghost use Rattle.c_syntax.specs.View.{declarator_of, parameters_of};
    ghost use Rattle.c_syntax.specs.Levels.{parameters_levels};
    ghost use Rattle.c_syntax.specs.declared.position.Position.{Position};
    ghost use Rattle.c_declarator_typing.specs.Declarators.{scope_left, scope_opened, shape_of, with_function};
    ghost use Rattle.c_typing_state.specs.State.{Types, done, state_of, ◌>>>◌};
    ghost use Rattle.c_expression_typing.specs.Typed.{parameter_types, shape};
    ghost use Rattle.c_syntax_typing.specs.Nested.{DeeperNames, TypesDeclarator};

    // The parameters of a function, in a scope of their own, and what its declarator says with them.
    fn with_parameters(
        &self,
        typer: &mut Typer<'a>,
        in_definition: bool,
        before: Shape<'a>,
        parameters: &Parameters<'a>,
    ) -> Result<Shape<'a>, Refusal>
        requires deeper { DeeperNames self.now D.FnOnce S.FnOnce
            (suc (parameters_levels (parameters_of parameters.now))) }
        ensures { Types shape_of (state_of typer.new) result ((scope_opened >>> λ variables.
            parameter_types in_definition (parameters_of parameters.now) >>> λ types. scope_left variables >>> λ scope.
            done (with_function types scope (shape_of before.entry))) (state_of typer.old)) }
    {
        let (before, variables) = beside(before, open_scope(typer))?;
        let types = self.parameter_types(typer, in_definition, parameters);
        let (before, types) = beside(before, types)?;
        let scope = leave_scope(typer, variables);
        let shape = before.with_function(types, scope)?;
        Ok(shape)
    }

    // `declarator ( parameters )` (6.7.5.3).
    fn function(
        &self,
        typer: &mut Typer<'a>,
        in_definition: bool,
        inner: &Boxed<Declarator<'a>>,
        opening: Position,
        parameters: &Parameters<'a>,
    ) -> Result<Shape<'a>, Refusal>
        requires inner { TypesDeclarator D.FnOnce self.now.declarator (declarator_of inner.now) }
        requires parameters { DeeperNames self.now D.FnOnce S.FnOnce
            (suc (parameters_levels (parameters_of parameters.now))) }
        ensures { (closing : Position) → Types shape_of (state_of typer.new) result (shape in_definition
            (tree.function (declarator_of inner.now) opening (parameters_of parameters.now) closing)
            (state_of typer.old)) }
    {
        let shape = self.shape(typer, in_definition, inner)?;
        let in_definition = in_definition && is_plain_name(inner.get());
        self.with_parameters(typer, in_definition, shape, parameters)
    }
}

impl<
    'a,
    E: FnOnce(&mut Typer<'a>, bool, &Expression<'a>) -> Result<Operand, Refusal> + Copy,
    D: FnOnce(&mut Typer<'a>, bool, &Declarator<'a>) -> Result<Shape<'a>, Refusal> + Copy,
    S: FnOnce(&mut Typer<'a>, bool, &[Specifier<'a>]) -> Result<Specification, Refusal> + Copy,
> Nested<E, D, S> {
    ghost use Rattle.c_syntax.specs.Tree as tree;
    ghost use Rattle.c_syntax.specs.View.{declarator_of};
    ghost use Rattle.c_syntax.specs.Levels.{declarator_levels};
    ghost use Rattle.c_declarator_typing.specs.Declarators.{shape_of};
    ghost use Rattle.c_typing_state.specs.State.{Types, state_of};
    ghost use Rattle.c_expression_typing.specs.Typed.{shape};
    ghost use Rattle.c_syntax_typing.specs.Nested.{Deeper};

    /// A declarator, by its outermost part.
    pub(crate) fn declarator_at(
        &self,
        typer: &mut Typer<'a>,
        in_definition: bool,
        tree: &Declarator<'a>,
    ) -> Result<Shape<'a>, Refusal>
        requires deeper { Deeper self.now E.FnOnce D.FnOnce S.FnOnce (declarator_levels (declarator_of tree.now)) }
        ensures { Types shape_of (state_of typer.new) result
            (shape in_definition (declarator_of tree.now) (state_of typer.old)) }
    {
        match tree {
            Declarator::Named(name) => Ok(named(typer.alloc, name)),
            Declarator::Unnamed => Ok(Shape::new(typer.alloc, None)),
            Declarator::Pointer(star, words, inner) => {
                self.pointer(typer, in_definition, *star, words.as_slice(), inner)
            }
            Declarator::Parenthesized(_, inner, _) => self.shape(typer, in_definition, inner),
            Declarator::OpenArray(inner, _, _) => self.open_array(typer, in_definition, inner),
            Declarator::Array(inner, opening, size, _) => {
                self.array(typer, in_definition, inner, *opening, size)
            }
            Declarator::Function(inner, opening, parameters, _) => {
                self.function(typer, in_definition, inner, *opening, parameters)
            }
        }
    }
}
