//! The rules for a construct take the functions that type its parts as values, so that each rule is proved by itself.

use c_declarator_typing::{Shape, Specification};
use c_faults::Refusal;
use c_operand_typing::operators;
use c_place_rules::operand::Operand;
use c_rules::TypedValue;
use c_syntax::{Boxed, Declarator, Expression, Specifier};
use c_typing_state::Typer;

/// The rules for constructs, with the functions that type what has fewer levels.
#[derive(Drop)]
pub struct Nested<E, D, S> {
    /// Types an expression, which is evaluated or not.
    pub expression: E,
    /// Types a declarator, of a function that is defined or not.
    pub declarator: D,
    /// Types specifiers, which are alone or not.
    pub specifiers: S,
}

impl<
    'a,
    E: FnOnce(&mut Typer<'a>, bool, &Expression<'a>) -> Result<Operand, Refusal> + Copy,
    D,
    S,
> Nested<E, D, S> {
    ghost use Rattle.c_syntax.specs.View.{expression_of};
    ghost use Rattle.c_rules.specs.Values.{value_of};
    ghost use Rattle.c_place_rules.specs.Operands.{operand_of};
    ghost use Rattle.c_typing_state.specs.State.{Types, state_of};
    ghost use Rattle.c_expression_typing.specs.Constructs.{valued};
    ghost use Rattle.c_expression_typing.specs.Typed.{typed};
    ghost use Rattle.c_syntax_typing.specs.Nested.{TypesExpression};

    /// An expression as an operand.
    pub(crate) fn operand(
        &self,
        typer: &mut Typer<'a>,
        is_evaluated: bool,
        tree: &Boxed<Expression<'a>>,
    ) -> Result<Operand, Refusal>
        requires { TypesExpression E.FnOnce self.now.expression (expression_of tree.now) }
        ensures { Types operand_of (state_of typer.new) result
            (typed is_evaluated (expression_of tree.now) (state_of typer.old)) }
    {
        (self.expression)(typer, is_evaluated, tree.get())
    }

    /// The value of an expression.
    pub(crate) fn value(
        &self,
        typer: &mut Typer<'a>,
        is_evaluated: bool,
        tree: &Boxed<Expression<'a>>,
    ) -> Result<TypedValue, Refusal>
        requires { TypesExpression E.FnOnce self.now.expression (expression_of tree.now) }
        ensures { Types value_of (state_of typer.new) result
            (valued (typed is_evaluated (expression_of tree.now)) (state_of typer.old)) }
    {
        let operand = self.operand(typer, is_evaluated, tree)?;
        operators::value(typer, operand)
    }
}

impl<
    'a,
    E,
    D: FnOnce(&mut Typer<'a>, bool, &Declarator<'a>) -> Result<Shape<'a>, Refusal> + Copy,
    S,
> Nested<E, D, S> {
    ghost use Rattle.c_syntax.specs.View.{declarator_of};
    ghost use Rattle.c_declarator_typing.specs.Declarators.{shape_of};
    ghost use Rattle.c_typing_state.specs.State.{Types, state_of};
    ghost use Rattle.c_expression_typing.specs.Typed.{shape};
    ghost use Rattle.c_syntax_typing.specs.Nested.{TypesDeclarator};

    /// What a declarator says.
    pub(crate) fn shape(
        &self,
        typer: &mut Typer<'a>,
        in_definition: bool,
        tree: &Boxed<Declarator<'a>>,
    ) -> Result<Shape<'a>, Refusal>
        requires { TypesDeclarator D.FnOnce self.now.declarator (declarator_of tree.now) }
        ensures { Types shape_of (state_of typer.new) result
            (shape in_definition (declarator_of tree.now) (state_of typer.old)) }
    {
        (self.declarator)(typer, in_definition, tree.get())
    }
}

impl<
    'a,
    E,
    D,
    S: FnOnce(&mut Typer<'a>, bool, &[Specifier<'a>]) -> Result<Specification, Refusal> + Copy,
> Nested<E, D, S> {
    ghost use Rattle.std.specs.Prelude.{false};
    ghost use Rattle.c_syntax.specs.View.{specifiers_in};
    ghost use Rattle.c_declarator_typing.specs.Specifications.{specification_of};
    ghost use Rattle.c_typing_state.specs.State.{Types, state_of};
    ghost use Rattle.c_expression_typing.specs.Typed.{specification};
    ghost use Rattle.c_syntax_typing.specs.Nested.{TypesSpecifiers};

    /// What specifiers beside a declarator say.
    pub(crate) fn specification(
        &self,
        typer: &mut Typer<'a>,
        trees: &[Specifier<'a>],
    ) -> Result<Specification, Refusal>
        requires { TypesSpecifiers S.FnOnce self.now.specifiers (specifiers_in trees.now) }
        ensures { Types specification_of (state_of typer.new) result
            (specification false (specifiers_in trees.now) (state_of typer.old)) }
    {
        (self.specifiers)(typer, false, trees)
    }
}
