//! Type names (C99 6.7.6) and parameters (6.7.5.3).

use crate::dropped::without;
use crate::lists::{only, with_item};
use crate::nested::Nested;
use c_declarator_typing::shape::{parameter_declared, type_named};
use c_declarator_typing::{Shape, Specification};
use c_faults::Refusal;
use c_place_rules::operand::Operand;
use c_rules::holding::beside;
use c_syntax::{Declarator, Expression, Parameters, Position, Specifier, TypedDeclarator};
use c_tree::CType;
use c_typing_state::Typer;

impl<
    'a,
    E,
    D: FnOnce(&mut Typer<'a>, bool, &Declarator<'a>) -> Result<Shape<'a>, Refusal> + Copy,
    S: FnOnce(&mut Typer<'a>, bool, &[Specifier<'a>]) -> Result<Specification, Refusal> + Copy,
> Nested<E, D, S> {
    ghost use Rattle.std.specs.Prelude.{suc};
    ghost use Rattle.c_syntax.specs.View.{more_parameters_in, parameters_of, typed_of};
    ghost use Rattle.c_syntax.specs.Levels.{more_parameters_levels, parameters_levels, typed_levels};
    ghost use Rattle.c_typing_state.specs.State.{Types, state_of};
    ghost use Rattle.c_expression_typing.specs.Typed.{more_types, parameter_type, parameter_types, type_name};
    ghost use Rattle.c_syntax_typing.specs.Nested.{DeeperNames};

    /// The type that a type name names.
    #[tactic(auto, using(c_syntax::proofs::TypedView::typed_view))]
    pub(crate) fn type_name(
        &self,
        typer: &mut Typer<'a>,
        name: &TypedDeclarator<'a>,
    ) -> Result<CType, Refusal>
        requires deeper { DeeperNames self.now D.FnOnce S.FnOnce (suc (typed_levels (typed_of name.now))) }
        ensures { Types (λ c_type. c_type) (state_of typer.new) result
            (type_name (typed_of name.now) (state_of typer.old)) }
    {
        let specification = self.specification(typer, name.specifiers.as_slice())?;
        let shape = self.shape(typer, false, &name.declarator);
        let (specification, shape) = beside(specification, shape)?;
        let named = type_named(typer, &specification, &shape);
        without((specification, shape), named)
    }

    // The type of a parameter.
    #[tactic(auto, using(c_syntax::proofs::TypedView::typed_view))]
    fn parameter_type(
        &self,
        typer: &mut Typer<'a>,
        in_definition: bool,
        parameter: &TypedDeclarator<'a>,
    ) -> Result<CType, Refusal>
        requires deeper { DeeperNames self.now D.FnOnce S.FnOnce (suc (typed_levels (typed_of parameter.now))) }
        ensures { Types (λ c_type. c_type) (state_of typer.new) result
            (parameter_type in_definition (typed_of parameter.now) (state_of typer.old)) }
    {
        let specification = self.specification(typer, parameter.specifiers.as_slice())?;
        let shape = self.shape(typer, false, &parameter.declarator);
        let (specification, shape) = beside(specification, shape)?;
        let c_type = parameter_declared(typer, in_definition, &specification, &shape);
        without((specification, shape), c_type)
    }

    // The types of parameters, each behind its comma, behind those before.
    #[tactic(auto, using(crate::proofs::Lower::lower_names))]
    fn more_types(
        &self,
        typer: &mut Typer<'a>,
        in_definition: bool,
        parameters: &[(Position, TypedDeclarator<'a>)],
        before: Vec<CType>,
    ) -> Result<Vec<CType>, Refusal>
        requires deeper { DeeperNames self.now D.FnOnce S.FnOnce (suc (more_parameters_levels (more_parameters_in
            parameters.now))) }
        ensures { Types (λ types. types.items) (state_of typer.new) result (more_types in_definition
            (more_parameters_in parameters.now) before.items (state_of typer.old)) }
    {
        let mut types = before;
        for (_, parameter) in parameters {
            let c_type = self.parameter_type(typer, in_definition, parameter);
            let (before, c_type) = beside(types, c_type)?;
            types = with_item(before, c_type)?;
        }
        Ok(types)
    }

    /// The types of the parameters of a function, which is defined or not.
    #[tactic(auto, using(crate::proofs::Lower::lower_names, c_syntax::proofs::ListViews::parameters_view))]
    pub(crate) fn parameter_types(
        &self,
        typer: &mut Typer<'a>,
        in_definition: bool,
        parameters: &Parameters<'a>,
    ) -> Result<Vec<CType>, Refusal>
        requires deeper { DeeperNames self.now D.FnOnce S.FnOnce
            (suc (parameters_levels (parameters_of parameters.now))) }
        ensures { Types (λ types. types.items) (state_of typer.new) result
            (parameter_types in_definition (parameters_of parameters.now) (state_of typer.old)) }
    {
        match parameters {
            Parameters::Empty | Parameters::Void(_) => Ok(Vec::new(typer.alloc)),
            Parameters::Given(first, more) => {
                let c_type = self.parameter_type(typer, in_definition, first.get())?;
                let types = only(typer.alloc, c_type)?;
                self.more_types(typer, in_definition, more.as_slice(), types)
            }
        }
    }
}
