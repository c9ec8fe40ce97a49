//! Calls and their arguments (C99 6.5.2.2).

use crate::dropped::without;
use crate::lists::{only, with_item};
use crate::nested::Nested;
use c_call_rules::printing::Format;
use c_declarator_typing::{Shape, Specification};
use c_expression_typing::constructs::{Printing, is_printf, literal_alone, plain_name};
use c_faults::Refusal;
use c_operand_typing::{Called, callee};
use c_place_rules::operand::Operand;
use c_rules::TypedValue;
use c_rules::holding::beside;
use c_syntax::{Arguments, Boxed, Declarator, Expression, Position, Specifier};
use c_typing_state::Typer;
use sb_base::Line;

impl<
    'a,
    E: FnOnce(&mut Typer<'a>, bool, &Expression<'a>) -> Result<Operand, Refusal> + Copy,
    D,
    S,
> Nested<E, D, S> {
    ghost use Rattle.std.specs.Prelude.{suc, map};
    ghost use Rattle.c_syntax.specs.Tree as tree;
    ghost use Rattle.c_syntax.specs.View.{arguments_of, expression_of, more_arguments_in};
    ghost use Rattle.c_syntax.specs.Levels.{arguments_levels, more_arguments_levels};
    ghost use Rattle.c_syntax.specs.declared.position.Position.{Position};
    ghost use Rattle.c_rules.specs.Values.{value_of};
    ghost use Rattle.c_call_rules.specs.Printing.{format_of};
    ghost use Rattle.c_place_rules.specs.Operands.{operand_of};
    ghost use Rattle.c_operand_typing.specs.Calls.{called_of};
    ghost use Rattle.c_typing_state.specs.State.{Types, state_of};
    ghost use Rattle.c_expression_typing.specs.Constructs.{applied_to, called_by, format_by, literal_alone, plain_name};
    ghost use Rattle.c_expression_typing.specs.Constructs.{printing_of};
    ghost use Rattle.c_expression_typing.specs.Typed.{argument_values, more_values, printed_values, typed};
    ghost use Rattle.c_syntax_typing.specs.Nested.{DeeperExpressions, TypesExpression};

    // What stands before the `(`.
    fn called(
        &self,
        typer: &mut Typer<'a>,
        is_evaluated: bool,
        function: &Boxed<Expression<'a>>,
    ) -> Result<Called, Refusal>
        requires { TypesExpression E.FnOnce self.now.expression (expression_of function.now) }
        ensures { Types called_of (state_of typer.new) result (called_by is_evaluated
            (plain_name (expression_of function.now)) (typed is_evaluated (expression_of function.now))
            (state_of typer.old)) }
    {
        match plain_name(function.get()) {
            Some(name) => {
                callee::name_called(
                    typer,
                    is_evaluated,
                    name.spelling.bytes(),
                    name.position.line,
                )
            }
            None => {
                let operand = self.operand(typer, is_evaluated, function)?;
                callee::pointer_called(typer, operand)
            }
        }
    }

    // The values of arguments, each behind its comma, behind those before.
    fn more_values(
        &self,
        typer: &mut Typer<'a>,
        is_evaluated: bool,
        arguments: &[(Position, Boxed<Expression<'a>>)],
        before: Vec<TypedValue>,
    ) -> Result<Vec<TypedValue>, Refusal>
        requires deeper { DeeperExpressions self.now E.FnOnce (suc (more_arguments_levels (more_arguments_in
            arguments.now))) }
        ensures { Types (λ vs. map value_of vs.items) (state_of typer.new) result (more_values is_evaluated
            (more_arguments_in arguments.now) (map value_of before.items) (state_of typer.old)) }
    {
        let mut values = before;
        for (_, argument) in arguments {
            let (before, value) = beside(values, self.value(typer, is_evaluated, argument))?;
            values = with_item(before, value)?;
        }
        Ok(values)
    }

    // The values of the arguments, where `printf` is not called.
    #[tactic(auto, using(crate::proofs::Lower::lower_expressions, c_syntax::proofs::ListViews::arguments_view))]
    fn argument_values(
        &self,
        typer: &mut Typer<'a>,
        is_evaluated: bool,
        arguments: &Arguments<'a>,
    ) -> Result<Vec<TypedValue>, Refusal>
        requires deeper { DeeperExpressions self.now E.FnOnce (suc (arguments_levels (arguments_of arguments.now))) }
        ensures { Types (λ vs. map value_of vs.items) (state_of typer.new) result
            (argument_values is_evaluated (arguments_of arguments.now) (state_of typer.old)) }
    {
        match arguments {
            Arguments::Empty => Ok(Vec::new(typer.alloc)),
            Arguments::Given(first, more) => {
                let value = self.value(typer, is_evaluated, first)?;
                let values = only(typer.alloc, value)?;
                self.more_values(typer, is_evaluated, more.as_slice(), values)
            }
        }
    }

    // The first argument of a `printf`.
    fn format(
        &self,
        typer: &mut Typer<'a>,
        is_evaluated: bool,
        first: &Boxed<Expression<'a>>,
    ) -> Result<Format, Refusal>
        requires { TypesExpression E.FnOnce self.now.expression (expression_of first.now) }
        ensures { Types format_of (state_of typer.new) result (format_by (literal_alone (expression_of first.now))
            (typed is_evaluated (expression_of first.now)) (state_of typer.old)) }
    {
        match literal_alone(typer.alloc, first.get())? {
            Some(bytes) => Ok(Format::Literal(bytes)),
            None => {
                let value = self.value(typer, is_evaluated, first)?;
                Ok(Format::Other(value))
            }
        }
    }

    // The arguments of a `printf`.
    #[tactic(auto, using(crate::proofs::Lower::lower_expressions, c_syntax::proofs::ListViews::arguments_view))]
    fn printing(
        &self,
        typer: &mut Typer<'a>,
        is_evaluated: bool,
        arguments: &Arguments<'a>,
    ) -> Result<Printing, Refusal>
        requires deeper { DeeperExpressions self.now E.FnOnce (suc (arguments_levels (arguments_of arguments.now))) }
        ensures { Types printing_of (state_of typer.new) result
            (printed_values is_evaluated (arguments_of arguments.now) (state_of typer.old)) }
    {
        match arguments {
            Arguments::Empty => Ok(Printing {
                format: None,
                values: Vec::new(typer.alloc),
            }),
            Arguments::Given(first, more) => {
                let format = self.format(typer, is_evaluated, first)?;
                let none = Vec::new(typer.alloc);
                let values = self.more_values(typer, is_evaluated, more.as_slice(), none);
                let (format, values) = beside(format, values)?;
                Ok(Printing {
                    format: Some(format),
                    values,
                })
            }
        }
    }

    // A call of what is known, by the line of the `(`.
    fn applied(
        &self,
        typer: &mut Typer<'a>,
        is_evaluated: bool,
        line: Line,
        called: Called,
        arguments: &Arguments<'a>,
    ) -> Result<Operand, Refusal>
        requires deeper { DeeperExpressions self.now E.FnOnce (suc (arguments_levels (arguments_of arguments.now))) }
        ensures { Types operand_of (state_of typer.new) result (applied_to line
            (argument_values is_evaluated (arguments_of arguments.now))
            (printed_values is_evaluated (arguments_of arguments.now)) (called_of called) (state_of typer.old)) }
    {
        if is_printf(&called) {
            let printing = without(called, self.printing(typer, is_evaluated, arguments));
            let Printing { format, values } = printing?;
            callee::printed(typer, line, format, values)
        } else {
            let values = self.argument_values(typer, is_evaluated, arguments);
            let (called, values) = beside(called, values)?;
            callee::applied(typer, line, called, values)
        }
    }

    /// `expression ( arguments )` (6.5.2.2).
    pub(crate) fn call(
        &self,
        typer: &mut Typer<'a>,
        is_evaluated: bool,
        function: &Boxed<Expression<'a>>,
        opening: Position,
        arguments: &Arguments<'a>,
    ) -> Result<Operand, Refusal>
        requires function { TypesExpression E.FnOnce self.now.expression (expression_of function.now) }
        requires arguments { DeeperExpressions self.now E.FnOnce (suc (arguments_levels (arguments_of arguments.now))) }
        ensures { (closing : Position) → Types operand_of (state_of typer.new) result (typed is_evaluated
            (tree.call (expression_of function.now) opening (arguments_of arguments.now) closing)
            (state_of typer.old)) }
    {
        let called = self.called(typer, is_evaluated, function)?;
        self.applied(typer, is_evaluated, opening.line, called, arguments)
    }
}
