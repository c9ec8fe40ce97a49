//! Enumerators (C99 6.7.2.2).

use crate::dropped::without;
use crate::nested::Nested;
use c_declarator_typing::sizes::enumeration_value;
use c_declarator_typing::{Shape, Specification};
use c_expression_typing::constructs::enumerated_as;
use c_faults::Refusal;
use c_place_rules::operand::Operand;
use c_syntax::{Boxed, Declarator, Enumerator, Expression, Position, Specifier, Spelled};
use c_typing_state::Typer;

impl<
    'a,
    E: FnOnce(&mut Typer<'a>, bool, &Expression<'a>) -> Result<Operand, Refusal> + Copy,
    D,
    S,
> Nested<E, D, S> {
    ghost use Rattle.std.specs.Prelude.{suc};
    ghost use Rattle.c_syntax.specs.Tree as tree;
    ghost use Rattle.c_syntax.specs.View.{enumerator_of, expression_of, more_enumerators_in};
    ghost use Rattle.c_syntax.specs.Levels.{enumerator_levels, more_enumerators_levels};
    ghost use Rattle.c_typing_state.specs.State.{Types, state_of};
    ghost use Rattle.c_expression_typing.specs.Typed.{enumerator, more_enumerators};
    ghost use Rattle.c_syntax_typing.specs.Nested.{DeeperExpressions, TypesExpression};

    // A name, `=`, and its value.
    fn valued_enumerator(
        &self,
        typer: &mut Typer<'a>,
        next: Option<u64>,
        name: &Spelled<'a>,
        equals: Position,
        value: &Boxed<Expression<'a>>,
    ) -> Result<Option<u64>, Refusal>
        requires { TypesExpression E.FnOnce self.now.expression (expression_of value.now) }
        ensures { Types (λ next. next) (state_of typer.new) result (enumerator next
            (tree.valued name.now equals (expression_of value.now)) (state_of typer.old)) }
    {
        let value = self.value(typer, false, value)?;
        let word = enumeration_value(&value);
        let word = without(value, word);
        enumerated_as(typer, name.spelling.bytes(), name.position.line, word)
    }

    /// An enumerator, where so one without a value would have this one. The value of the next one that has none.
    pub(crate) fn enumerator(
        &self,
        typer: &mut Typer<'a>,
        next: Option<u64>,
        tree: &Enumerator<'a>,
    ) -> Result<Option<u64>, Refusal>
        requires deeper { DeeperExpressions self.now E.FnOnce (suc (enumerator_levels (enumerator_of tree.now))) }
        ensures { Types (λ next. next) (state_of typer.new) result
            (enumerator next (enumerator_of tree.now) (state_of typer.old)) }
    {
        match tree {
            Enumerator::Plain(name) => {
                enumerated_as(typer, name.spelling.bytes(), name.position.line, next)
            }
            Enumerator::Valued(name, equals, value) => {
                self.valued_enumerator(typer, next, name, *equals, value)
            }
        }
    }

    /// Enumerators, each behind its comma.
    #[tactic(auto, using(crate::proofs::Lower::lower_expressions))]
    pub(crate) fn more_enumerators(
        &self,
        typer: &mut Typer<'a>,
        next: Option<u64>,
        trees: &[(Position, Enumerator<'a>)],
    ) -> Result<Option<u64>, Refusal>
        requires deeper { DeeperExpressions self.now E.FnOnce (suc (more_enumerators_levels (more_enumerators_in
            trees.now))) }
        ensures { Types (λ next. next) (state_of typer.new) result
            (more_enumerators (more_enumerators_in trees.now) next (state_of typer.old)) }
    {
        let mut next = next;
        for (_, tree) in trees {
            next = self.enumerator(typer, next, tree)?;
        }
        Ok(next)
    }
}
