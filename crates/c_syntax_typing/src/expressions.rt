//! Expressions (C99 6.5), calls aside.

use crate::dropped::without;
use crate::nested::Nested;
use c_declarator_typing::{Shape, Specification};
use c_expression_typing::constructs::{
    accessed, cast_to, character, chosen, integer, prefixed, sized, strings,
};
use c_faults::Refusal;
use c_lexer::Punctuator;
use c_operand_typing::forms::{assignment_form, binary_form, prefix_form, step_form};
use c_operand_typing::{operators, primaries};
use c_place_rules::operand::{Operand, enclosed};
use c_place_rules::place::type_in;
use c_rules::holding::beside;
use c_syntax::{Boxed, Declarator, Expression, Position, Specifier, Spelled, TypedDeclarator};
use c_tree::Fixity;
use c_typing_state::Typer;
use sb_base::Line;

impl<
    'a,
    E: FnOnce(&mut Typer<'a>, bool, &Expression<'a>) -> Result<Operand, Refusal> + Copy,
    D,
    S,
> Nested<E, D, S> {
    ghost use Rattle.std.specs.Prelude.{Bool};
    ghost use Rattle.c_syntax.specs.Tree as tree;
    ghost use Rattle.c_syntax.specs.View.{expression_of};
    ghost use Rattle.c_syntax.specs.declared.position.Position.{Position};
    ghost use Rattle.c_place_rules.specs.Operands.{operand_of};
    ghost use Rattle.c_typing_state.specs.State.{Types, state_of};
    ghost use Rattle.c_expression_typing.specs.Typed.{typed};
    ghost use Rattle.c_syntax_typing.specs.Nested.{TypesExpression};

    /// `( expression )` (6.5.1 paragraph 5).
    fn parenthesized(
        &self,
        typer: &mut Typer<'a>,
        is_evaluated: bool,
        opening: Position,
        inner: &Boxed<Expression<'a>>,
    ) -> Result<Operand, Refusal>
        requires { TypesExpression E.FnOnce self.now.expression (expression_of inner.now) }
        ensures { (closing : Position) → Types operand_of (state_of typer.new) result (typed is_evaluated
            (tree.parenthesized opening (expression_of inner.now) closing) (state_of typer.old)) }
    {
        let operand = self.operand(typer, is_evaluated, inner)?;
        enclosed(typer.alloc, opening.line, operand)
    }

    /// `expression [ expression ]` (6.5.2.1).
    fn subscript(
        &self,
        typer: &mut Typer<'a>,
        is_evaluated: bool,
        array: &Boxed<Expression<'a>>,
        opening: Position,
        index: &Boxed<Expression<'a>>,
    ) -> Result<Operand, Refusal>
        requires array { TypesExpression E.FnOnce self.now.expression (expression_of array.now) }
        requires index { TypesExpression E.FnOnce self.now.expression (expression_of index.now) }
        ensures { (closing : Position) → Types operand_of (state_of typer.new) result (typed is_evaluated
            (tree.subscript (expression_of array.now) opening (expression_of index.now) closing) (state_of typer.old)) }
    {
        let array = self.value(typer, is_evaluated, array)?;
        let (array, index) = beside(array, self.value(typer, is_evaluated, index))?;
        operators::indexed(typer, opening.line, array, index)
    }

    /// An expression, `.` or `->`, and the name of a member (6.5.2.3).
    fn member(
        &self,
        typer: &mut Typer<'a>,
        is_evaluated: bool,
        inner: &Boxed<Expression<'a>>,
        operator: Punctuator,
        at: Position,
        name: &Spelled<'a>,
    ) -> Result<Operand, Refusal>
        requires { TypesExpression E.FnOnce self.now.expression (expression_of inner.now) }
        ensures { Types operand_of (state_of typer.new) result (typed is_evaluated
            (tree.member (expression_of inner.now) operator at name.now) (state_of typer.old)) }
    {
        let operand = self.operand(typer, is_evaluated, inner)?;
        accessed(typer, operator, at.line, name.spelling.bytes(), operand)
    }

    /// An expression and `++` or `--` (6.5.2.4).
    fn postfix(
        &self,
        typer: &mut Typer<'a>,
        is_evaluated: bool,
        inner: &Boxed<Expression<'a>>,
        operator: Punctuator,
        at: Position,
    ) -> Result<Operand, Refusal>
        requires { TypesExpression E.FnOnce self.now.expression (expression_of inner.now) }
        ensures { Types operand_of (state_of typer.new) result (typed is_evaluated
            (tree.postfix (expression_of inner.now) operator at) (state_of typer.old)) }
    {
        let operand = self.operand(typer, is_evaluated, inner)?;
        operators::stepped_by(
            typer,
            step_form(operator),
            Fixity::Postfix,
            at.line,
            operand,
        )
    }

    /// `++`, `--` or a unary operator, and its operand (6.5.3.1 to 6.5.3.3).
    fn unary(
        &self,
        typer: &mut Typer<'a>,
        is_evaluated: bool,
        operator: Punctuator,
        at: Position,
        inner: &Boxed<Expression<'a>>,
    ) -> Result<Operand, Refusal>
        requires { TypesExpression E.FnOnce self.now.expression (expression_of inner.now) }
        ensures { Types operand_of (state_of typer.new) result (typed is_evaluated
            (tree.unary operator at (expression_of inner.now)) (state_of typer.old)) }
    {
        let operand = self.operand(typer, is_evaluated, inner)?;
        prefixed(typer, is_evaluated, prefix_form(operator), at.line, operand)
    }

    /// `sizeof expression` (6.5.3.4), whose operand is not evaluated.
    fn sizeof_expression(
        &self,
        typer: &mut Typer<'a>,
        at: Position,
        inner: &Boxed<Expression<'a>>,
    ) -> Result<Operand, Refusal>
        requires { TypesExpression E.FnOnce self.now.expression (expression_of inner.now) }
        ensures { (is_evaluated : Bool) → Types operand_of (state_of typer.new) result (typed is_evaluated
            (tree.sizeof_expression at (expression_of inner.now)) (state_of typer.old)) }
    {
        let operand = self.operand(typer, false, inner)?;
        let size = sized(typer, at.line, type_in(&operand));
        without(operand, size)
    }

    /// Two operands around an operator from `*` to `||`, or around the comma (6.5.5 to 6.5.14, 6.5.17).
    fn binary(
        &self,
        typer: &mut Typer<'a>,
        is_evaluated: bool,
        left: &Boxed<Expression<'a>>,
        operator: Punctuator,
        at: Position,
        right: &Boxed<Expression<'a>>,
    ) -> Result<Operand, Refusal>
        requires left { TypesExpression E.FnOnce self.now.expression (expression_of left.now) }
        requires right { TypesExpression E.FnOnce self.now.expression (expression_of right.now) }
        ensures { Types operand_of (state_of typer.new) result (typed is_evaluated
            (tree.binary (expression_of left.now) operator at (expression_of right.now)) (state_of typer.old)) }
    {
        let left = self.value(typer, is_evaluated, left)?;
        let (left, right) = beside(left, self.value(typer, is_evaluated, right))?;
        operators::combined(typer, binary_form(operator), at.line, left, right)
    }

    /// `expression ? expression : expression` (6.5.15).
    fn conditional(
        &self,
        typer: &mut Typer<'a>,
        is_evaluated: bool,
        condition: &Boxed<Expression<'a>>,
        question: Position,
        first: &Boxed<Expression<'a>>,
        second: &Boxed<Expression<'a>>,
    ) -> Result<Operand, Refusal>
        requires condition { TypesExpression E.FnOnce self.now.expression (expression_of condition.now) }
        requires first { TypesExpression E.FnOnce self.now.expression (expression_of first.now) }
        requires second { TypesExpression E.FnOnce self.now.expression (expression_of second.now) }
        ensures { (colon : Position) → Types operand_of (state_of typer.new) result (typed is_evaluated
            (tree.conditional (expression_of condition.now) question (expression_of first.now) colon
            (expression_of second.now)) (state_of typer.old)) }
    {
        let condition = self.value(typer, is_evaluated, condition)?;
        let (condition, first) = beside(condition, self.value(typer, is_evaluated, first))?;
        let (values, second) = beside((condition, first), self.value(typer, is_evaluated, second))?;
        let (condition, first) = values;
        chosen(typer, question.line, condition, first, second)
    }

    /// Two operands around an assignment operator (6.5.16).
    fn assignment(
        &self,
        typer: &mut Typer<'a>,
        is_evaluated: bool,
        left: &Boxed<Expression<'a>>,
        operator: Punctuator,
        at: Position,
        right: &Boxed<Expression<'a>>,
    ) -> Result<Operand, Refusal>
        requires left { TypesExpression E.FnOnce self.now.expression (expression_of left.now) }
        requires right { TypesExpression E.FnOnce self.now.expression (expression_of right.now) }
        ensures { Types operand_of (state_of typer.new) result (typed is_evaluated
            (tree.assignment (expression_of left.now) operator at (expression_of right.now)) (state_of typer.old)) }
    {
        let left = self.operand(typer, is_evaluated, left)?;
        let (left, right) = beside(left, self.value(typer, is_evaluated, right))?;
        operators::assigned_by(typer, assignment_form(operator), at.line, left, right)
    }
}

impl<
    'a,
    E,
    D: FnOnce(&mut Typer<'a>, bool, &Declarator<'a>) -> Result<Shape<'a>, Refusal> + Copy,
    S: FnOnce(&mut Typer<'a>, bool, &[Specifier<'a>]) -> Result<Specification, Refusal> + Copy,
> Nested<E, D, S> {
    ghost use Rattle.std.specs.Prelude.{Bool, suc};
    ghost use Rattle.c_syntax.specs.Tree as tree;
    ghost use Rattle.c_syntax.specs.View.{typed_of};
    ghost use Rattle.c_syntax.specs.Levels.{typed_levels};
    ghost use Rattle.c_syntax.specs.declared.position.Position.{Position};
    ghost use Rattle.c_place_rules.specs.Operands.{operand_of};
    ghost use Rattle.c_typing_state.specs.State.{Types, state_of};
    ghost use Rattle.c_expression_typing.specs.Typed.{typed};
    ghost use Rattle.c_syntax_typing.specs.Nested.{DeeperNames};

    /// `sizeof ( type-name )` (6.5.3.4).
    fn sizeof_type(
        &self,
        typer: &mut Typer<'a>,
        at: Position,
        name: &Boxed<TypedDeclarator<'a>>,
    ) -> Result<Operand, Refusal>
        requires deeper { DeeperNames self.now D.FnOnce S.FnOnce (suc (typed_levels (typed_of name.now))) }
        ensures { (is_evaluated : Bool) (opening closing : Position) → Types operand_of (state_of typer.new) result
            (typed is_evaluated (tree.sizeof_type at opening (typed_of name.now) closing) (state_of typer.old)) }
    {
        let c_type = self.type_name(typer, name.get())?;
        sized(typer, at.line, c_type.words())
    }
}

impl<
    'a,
    E: FnOnce(&mut Typer<'a>, bool, &Expression<'a>) -> Result<Operand, Refusal> + Copy,
    D: FnOnce(&mut Typer<'a>, bool, &Declarator<'a>) -> Result<Shape<'a>, Refusal> + Copy,
    S: FnOnce(&mut Typer<'a>, bool, &[Specifier<'a>]) -> Result<Specification, Refusal> + Copy,
> Nested<E, D, S> {
    ghost use Rattle.std.specs.Prelude.{suc};
    ghost use Rattle.c_syntax.specs.Tree as tree;
    ghost use Rattle.c_syntax.specs.View.{expression_of, typed_of};
    ghost use Rattle.c_syntax.specs.Levels.{expression_levels, typed_levels};
    ghost use Rattle.c_syntax.specs.declared.position.Position.{Position};
    ghost use Rattle.c_place_rules.specs.Operands.{operand_of};
    ghost use Rattle.c_typing_state.specs.State.{Types, state_of};
    ghost use Rattle.c_expression_typing.specs.Typed.{typed};
    ghost use Rattle.c_syntax_typing.specs.Nested.{Deeper, DeeperNames, TypesExpression};

    /// `( type-name ) expression` (6.5.4).
    fn cast(
        &self,
        typer: &mut Typer<'a>,
        is_evaluated: bool,
        opening: Position,
        name: &Boxed<TypedDeclarator<'a>>,
        inner: &Boxed<Expression<'a>>,
    ) -> Result<Operand, Refusal>
        requires name { DeeperNames self.now D.FnOnce S.FnOnce (suc (typed_levels (typed_of name.now))) }
        requires inner { TypesExpression E.FnOnce self.now.expression (expression_of inner.now) }
        ensures { (closing : Position) → Types operand_of (state_of typer.new) result (typed is_evaluated
            (tree.cast opening (typed_of name.now) closing (expression_of inner.now)) (state_of typer.old)) }
    {
        let c_type = self.type_name(typer, name.get())?;
        let (c_type, value) = beside(c_type, self.value(typer, is_evaluated, inner))?;
        cast_to(typer, opening.line, c_type.words(), value)
    }

    /// An expression, by the rule for its outermost operator.
    #[tactic(auto, using(crate::proofs::Lower::parts_alone))]
    pub(crate) fn expression_at(
        &self,
        typer: &mut Typer<'a>,
        is_evaluated: bool,
        tree: &Expression<'a>,
    ) -> Result<Operand, Refusal>
        requires deeper { Deeper self.now E.FnOnce D.FnOnce S.FnOnce (expression_levels (expression_of tree.now)) }
        ensures { Types operand_of (state_of typer.new) result
            (typed is_evaluated (expression_of tree.now) (state_of typer.old)) }
    {
        match tree {
            Expression::Identifier(name) => {
                primaries::named(
                    typer,
                    is_evaluated,
                    name.spelling.bytes(),
                    name.position.line,
                )
            }
            Expression::Integer(constant) => integer(typer.alloc, constant),
            Expression::Character(constant) => character(typer.alloc, constant),
            Expression::Strings(first, more) => {
                strings(typer, is_evaluated, first, more.as_slice())
            }
            Expression::Parenthesized(opening, inner, _) => {
                self.parenthesized(typer, is_evaluated, *opening, inner)
            }
            Expression::Subscript(array, opening, index, _) => {
                self.subscript(typer, is_evaluated, array, *opening, index)
            }
            Expression::Call(function, opening, arguments, _) => {
                self.call(typer, is_evaluated, function, *opening, arguments)
            }
            Expression::Member(inner, operator, at, name) => {
                self.member(typer, is_evaluated, inner, *operator, *at, name)
            }
            Expression::Postfix(inner, operator, at) => {
                self.postfix(typer, is_evaluated, inner, *operator, *at)
            }
            Expression::Unary(operator, at, inner) => {
                self.unary(typer, is_evaluated, *operator, *at, inner)
            }
            Expression::SizeofExpression(at, inner) => { self.sizeof_expression(typer, *at, inner) }
            Expression::SizeofType(at, _, name, _) => self.sizeof_type(typer, *at, name),
            Expression::Cast(opening, name, _, inner) => {
                self.cast(typer, is_evaluated, *opening, name, inner)
            }
            Expression::Binary(left, operator, at, right) => {
                self.binary(typer, is_evaluated, left, *operator, *at, right)
            }
            Expression::Conditional(condition, question, first, _, second) => self.conditional(
                typer,
                is_evaluated,
                condition,
                *question,
                first,
                second,
            ),
            Expression::Assignment(left, operator, at, right) => {
                self.assignment(typer, is_evaluated, left, *operator, *at, right)
            }
        }
    }
}
