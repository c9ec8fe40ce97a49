//! Reading operations on operands, one on another as long as they bind tightly enough (C99 6.5.2, 6.5.5 to 6.5.17).

ghost use Rattle.std.specs.Prelude.{◌≡◌, suc, ◌<◌, length, Option, None, Some};
ghost use Rattle.c_grammar.specs.ExpressionReader as spec;
ghost use Rattle.c_grammar.specs.Reader.{behind_commas};
ghost use Rattle.c_grammar.specs.LeastPrecedence as least;
ghost use Rattle.c_grammar.specs.Nested.{readers};
ghost use Rattle.c_expressions.specs.Steps.{arguments_behind, arguments_behind_levels, operation_next};
ghost use Rattle.c_expressions.specs.Steps.{operation_is_next};
ghost use Rattle.c_expressions.specs.LeveledReads.{ReadsLeveled, Below};
ghost use Rattle.c_expressions.specs.Deeper.{Deeper};
ghost use Rattle.c_grammar.specs.declared.operation.Operation.TheVariants as op;
ghost use Rattle.c_lexer.specs.declared.punctuator.Punctuator.TheVariants as punctuators;
ghost use Rattle.c_syntax.specs.View.{expression_of, arguments_of};
ghost use Rattle.c_syntax.specs.Levels.{expression_levels, arguments_levels};

use crate::deeper::ReadsDeeper;
use crate::expression_tree::{assignment, binary, call, conditional, member, postfix, subscript};
use crate::grammar::Grammar;
use crate::leveled::{Leveled, as_items, beside, leaf, no_trees, with_next};
use c_grammar::cursor::{Cursor, Fault, next_is};
use c_grammar::least_precedence;
use c_grammar::operation::{Operation, binds, needs, operation_of};
use c_lexer::{Punctuator, TokenKind};
use c_syntax::operators::{binary_precedence, precedence};
use c_syntax::{Arguments, Boxed, Expression, Items, Position, Positioned};

impl<'t, 'a, R: ReadsDeeper<'a>> Grammar<'t, 'a, R> {
    /// Reads arguments behind the first, each behind its comma.
    #[tactic(auto, unfolding(c_grammar::specs::Reader::behind_commas))]
    fn more_arguments(
        &self,
        tokens: &mut Cursor<'_, 'a>,
    ) -> Result<Leveled<Items<(Position, Boxed<Expression<'a>>)>>, Fault>
        requires deeper { Deeper R.reads self.now }
        requires some { 0 < self.now.levels }
        ensures { ReadsLeveled arguments_behind arguments_behind_levels self.now.levels
            (behind_commas ((readers self.now.names.now self.now.levels).expression None least.assignment)
            (length tokens.old.rest.now) tokens.old.rest.now) result tokens.new.rest.now }
    {
        let mut others = no_trees(self.alloc);
        for _ in 0..tokens.rest.len() {
            let Some(position) = tokens.take(Punctuator::Comma) else {
                return Ok(as_items(others));
            };
            let (before, argument) = beside(
                others,
                self.expression(tokens, None, least_precedence::ASSIGNMENT),
            )?;
            others = with_next(before, position, argument)?;
        }
        Ok(as_items(others))
    }

    /// Reads what stands between the parentheses of a call (C99 6.5.2.2).
    #[tactic(auto, unfolding(c_grammar::specs::ExpressionReader::arguments_from))]
    fn arguments(&self, tokens: &mut Cursor<'_, 'a>) -> Result<Leveled<Arguments<'a>>, Fault>
        requires deeper { Deeper R.reads self.now }
        requires some { 0 < self.now.levels }
        ensures { ReadsLeveled arguments_of arguments_levels self.now.levels
            (spec.arguments_from self.now.names.now (readers self.now.names.now self.now.levels) self.now.levels
            tokens.old.rest.now) result tokens.new.rest.now }
    {
        if next_is(tokens.rest, Punctuator::RightParenthesis) {
            return Ok(leaf(Arguments::Empty));
        }
        let first = self.expression(tokens, None, least_precedence::ASSIGNMENT)?;
        let (first, others) = beside(first, self.more_arguments(tokens))?;
        let Leveled {
            tree: first,
            levels,
        } = first;
        let Leveled {
            tree: others,
            levels: of_others,
        } = others;
        Ok(Leveled {
            levels: levels.max(of_others),
            tree: Arguments::Given(first, others),
        })
    }

    /// Reads what follows an operator between two operands (C99 6.5.5 to 6.5.14, 6.5.17).
    #[tactic(auto, unfolding(c_grammar::specs::ExpressionReader::operation_from))]
    fn binary(
        &self,
        tokens: &mut Cursor<'_, 'a>,
        left: Leveled<Boxed<Expression<'a>>>,
        position: Position,
        punctuator: Punctuator,
    ) -> Result<Leveled<Boxed<Expression<'a>>>, Fault>
        requires deeper { Deeper R.reads self.now }
        requires known { Below self.now.levels left.levels (expression_levels (expression_of left.tree)) }
        ensures { ReadsLeveled expression_of expression_levels (suc self.now.levels)
            (spec.operation_from self.now.names.now (readers self.now.names.now self.now.levels) self.now.levels
            (expression_of left.entry.tree) punctuator position (Some op.Binary) tokens.old.rest.now) result
            tokens.new.rest.now }
    {
        let right = self.expression(tokens, None, binary_precedence(punctuator) + 1);
        binary(self.alloc, left, punctuator, position, right)
    }

    /// Reads what follows an assignment operator (C99 6.5.16).
    #[tactic(auto, unfolding(c_grammar::specs::ExpressionReader::operation_from))]
    fn assignment(
        &self,
        tokens: &mut Cursor<'_, 'a>,
        left: Leveled<Boxed<Expression<'a>>>,
        position: Position,
        punctuator: Punctuator,
    ) -> Result<Leveled<Boxed<Expression<'a>>>, Fault>
        requires deeper { Deeper R.reads self.now }
        requires known { Below self.now.levels left.levels (expression_levels (expression_of left.tree)) }
        ensures { ReadsLeveled expression_of expression_levels (suc self.now.levels)
            (spec.operation_from self.now.names.now (readers self.now.names.now self.now.levels) self.now.levels
            (expression_of left.entry.tree) punctuator position (Some op.Assignment) tokens.old.rest.now) result
            tokens.new.rest.now }
    {
        let right = self.expression(tokens, None, least_precedence::ASSIGNMENT);
        assignment(self.alloc, left, punctuator, position, right)
    }

    /// Reads what follows `?` (C99 6.5.15).
    #[tactic(auto, unfolding(c_grammar::specs::ExpressionReader::operation_from))]
    fn conditional(
        &self,
        tokens: &mut Cursor<'_, 'a>,
        left: Leveled<Boxed<Expression<'a>>>,
        position: Position,
    ) -> Result<Leveled<Boxed<Expression<'a>>>, Fault>
        requires deeper { Deeper R.reads self.now }
        requires known { Below self.now.levels left.levels (expression_levels (expression_of left.tree)) }
        ensures { ReadsLeveled expression_of expression_levels (suc self.now.levels)
            (spec.operation_from self.now.names.now (readers self.now.names.now self.now.levels) self.now.levels
            (expression_of left.entry.tree) punctuators.Question position (Some op.Conditional) tokens.old.rest.now)
            result tokens.new.rest.now }
    {
        let operands = beside(left, self.expression(tokens, None, least_precedence::COMMA))?;
        let (operands, colon) = beside(operands, tokens.expect(Punctuator::Colon))?;
        let (condition, second) = operands;
        let third = self.expression(tokens, None, least_precedence::CONDITIONAL);
        conditional(self.alloc, condition, position, second, colon, third)
    }

    /// Reads what follows `[` (C99 6.5.2.1).
    #[tactic(auto, unfolding(c_grammar::specs::ExpressionReader::operation_from))]
    fn subscript(
        &self,
        tokens: &mut Cursor<'_, 'a>,
        left: Leveled<Boxed<Expression<'a>>>,
        position: Position,
    ) -> Result<Leveled<Boxed<Expression<'a>>>, Fault>
        requires deeper { Deeper R.reads self.now }
        requires known { Below self.now.levels left.levels (expression_levels (expression_of left.tree)) }
        ensures { ReadsLeveled expression_of expression_levels (suc self.now.levels)
            (spec.operation_from self.now.names.now (readers self.now.names.now self.now.levels) self.now.levels
            (expression_of left.entry.tree) punctuators.Question position (Some op.Subscript) tokens.old.rest.now)
            result tokens.new.rest.now }
    {
        let (left, index) = beside(left, self.expression(tokens, None, least_precedence::COMMA))?;
        let right = tokens.expect(Punctuator::RightBracket);
        subscript(self.alloc, left, position, index, right)
    }

    /// Reads what follows the `(` of a call (C99 6.5.2.2).
    #[tactic(auto, unfolding(c_grammar::specs::ExpressionReader::operation_from))]
    fn call(
        &self,
        tokens: &mut Cursor<'_, 'a>,
        left: Leveled<Boxed<Expression<'a>>>,
        position: Position,
    ) -> Result<Leveled<Boxed<Expression<'a>>>, Fault>
        requires deeper { Deeper R.reads self.now }
        requires known { Below self.now.levels left.levels (expression_levels (expression_of left.tree)) }
        ensures { ReadsLeveled expression_of expression_levels (suc self.now.levels)
            (spec.operation_from self.now.names.now (readers self.now.names.now self.now.levels) self.now.levels
            (expression_of left.entry.tree) punctuators.Question position (Some op.Call) tokens.old.rest.now) result
            tokens.new.rest.now }
    {
        let (left, arguments) = beside(left, self.arguments(tokens))?;
        let right = tokens.expect(Punctuator::RightParenthesis);
        call(self.alloc, left, position, arguments, right)
    }

    /// Reads what follows `.` or `->` (C99 6.5.2.3).
    #[tactic(auto, unfolding(c_grammar::specs::ExpressionReader::operation_from))]
    fn member(
        &self,
        tokens: &mut Cursor<'_, 'a>,
        left: Leveled<Boxed<Expression<'a>>>,
        position: Position,
        punctuator: Punctuator,
    ) -> Result<Leveled<Boxed<Expression<'a>>>, Fault>
        requires deeper { Deeper R.reads self.now }
        requires known { Below self.now.levels left.levels (expression_levels (expression_of left.tree)) }
        ensures { ReadsLeveled expression_of expression_levels (suc self.now.levels)
            (spec.operation_from self.now.names.now (readers self.now.names.now self.now.levels) self.now.levels
            (expression_of left.entry.tree) punctuator position (Some op.Member) tokens.old.rest.now) result
            tokens.new.rest.now }
    {
        member(self.alloc, left, punctuator, position, tokens.identifier())
    }

    /// Reads an operation on this operand, behind its punctuator.
    #[tactic(auto, unfolding(c_grammar::specs::ExpressionReader::operation_from))]
    fn operation_by(
        &self,
        tokens: &mut Cursor<'_, 'a>,
        left: Leveled<Boxed<Expression<'a>>>,
        position: Position,
        punctuator: Punctuator,
        operation: Operation,
    ) -> Result<Leveled<Boxed<Expression<'a>>>, Fault>
        requires deeper { Deeper R.reads self.now }
        requires known { Below self.now.levels left.levels (expression_levels (expression_of left.tree)) }
        ensures { ReadsLeveled expression_of expression_levels (suc self.now.levels)
            (spec.operation_from self.now.names.now (readers self.now.names.now self.now.levels) self.now.levels
            (expression_of left.entry.tree) punctuator position (Some operation) tokens.old.rest.now) result
            tokens.new.rest.now }
    {
        match operation {
            Operation::Binary => self.binary(tokens, left, position, punctuator),
            Operation::Assignment => self.assignment(tokens, left, position, punctuator),
            Operation::Conditional => self.conditional(tokens, left, position),
            Operation::Subscript => self.subscript(tokens, left, position),
            Operation::Call => self.call(tokens, left, position),
            Operation::Member => self.member(tokens, left, position, punctuator),
            Operation::Postfix => postfix(self.alloc, left, punctuator, position),
        }
    }

    /// Reads an operation on this operand, which may begin with this punctuator.
    #[tactic(auto, unfolding(c_grammar::specs::ExpressionReader::operation_from))]
    fn operation_of(
        &self,
        tokens: &mut Cursor<'_, 'a>,
        left: Leveled<Boxed<Expression<'a>>>,
        position: Position,
        punctuator: Punctuator,
    ) -> Result<Leveled<Boxed<Expression<'a>>>, Fault>
        requires deeper { Deeper R.reads self.now }
        requires known { Below self.now.levels left.levels (expression_levels (expression_of left.tree)) }
        ensures { ReadsLeveled expression_of expression_levels (suc self.now.levels)
            (spec.operation_from self.now.names.now (readers self.now.names.now self.now.levels) self.now.levels
            (expression_of left.entry.tree) punctuator position (spec.operation punctuator) tokens.old.rest.now) result
            tokens.new.rest.now }
    {
        match operation_of(punctuator) {
            Some(operation) => self.operation_by(tokens, left, position, punctuator, operation),
            None => Err(Fault::Refused),
        }
    }

    /// Reads an operation on this operand, whose punctuator is next.
    fn operation(
        &self,
        tokens: &mut Cursor<'_, 'a>,
        left: Leveled<Boxed<Expression<'a>>>,
    ) -> Result<Leveled<Boxed<Expression<'a>>>, Fault>
        requires deeper { Deeper R.reads self.now }
        requires known { Below self.now.levels left.levels (expression_levels (expression_of left.tree)) }
        ensures { ReadsLeveled expression_of expression_levels (suc self.now.levels)
            (operation_next self.now.names.now (readers self.now.names.now self.now.levels) self.now.levels
            (expression_of left.entry.tree) tokens.old.rest.now) result tokens.new.rest.now }
    {
        let [first, rest @ ..] = tokens.rest else {
            return Err(Fault::Refused);
        };
        tokens.rest = rest;
        match &first.kind {
            TokenKind::Punctuator(punctuator) => self.operation_of(
                tokens,
                left,
                first.position,
                *punctuator,
            ),
            _ => Err(Fault::Refused),
        }
    }

    /// Whether the next word goes on with this operand as an expression of at least this precedence.
    fn goes_on(&self, rest: &[Positioned], least: u8, left: &Leveled<Boxed<Expression<'a>>>) -> bool
        ensures { result ≡ operation_is_next self.now.levels least (expression_of left.now.tree) left.now.levels
            rest.now }
    {
        match rest.first() {
            Some(first) => {
                least <= binds(&first.kind)
                    && (needs(&first.kind) <= precedence(left.tree.get())
                        && left.levels < self.levels)
            }
            None => false,
        }
    }

    /// Reads operations of at least this precedence on a first operand, one on another.
    fn operations(
        &self,
        tokens: &mut Cursor<'_, 'a>,
        least: u8,
        first: Leveled<Boxed<Expression<'a>>>,
    ) -> Result<Leveled<Boxed<Expression<'a>>>, Fault>
        requires deeper { Deeper R.reads self.now }
        requires known { Below (suc self.now.levels) first.levels (expression_levels (expression_of first.tree)) }
        ensures { ReadsLeveled expression_of expression_levels (suc self.now.levels)
            (spec.operations_from self.now.names.now (readers self.now.names.now self.now.levels) self.now.levels
            self.now.levels least (expression_of first.entry.tree) tokens.old.rest.now) result tokens.new.rest.now }
    {
        let mut left = first;
        for _ in 0..self.levels {
            if !self.goes_on(tokens.rest, least, &left) {
                return Ok(left);
            }
            left = self.operation(tokens, left)?;
        }
        Ok(left)
    }

    /// Reads the first operand, whose `(` may have been taken.
    fn first_operand(
        &self,
        tokens: &mut Cursor<'_, 'a>,
        opened: Option<Position>,
        least: u8,
    ) -> Result<Leveled<Boxed<Expression<'a>>>, Fault>
        requires deeper { Deeper R.reads self.now }
        ensures { ReadsLeveled expression_of expression_levels (suc self.now.levels)
            (spec.first_operand self.now.names.now (readers self.now.names.now self.now.levels) self.now.levels opened
            least tokens.old.rest.now) result tokens.new.rest.now }
    {
        match opened {
            None => self.operand(tokens, least),
            Some(position) if self.levels >= 1 => self.parenthesized(tokens, position),
            Some(_) => Err(Fault::Refused),
        }
    }

    /// Reads an expression of at least this precedence; a position is that of the `(` that was taken.
    #[tactic(auto, unfolding(c_grammar::specs::ExpressionReader::expression_at))]
    pub fn expression_at(
        &self,
        tokens: &mut Cursor<'_, 'a>,
        opened: Option<Position>,
        least: u8,
    ) -> Result<Leveled<Boxed<Expression<'a>>>, Fault>
        requires deeper { Deeper R.reads self.now }
        ensures { ReadsLeveled expression_of expression_levels (suc self.now.levels)
            (spec.expression_at self.now.names.now (readers self.now.names.now self.now.levels) self.now.levels opened
            least tokens.old.rest.now) result tokens.new.rest.now }
    {
        let left = self.first_operand(tokens, opened, least)?;
        self.operations(tokens, least, left)
    }
}
