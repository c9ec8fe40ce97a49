//! Reading operands: names, constants, parentheses, unary operators, casts and `sizeof` (C99 6.5.1, 6.5.3, 6.5.4).

ghost use Rattle.std.specs.Prelude.{◌≡◌, ℕ, suc, ◌∷◌};
ghost use Rattle.c_lexer.specs.declared.token.TokenKind.TheVariants as kinds;
ghost use Rattle.c_grammar.specs.ExpressionReader as spec;
ghost use Rattle.c_grammar.specs.Nested.{readers};
ghost use Rattle.c_grammar.specs.Readers as common;
ghost use Rattle.c_grammar.specs.Reader.{strings_from};
ghost use Rattle.c_grammar.specs.declared.declarator_kind.DeclaratorKind.TheVariants as kind;
ghost use Rattle.c_expressions.specs.Built as built;
ghost use Rattle.c_expressions.specs.Steps.{unary_from, sizeof_type_from};
ghost use Rattle.c_expressions.specs.LeveledReads.{ReadsExpression, ReadsLeveled};
ghost use Rattle.c_expressions.specs.Deeper.{Deeper};
ghost use Rattle.c_syntax.specs.Words.{word_at};
ghost use Rattle.c_syntax.specs.View.{expression_of, typed_of};
ghost use Rattle.c_syntax.specs.Levels.{expression_levels, typed_levels};

use crate::deeper::ReadsDeeper;
use crate::expression_tree::{
    cast, character, identifier, integer, parenthesized, sizeof_expression, sizeof_type, strings,
    unary,
};
use crate::grammar::Grammar;
use crate::leveled::{Leveled, beside};
use crate::specifier::begins_specifiers;
use c_grammar::cursor::{Cursor, Fault, is_punctuator, is_same};
use c_grammar::declarator_kind::DeclaratorKind;
use c_grammar::least_precedence;
use c_lexer::{Keyword, Punctuator, Spelling, TokenKind};
use c_syntax::operators::operand_precedence;
use c_syntax::{Boxed, Expression, Position, Positioned, TypedDeclarator};
use std::alloc::Global;

/// Reads string literals, of which the first was taken (C99 6.5.1).
fn string_literals<'a>(
    alloc: Global,
    tokens: &mut Cursor<'_, 'a>,
    spelling: &Spelling<'a>,
    position: Position,
) -> Result<Leveled<Boxed<Expression<'a>>>, Fault>
    ensures { (n : ℕ) → ReadsExpression (suc n) (built.strings (record { spelling = spelling.now; position = position })
        (strings_from tokens.old.rest.now)) result tokens.new.rest.now }
{
    let others = tokens.strings(alloc);
    strings(alloc, spelling, position, others)
}

impl<'t, 'a, R: ReadsDeeper<'a>> Grammar<'t, 'a, R> {
    /// Reads what follows the `(` of an expression in parentheses (C99 6.5.1).
    #[tactic(auto, unfolding(c_grammar::specs::ExpressionReader::parenthesized_from))]
    pub(crate) fn parenthesized(
        &self,
        tokens: &mut Cursor<'_, 'a>,
        position: Position,
    ) -> Result<Leveled<Boxed<Expression<'a>>>, Fault>
        requires deeper { Deeper R.reads self.now }
        ensures { ReadsLeveled expression_of expression_levels (suc self.now.levels)
            (spec.parenthesized_from self.now.names.now (readers self.now.names.now self.now.levels) self.now.levels
            position tokens.old.rest.now) result tokens.new.rest.now }
    {
        let inner = self.expression(tokens, None, least_precedence::COMMA)?;
        let right = tokens.expect(Punctuator::RightParenthesis);
        parenthesized(self.alloc, position, inner, right)
    }

    /// Reads a type name (C99 6.7.6).
    fn type_name(
        &self,
        tokens: &mut Cursor<'_, 'a>,
    ) -> Result<Leveled<Boxed<TypedDeclarator<'a>>>, Fault>
        requires deeper { Deeper R.reads self.now }
        ensures { ReadsLeveled typed_of typed_levels self.now.levels
            (common.typed_from (readers self.now.names.now self.now.levels) kind.Abstract tokens.old.rest.now) result
            tokens.new.rest.now }
    {
        let name = self.typed(tokens, DeclaratorKind::Abstract)?;
        Ok(name.boxed(self.alloc)?)
    }

    /// Reads what follows the `(` of a cast (C99 6.5.4).
    #[tactic(auto, unfolding(c_grammar::specs::ExpressionReader::cast_from))]
    fn cast(
        &self,
        tokens: &mut Cursor<'_, 'a>,
        position: Position,
    ) -> Result<Leveled<Boxed<Expression<'a>>>, Fault>
        requires deeper { Deeper R.reads self.now }
        ensures { ReadsLeveled expression_of expression_levels (suc self.now.levels)
            (spec.cast_from self.now.names.now (readers self.now.names.now self.now.levels) self.now.levels position
            tokens.old.rest.now) result tokens.new.rest.now }
    {
        let name = self.type_name(tokens)?;
        let (name, right) = beside(name, tokens.expect(Punctuator::RightParenthesis))?;
        let operand = self.expression(tokens, None, least_precedence::CAST);
        cast(self.alloc, position, name, right, operand)
    }

    /// Reads what follows a `(` that begins a cast or an expression in parentheses.
    #[tactic(auto, unfolding(c_grammar::specs::ExpressionReader::parenthesis_from))]
    fn parenthesis(
        &self,
        tokens: &mut Cursor<'_, 'a>,
        least: u8,
        position: Position,
    ) -> Result<Leveled<Boxed<Expression<'a>>>, Fault>
        requires deeper { Deeper R.reads self.now }
        ensures { ReadsLeveled expression_of expression_levels (suc self.now.levels)
            (spec.parenthesis_from self.now.names.now (readers self.now.names.now self.now.levels) self.now.levels least
            position tokens.old.rest.now) result tokens.new.rest.now }
    {
        if !begins_specifiers(self.names, tokens.rest) {
            return self.parenthesized(tokens, position);
        }
        if least <= least_precedence::CAST {
            self.cast(tokens, position)
        } else {
            Err(Fault::Refused)
        }
    }

    /// Reads what follows `sizeof (`, where it is a type name (C99 6.5.3.4).
    fn sizeof_type(
        &self,
        tokens: &mut Cursor<'_, 'a>,
        position: Position,
        left: Position,
    ) -> Result<Leveled<Boxed<Expression<'a>>>, Fault>
        requires deeper { Deeper R.reads self.now }
        ensures { ReadsExpression (suc self.now.levels)
            (sizeof_type_from (readers self.now.names.now self.now.levels) position left tokens.old.rest.now) result
            tokens.new.rest.now }
    {
        let name = self.type_name(tokens)?;
        let right = tokens.expect(Punctuator::RightParenthesis);
        sizeof_type(self.alloc, position, left, name, right)
    }

    /// Reads what follows `sizeof (` (C99 6.5.3.4).
    #[tactic(auto, unfolding(c_grammar::specs::ExpressionReader::sizeof_parenthesis_from))]
    fn sizeof_parenthesis(
        &self,
        tokens: &mut Cursor<'_, 'a>,
        position: Position,
        left: Position,
    ) -> Result<Leveled<Boxed<Expression<'a>>>, Fault>
        requires deeper { Deeper R.reads self.now }
        ensures { ReadsLeveled expression_of expression_levels (suc self.now.levels)
            (spec.sizeof_parenthesis_from self.now.names.now (readers self.now.names.now self.now.levels)
            self.now.levels position left tokens.old.rest.now) result tokens.new.rest.now }
    {
        if begins_specifiers(self.names, tokens.rest) {
            return self.sizeof_type(tokens, position, left);
        }
        let operand = self.expression(tokens, Some(left), least_precedence::UNARY);
        sizeof_expression(self.alloc, position, operand)
    }

    /// Reads what follows `sizeof` (C99 6.5.3.4).
    #[tactic(auto, unfolding(c_grammar::specs::ExpressionReader::sizeof_from))]
    fn sizeof_operand(
        &self,
        tokens: &mut Cursor<'_, 'a>,
        position: Position,
    ) -> Result<Leveled<Boxed<Expression<'a>>>, Fault>
        requires deeper { Deeper R.reads self.now }
        ensures { ReadsLeveled expression_of expression_levels (suc self.now.levels)
            (spec.sizeof_from self.now.names.now (readers self.now.names.now self.now.levels) self.now.levels position
            tokens.old.rest.now) result tokens.new.rest.now }
    {
        let [first, rest @ ..] = tokens.rest else {
            return Err(Fault::Refused);
        };
        if is_punctuator(&first.kind, Punctuator::LeftParenthesis) {
            tokens.rest = rest;
            return self.sizeof_parenthesis(tokens, position, first.position);
        }
        let operand = self.expression(tokens, None, least_precedence::UNARY);
        sizeof_expression(self.alloc, position, operand)
    }

    /// Reads what follows a unary operator (C99 6.5.3).
    fn unary(
        &self,
        tokens: &mut Cursor<'_, 'a>,
        operator: Punctuator,
        position: Position,
    ) -> Result<Leveled<Boxed<Expression<'a>>>, Fault>
        requires deeper { Deeper R.reads self.now }
        ensures { ReadsLeveled expression_of expression_levels (suc self.now.levels)
            (unary_from (readers self.now.names.now self.now.levels) operator position tokens.old.rest.now) result
            tokens.new.rest.now }
    {
        let operand = self.expression(tokens, None, operand_precedence(operator));
        unary(self.alloc, operator, position, operand)
    }

    /// Reads an operand that begins with a punctuator, which is next, before the rest.
    #[tactic(auto, unfolding(c_grammar::specs::ExpressionReader::operand_by_punctuator))]
    fn operand_by_punctuator<'r>(
        &self,
        tokens: &mut Cursor<'r, 'a>,
        least: u8,
        punctuator: Punctuator,
        position: Position,
        rest: &'r [Positioned<'a>],
    ) -> Result<Leveled<Boxed<Expression<'a>>>, Fault>
        requires deeper { Deeper R.reads self.now }
        requires next { tokens.old.rest.now ≡ word_at (kinds.Punctuator punctuator) position ∷ rest.now }
        ensures { ReadsLeveled expression_of expression_levels (suc self.now.levels)
            (spec.operand_by_punctuator self.now.names.now (readers self.now.names.now self.now.levels) self.now.levels
            least punctuator position rest.now) result tokens.new.rest.now }
    {
        if operand_precedence(punctuator) >= 1 && self.levels >= 1 {
            tokens.rest = rest;
            return self.unary(tokens, punctuator, position);
        }
        if is_same(Punctuator::LeftParenthesis, punctuator) && self.levels >= 1 {
            tokens.rest = rest;
            return self.parenthesis(tokens, least, position);
        }
        Err(Fault::Refused)
    }

    /// Reads an operand on which no operator has acted yet (C99 6.5.1, 6.5.3, 6.5.4).
    #[tactic(auto, unfolding(c_grammar::specs::ExpressionReader::operand_from))]
    pub fn operand(
        &self,
        tokens: &mut Cursor<'_, 'a>,
        least: u8,
    ) -> Result<Leveled<Boxed<Expression<'a>>>, Fault>
        requires deeper { Deeper R.reads self.now }
        ensures { ReadsLeveled expression_of expression_levels (suc self.now.levels)
            (spec.operand_from self.now.names.now (readers self.now.names.now self.now.levels) self.now.levels least
            tokens.old.rest.now) result tokens.new.rest.now }
    {
        let [first, rest @ ..] = tokens.rest else {
            return Err(Fault::Refused);
        };
        let position = first.position;
        match &first.kind {
            TokenKind::Identifier(spelling) => {
                if self.names.has(spelling) {
                    return Err(Fault::Refused);
                }
                tokens.rest = rest;
                identifier(self.alloc, spelling, position)
            }
            TokenKind::Integer(spelling) => {
                tokens.rest = rest;
                integer(self.alloc, spelling, position)
            }
            TokenKind::Character(spelling) => {
                tokens.rest = rest;
                character(self.alloc, spelling, position)
            }
            TokenKind::StringLiteral(spelling) => {
                tokens.rest = rest;
                string_literals(self.alloc, tokens, spelling, position)
            }
            TokenKind::Punctuator(punctuator) => {
                self.operand_by_punctuator(tokens, least, *punctuator, position, rest)
            }
            TokenKind::Keyword(Keyword::Sizeof) if self.levels >= 1 => {
                tokens.rest = rest;
                self.sizeof_operand(tokens, position)
            }
            _ => Err(Fault::Refused),
        }
    }
}
