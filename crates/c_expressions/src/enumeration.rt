//! Reading enumerations (C99 6.7.2.2).

ghost use Rattle.std.specs.Prelude.{◌≡◌, ◌<◌, suc, length};
ghost use Rattle.c_grammar.specs.Reader.{behind_commas_to_brace};
ghost use Rattle.c_grammar.specs.SpecifierReader as spec;
ghost use Rattle.c_grammar.specs.Nested.{readers};
ghost use Rattle.c_expressions.specs.Steps.{enumerators_behind, enumerators_behind_levels};
ghost use Rattle.c_expressions.specs.LeveledReads.{ReadsLeveled};
ghost use Rattle.c_expressions.specs.Deeper.{Deeper};
ghost use Rattle.c_syntax.specs.View.{specifier_of, enumerator_of};
ghost use Rattle.c_syntax.specs.Levels.{specifier_levels, enumerator_levels};

use crate::deeper::ReadsDeeper;
use crate::grammar::Grammar;
use crate::leveled::{Leveled, before_comma, beside, leaf, no_trees, with_next};
use crate::specifier_tree::{plain, valued};
use crate::structure::begins_body;
use c_grammar::cursor::{Cursor, Fault, next_is};
use c_grammar::least_precedence;
use c_lexer::Punctuator;
use c_syntax::{Enumerator, Items, Position, Specifier, Spelled};

impl<'t, 'a, R: ReadsDeeper<'a>> Grammar<'t, 'a, R> {
    /// Reads an enumerator (C99 6.7.2.2).
    #[tactic(auto, unfolding(c_grammar::specs::SpecifierReader::enumerator_from))]
    fn enumerator(&self, tokens: &mut Cursor<'_, 'a>) -> Result<Leveled<Enumerator<'a>>, Fault>
        requires deeper { Deeper R.reads self.now }
        requires some { 0 < self.now.levels }
        ensures { ReadsLeveled enumerator_of enumerator_levels self.now.levels
            (spec.enumerator_from self.now.names.now (readers self.now.names.now self.now.levels) self.now.levels
            tokens.old.rest.now) result tokens.new.rest.now }
    {
        let name = tokens.ordinary(self.names)?;
        if !next_is(tokens.rest, Punctuator::Assign) {
            return Ok(plain(name));
        }
        let position = tokens.expect(Punctuator::Assign)?;
        let value = self.expression(tokens, None, least_precedence::CONDITIONAL);
        valued(name, position, value)
    }

    /// Reads enumerators behind the first, each behind its comma, and a last comma before `}`.
    fn more_enumerators(
        &self,
        tokens: &mut Cursor<'_, 'a>,
    ) -> Result<Leveled<(Items<(Position, Enumerator<'a>)>, Option<Position>)>, Fault>
        requires deeper { Deeper R.reads self.now }
        requires some { 0 < self.now.levels }
        ensures { ReadsLeveled enumerators_behind enumerators_behind_levels self.now.levels
            (behind_commas_to_brace (spec.enumerator_from self.now.names.now
            (readers self.now.names.now self.now.levels) self.now.levels) (length tokens.old.rest.now)
            tokens.old.rest.now) result tokens.new.rest.now }
    {
        let mut others = no_trees(self.alloc);
        for _ in 0..tokens.rest.len() {
            let Some(position) = tokens.take(Punctuator::Comma) else {
                return Ok(before_comma(others, None));
            };
            if next_is(tokens.rest, Punctuator::RightBrace) {
                return Ok(before_comma(others, Some(position)));
            }
            let (before, enumerator) = beside(others, self.enumerator(tokens))?;
            others = with_next(before, position, enumerator)?;
        }
        Ok(before_comma(others, None))
    }

    /// Reads `{`, the enumerators and `}` of an enumeration.
    #[tactic(auto, unfolding(c_grammar::specs::SpecifierReader::enumeration_body_from))]
    fn enumeration_body(
        &self,
        tokens: &mut Cursor<'_, 'a>,
        position: Position,
        tag: Option<Spelled<'a>>,
    ) -> Result<Leveled<Specifier<'a>>, Fault>
        requires deeper { Deeper R.reads self.now }
        requires some { 0 < self.now.levels }
        ensures { ReadsLeveled specifier_of specifier_levels (suc self.now.levels)
            (spec.enumeration_body_from self.now.names.now (readers self.now.names.now self.now.levels) self.now.levels
            position tag.entry tokens.old.rest.now) result tokens.new.rest.now }
    {
        let left = tokens.expect(Punctuator::LeftBrace)?;
        let first = self.enumerator(tokens)?.boxed(self.alloc)?;
        let enumerators = beside(first, self.more_enumerators(tokens))?;
        let (enumerators, right) = beside(enumerators, tokens.expect(Punctuator::RightBrace))?;
        let (first, others) = enumerators;
        let Leveled {
            tree: (others, comma),
            levels,
        } = others;
        Ok(Leveled {
            levels: first.levels.max(levels) + 1,
            tree: Specifier::EnumerationBody(position, tag, left, first.tree, others, comma, right),
        })
    }

    /// Reads what follows `enum` (C99 6.7.2.2).
    #[tactic(auto, unfolding(c_grammar::specs::SpecifierReader::enumeration_from))]
    pub(crate) fn enumeration(
        &self,
        tokens: &mut Cursor<'_, 'a>,
        position: Position,
    ) -> Result<Leveled<Specifier<'a>>, Fault>
        requires deeper { Deeper R.reads self.now }
        ensures { ReadsLeveled specifier_of specifier_levels (suc self.now.levels)
            (spec.enumeration_from self.now.names.now (readers self.now.names.now self.now.levels) self.now.levels
            position tokens.old.rest.now) result tokens.new.rest.now }
    {
        if begins_body(self.levels, tokens.rest) {
            return self.enumeration_body(tokens, position, None);
        }
        let tag = tokens.identifier()?;
        if begins_body(self.levels, tokens.rest) {
            return self.enumeration_body(tokens, position, Some(tag));
        }
        Ok(leaf(Specifier::Enumeration(position, tag)))
    }
}
