//! Reading structures and unions (C99 6.7.2.1).

ghost use Rattle.std.specs.Prelude.{◌≡◌, ◌<◌, ◌&&◌, suc, length, nat_le};
ghost use Rattle.c_lexer.specs.declared.punctuator.Punctuator.TheVariants as p;
ghost use Rattle.c_grammar.specs.Reader.{behind_commas, next_is_punctuator};
ghost use Rattle.c_grammar.specs.SpecifierReader as spec;
ghost use Rattle.c_grammar.specs.Nested.{readers};
ghost use Rattle.c_expressions.specs.Steps.{declarators_behind, declarators_behind_levels};
ghost use Rattle.c_expressions.specs.LeveledReads.{ReadsLeveled};
ghost use Rattle.c_expressions.specs.Deeper.{Deeper};
ghost use Rattle.c_grammar.specs.declared.declarator_kind.DeclaratorKind.TheVariants as kind;
ghost use Rattle.c_syntax.specs.View.{specifier_of, member_of};
ghost use Rattle.c_syntax.specs.View.{members_in};
ghost use Rattle.c_syntax.specs.Levels.{specifier_levels, member_levels, members_levels};

use crate::deeper::ReadsDeeper;
use crate::grammar::Grammar;
use crate::leveled::{Leveled, as_items, beside, leaf, no_trees, with_next, with_tree};
use crate::specifier_tree::{member_declaration, structure_body};
use c_grammar::cursor::{Cursor, Fault, next_is};
use c_grammar::declarator_kind::DeclaratorKind;
use c_lexer::{Keyword, Punctuator};
use c_syntax::{Boxed, Declarator, Items, Member, Position, Positioned, Specifier, Spelled};

/// Whether `{` is next, and there is a level for what it begins.
pub(crate) fn begins_body(levels: usize, rest: &[Positioned]) -> bool
    ensures { result ≡ nat_le 1 levels && next_is_punctuator p.LeftBrace rest.now }
{
    levels >= 1 && next_is(rest, Punctuator::LeftBrace)
}

impl<'t, 'a, R: ReadsDeeper<'a>> Grammar<'t, 'a, R> {
    /// Reads declarators behind the first, each behind its comma.
    fn more_declarators(
        &self,
        tokens: &mut Cursor<'_, 'a>,
    ) -> Result<Leveled<Items<(Position, Boxed<Declarator<'a>>)>>, Fault>
        requires deeper { Deeper R.reads self.now }
        requires some { 0 < self.now.levels }
        ensures { ReadsLeveled declarators_behind declarators_behind_levels self.now.levels
            (behind_commas ((readers self.now.names.now self.now.levels).declarator kind.Named)
            (length tokens.old.rest.now) tokens.old.rest.now) result tokens.new.rest.now }
    {
        let mut others = no_trees(self.alloc);
        for _ in 0..tokens.rest.len() {
            let Some(position) = tokens.take(Punctuator::Comma) else {
                return Ok(as_items(others));
            };
            let (before, declarator) = beside(
                others,
                self.declarator(tokens, DeclaratorKind::Named),
            )?;
            others = with_next(before, position, declarator)?;
        }
        Ok(as_items(others))
    }

    /// Reads a declaration of members (C99 6.7.2.1).
    #[tactic(auto, unfolding(c_grammar::specs::SpecifierReader::member_from))]
    fn member_declaration(&self, tokens: &mut Cursor<'_, 'a>) -> Result<Leveled<Member<'a>>, Fault>
        requires deeper { Deeper R.reads self.now }
        requires some { 0 < self.now.levels }
        ensures { ReadsLeveled member_of member_levels self.now.levels
            (spec.member_from self.now.names.now (readers self.now.names.now self.now.levels) self.now.levels
            tokens.old.rest.now) result tokens.new.rest.now }
    {
        let specifiers = self.specifiers(tokens, false)?;
        let member = beside(specifiers, self.declarator(tokens, DeclaratorKind::Named))?;
        let member = beside(member, self.more_declarators(tokens))?;
        let ((specifiers, first), others) = member;
        let semicolon = tokens.expect(Punctuator::Semicolon);
        member_declaration(specifiers, first, others, semicolon)
    }

    /// Reads declarations of members up to `}`, at least one (C99 6.7.2.1).
    fn members(&self, tokens: &mut Cursor<'_, 'a>) -> Result<Leveled<Items<Member<'a>>>, Fault>
        requires deeper { Deeper R.reads self.now }
        requires some { 0 < self.now.levels }
        ensures { ReadsLeveled members_in members_levels self.now.levels
            (spec.members_from self.now.names.now (readers self.now.names.now self.now.levels) self.now.levels
            tokens.old.rest.now) result tokens.new.rest.now }
    {
        let first = self.member_declaration(tokens)?;
        let none: Leveled<Vec<Member<'a>>> = no_trees(self.alloc);
        let mut members = with_tree(none, first)?;
        for _ in 0..tokens.rest.len() {
            if next_is(tokens.rest, Punctuator::RightBrace) {
                return Ok(as_items(members));
            }
            let (before, member) = beside(members, self.member_declaration(tokens))?;
            members = with_tree(before, member)?;
        }
        Err(Fault::Refused)
    }

    /// Reads `{`, the members and `}` of a structure or union.
    #[tactic(auto, unfolding(c_grammar::specs::SpecifierReader::structure_body_from))]
    fn structure_body(
        &self,
        tokens: &mut Cursor<'_, 'a>,
        keyword: Keyword,
        position: Position,
        tag: Option<Spelled<'a>>,
    ) -> Result<Leveled<Specifier<'a>>, Fault>
        requires deeper { Deeper R.reads self.now }
        requires some { 0 < self.now.levels }
        ensures { ReadsLeveled specifier_of specifier_levels (suc self.now.levels)
            (spec.structure_body_from self.now.names.now (readers self.now.names.now self.now.levels) self.now.levels
            keyword position tag.entry tokens.old.rest.now) result tokens.new.rest.now }
    {
        let left = tokens.expect(Punctuator::LeftBrace)?;
        let members = self.members(tokens)?;
        let right = tokens.expect(Punctuator::RightBrace);
        structure_body(keyword, position, tag, left, members, right)
    }

    /// Reads what follows `struct` or `union` (C99 6.7.2.1).
    #[tactic(auto, unfolding(c_grammar::specs::SpecifierReader::structure_from))]
    pub(crate) fn structure(
        &self,
        tokens: &mut Cursor<'_, 'a>,
        keyword: Keyword,
        position: Position,
    ) -> Result<Leveled<Specifier<'a>>, Fault>
        requires deeper { Deeper R.reads self.now }
        ensures { ReadsLeveled specifier_of specifier_levels (suc self.now.levels)
            (spec.structure_from self.now.names.now (readers self.now.names.now self.now.levels) self.now.levels keyword
            position tokens.old.rest.now) result tokens.new.rest.now }
    {
        if begins_body(self.levels, tokens.rest) {
            return self.structure_body(tokens, keyword, position, None);
        }
        let tag = tokens.identifier()?;
        if begins_body(self.levels, tokens.rest) {
            return self.structure_body(tokens, keyword, position, Some(tag));
        }
        Ok(leaf(Specifier::Structure(keyword, position, tag)))
    }
}
