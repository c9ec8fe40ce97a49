//! Reading declarators (C99 6.7.5, 6.7.6).

ghost use Rattle.std.specs.Prelude.{◌≡◌, ◌<◌, ◌||◌, ◌&&◌, suc, nat_lt};
ghost use Rattle.c_lexer.specs.declared.punctuator.Punctuator.TheVariants as p;
ghost use Rattle.c_grammar.specs.Reader.{next_is, next_is_punctuator};
ghost use Rattle.c_expressions.specs.Steps.{suffix_next};
ghost use Rattle.c_grammar.specs.Readers as common;
ghost use Rattle.c_grammar.specs.DeclaratorReader as spec;
ghost use Rattle.c_grammar.specs.Nested.{readers};
ghost use Rattle.c_expressions.specs.LeveledReads.{ReadsLeveled, Below};
ghost use Rattle.c_expressions.specs.Deeper.{Deeper};
ghost use Rattle.c_syntax.specs.View.{declarator_of};
ghost use Rattle.c_syntax.specs.Levels.{declarator_levels};

use crate::declarator_tree::{
    array, function, named, nameless, open_array, parenthesized, pointer,
};
use crate::deeper::ReadsDeeper;
use crate::grammar::Grammar;
use crate::leveled::{Leveled, beside};
use crate::specifier::begins_specifiers;
use c_grammar::cursor::{Cursor, Fault, is_punctuator, is_same, next_is};
use c_grammar::declarator_kind::DeclaratorKind;
use c_grammar::least_precedence;
use c_grammar::typedef_names::TypedefNames;
use c_lexer::{Punctuator, TokenKind};
use c_syntax::{Boxed, Declarator, Position, Positioned};
use std::alloc::Global;

/// Whether a declarator of this kind may have a name.
fn may_have_name(kind: DeclaratorKind) -> bool
    ensures { result ≡ common.may_have_name kind }
{
    !matches!(kind, DeclaratorKind::Abstract)
}

/// Whether a declarator of this kind has a name.
fn must_have_name(kind: DeclaratorKind) -> bool
    ensures { result ≡ common.must_have_name kind }
{
    matches!(kind, DeclaratorKind::Named)
}

/// No word of a declarator.
fn unnamed<'a>(
    alloc: Global,
    kind: DeclaratorKind,
    rest: &[Positioned<'a>],
) -> Result<Leveled<Boxed<Declarator<'a>>>, Fault>
    ensures { ReadsLeveled declarator_of declarator_levels 1 (spec.unnamed_at kind rest.now) result rest.now }
{
    if must_have_name(kind) {
        return Err(Fault::Refused);
    }
    nameless(alloc)
}

/// Whether the next word begins or ends parameters.
fn begins_parameters(names: &TypedefNames, rest: &[Positioned]) -> bool
    ensures { result ≡ next_is_punctuator p.RightParenthesis rest.now || common.begins_specifiers names.now rest.now }
{
    next_is(rest, Punctuator::RightParenthesis) || begins_specifiers(names, rest)
}

/// Whether the next word is `(` or `[`, and the declarator before it has fewer levels than a number.
fn begins_suffix(rest: &[Positioned], left: &Leveled<Boxed<Declarator>>, limit: usize) -> bool
    ensures { result ≡ next_is spec.begins_suffix rest.now && nat_lt left.now.levels limit }
{
    let begins = next_is(rest, Punctuator::LeftParenthesis)
        || next_is(rest, Punctuator::LeftBracket);
    begins && left.levels < limit
}

impl<'t, 'a, R: ReadsDeeper<'a>> Grammar<'t, 'a, R> {
    /// Reads what follows the `(` of parameters (C99 6.7.5.3).
    fn function(
        &self,
        tokens: &mut Cursor<'_, 'a>,
        left: Leveled<Boxed<Declarator<'a>>>,
        position: Position,
    ) -> Result<Leveled<Boxed<Declarator<'a>>>, Fault>
        requires deeper { Deeper R.reads self.now }
        requires known { Below self.now.levels left.levels (declarator_levels (declarator_of left.tree)) }
        ensures { ReadsLeveled declarator_of declarator_levels (suc self.now.levels)
            (spec.function_from self.now.names.now (readers self.now.names.now self.now.levels) self.now.levels
            (declarator_of left.entry.tree) position tokens.old.rest.now) result tokens.new.rest.now }
    {
        let (left, parameters) = beside(left, self.parameters(tokens))?;
        let right = tokens.expect(Punctuator::RightParenthesis);
        function(self.alloc, left, position, parameters, right)
    }

    /// Reads what follows a first `(`: the parameters of a function without a name, or a declarator in parentheses (C99
    /// 6.7.6).
    #[tactic(auto, unfolding(c_grammar::specs::DeclaratorReader::parenthesis_from))]
    fn declarator_parenthesis(
        &self,
        tokens: &mut Cursor<'_, 'a>,
        kind: DeclaratorKind,
        position: Position,
    ) -> Result<Leveled<Boxed<Declarator<'a>>>, Fault>
        requires deeper { Deeper R.reads self.now }
        requires some { 0 < self.now.levels }
        ensures { ReadsLeveled declarator_of declarator_levels (suc self.now.levels)
            (spec.parenthesis_from self.now.names.now (readers self.now.names.now self.now.levels) self.now.levels kind
            position tokens.old.rest.now) result tokens.new.rest.now }
    {
        if !must_have_name(kind) && begins_parameters(self.names, tokens.rest) {
            let nameless = unnamed(self.alloc, kind, tokens.rest)?;
            return self.function(tokens, nameless, position);
        }
        let inner = self.declarator(tokens, kind)?;
        let right = tokens.expect(Punctuator::RightParenthesis);
        parenthesized(self.alloc, position, inner, right)
    }

    /// Reads what is no pointer, without its suffixes.
    #[tactic(auto, unfolding(c_grammar::specs::DeclaratorReader::direct_from))]
    fn direct(
        &self,
        tokens: &mut Cursor<'_, 'a>,
        kind: DeclaratorKind,
    ) -> Result<Leveled<Boxed<Declarator<'a>>>, Fault>
        requires deeper { Deeper R.reads self.now }
        ensures { ReadsLeveled declarator_of declarator_levels (suc self.now.levels)
            (spec.direct_from self.now.names.now (readers self.now.names.now self.now.levels) self.now.levels kind
            tokens.old.rest.now) result tokens.new.rest.now }
    {
        let [first, rest @ ..] = tokens.rest else {
            return unnamed(self.alloc, kind, tokens.rest);
        };
        match &first.kind {
            TokenKind::Identifier(spelling) => {
                if !may_have_name(kind) || self.names.has(spelling) {
                    return unnamed(self.alloc, kind, tokens.rest);
                }
                tokens.rest = rest;
                named(self.alloc, spelling, first.position)
            }
            TokenKind::Punctuator(punctuator) => {
                if !is_same(Punctuator::LeftParenthesis, *punctuator) || self.levels < 1 {
                    return unnamed(self.alloc, kind, tokens.rest);
                }
                tokens.rest = rest;
                self.declarator_parenthesis(tokens, kind, first.position)
            }
            _ => unnamed(self.alloc, kind, tokens.rest),
        }
    }

    /// Reads what follows the `[` of an array (C99 6.7.5.2).
    #[tactic(auto, unfolding(c_grammar::specs::DeclaratorReader::array_from))]
    fn array(
        &self,
        tokens: &mut Cursor<'_, 'a>,
        left: Leveled<Boxed<Declarator<'a>>>,
        position: Position,
    ) -> Result<Leveled<Boxed<Declarator<'a>>>, Fault>
        requires deeper { Deeper R.reads self.now }
        requires known { Below self.now.levels left.levels (declarator_levels (declarator_of left.tree)) }
        ensures { ReadsLeveled declarator_of declarator_levels (suc self.now.levels)
            (spec.array_from self.now.names.now (readers self.now.names.now self.now.levels) self.now.levels
            (declarator_of left.entry.tree) position tokens.old.rest.now) result tokens.new.rest.now }
    {
        if next_is(tokens.rest, Punctuator::RightBracket) {
            let right = tokens.expect(Punctuator::RightBracket);
            return open_array(self.alloc, left, position, right);
        }
        let (left, size) = beside(
            left,
            self.expression(tokens, None, least_precedence::CONDITIONAL),
        )?;
        let right = tokens.expect(Punctuator::RightBracket);
        array(self.alloc, left, position, size, right)
    }

    /// Reads a suffix by its first word, which is `[` or `(`.
    fn suffix(
        &self,
        tokens: &mut Cursor<'_, 'a>,
        left: Leveled<Boxed<Declarator<'a>>>,
    ) -> Result<Leveled<Boxed<Declarator<'a>>>, Fault>
        requires deeper { Deeper R.reads self.now }
        requires known { Below self.now.levels left.levels (declarator_levels (declarator_of left.tree)) }
        ensures { ReadsLeveled declarator_of declarator_levels (suc self.now.levels)
            (suffix_next self.now.names.now (readers self.now.names.now self.now.levels) self.now.levels
            (declarator_of left.entry.tree) tokens.old.rest.now) result tokens.new.rest.now }
    {
        let [first, rest @ ..] = tokens.rest else {
            return Err(Fault::Refused);
        };
        tokens.rest = rest;
        if is_punctuator(&first.kind, Punctuator::LeftBracket) {
            self.array(tokens, left, first.position)
        } else {
            self.function(tokens, left, first.position)
        }
    }

    /// Reads the suffixes of a declarator.
    fn suffixes(
        &self,
        tokens: &mut Cursor<'_, 'a>,
        first: Leveled<Boxed<Declarator<'a>>>,
    ) -> Result<Leveled<Boxed<Declarator<'a>>>, Fault>
        requires deeper { Deeper R.reads self.now }
        requires known { Below (suc self.now.levels) first.levels (declarator_levels (declarator_of first.tree)) }
        ensures { ReadsLeveled declarator_of declarator_levels (suc self.now.levels)
            (spec.suffixes_from self.now.names.now (readers self.now.names.now self.now.levels) self.now.levels
            self.now.levels (declarator_of first.entry.tree) tokens.old.rest.now) result tokens.new.rest.now }
    {
        let mut left = first;
        for _ in 0..self.levels {
            if !begins_suffix(tokens.rest, &left, self.levels) {
                return Ok(left);
            }
            left = self.suffix(tokens, left)?;
        }
        Ok(left)
    }

    /// Reads what is no pointer.
    #[tactic(auto, unfolding(c_grammar::specs::DeclaratorReader::suffixed_from))]
    fn suffixed(
        &self,
        tokens: &mut Cursor<'_, 'a>,
        kind: DeclaratorKind,
    ) -> Result<Leveled<Boxed<Declarator<'a>>>, Fault>
        requires deeper { Deeper R.reads self.now }
        ensures { ReadsLeveled declarator_of declarator_levels (suc self.now.levels)
            (spec.suffixed_from self.now.names.now (readers self.now.names.now self.now.levels) self.now.levels kind
            tokens.old.rest.now) result tokens.new.rest.now }
    {
        let first = self.direct(tokens, kind)?;
        self.suffixes(tokens, first)
    }

    /// Reads what follows `*` (C99 6.7.5.1).
    #[tactic(auto, unfolding(c_grammar::specs::DeclaratorReader::pointer_from))]
    fn pointer(
        &self,
        tokens: &mut Cursor<'_, 'a>,
        kind: DeclaratorKind,
        position: Position,
    ) -> Result<Leveled<Boxed<Declarator<'a>>>, Fault>
        requires deeper { Deeper R.reads self.now }
        ensures { ReadsLeveled declarator_of declarator_levels (suc self.now.levels)
            (spec.pointer_from self.now.names.now (readers self.now.names.now self.now.levels) self.now.levels kind
            position tokens.old.rest.now) result tokens.new.rest.now }
    {
        let consts = tokens.consts(self.alloc)?;
        let inner = self.declarator(tokens, kind);
        pointer(self.alloc, position, consts, inner)
    }

    /// Reads a declarator with at most the rules' number of levels (C99 6.7.5, 6.7.6).
    #[tactic(auto, unfolding(c_grammar::specs::DeclaratorReader::declarator_at))]
    pub fn declarator_at(
        &self,
        tokens: &mut Cursor<'_, 'a>,
        kind: DeclaratorKind,
    ) -> Result<Leveled<Boxed<Declarator<'a>>>, Fault>
        requires deeper { Deeper R.reads self.now }
        ensures { ReadsLeveled declarator_of declarator_levels (suc self.now.levels)
            (spec.declarator_at self.now.names.now (readers self.now.names.now self.now.levels) self.now.levels kind
            tokens.old.rest.now) result tokens.new.rest.now }
    {
        let [first, rest @ ..] = tokens.rest else {
            return self.suffixed(tokens, kind);
        };
        if !is_punctuator(&first.kind, Punctuator::Star) || self.levels < 1 {
            return self.suffixed(tokens, kind);
        }
        tokens.rest = rest;
        self.pointer(tokens, kind, first.position)
    }
}
