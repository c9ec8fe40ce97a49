//! Reading specifiers (C99 6.7.1 to 6.7.4).

ghost use Rattle.std.specs.Prelude.{◌≡◌, suc};
ghost use Rattle.c_grammar.specs.Nested.{readers};
ghost use Rattle.c_grammar.specs.Readers as common;
ghost use Rattle.c_expressions.specs.LeveledReads.{ReadsLeveled, Below};
ghost use Rattle.c_expressions.specs.Deeper.{Deeper};
ghost use Rattle.c_grammar.specs.SpecifierReader as spec;
ghost use Rattle.c_expressions.specs.Steps.{specifier_next, specifiers_extending};
ghost use Rattle.c_grammar.specs.Reader.{next_is};
ghost use Rattle.c_syntax.specs.Levels.{specifier_levels, specifiers_levels};
ghost use Rattle.c_syntax.specs.Tree as t;
ghost use Rattle.c_syntax.specs.View.{specifier_of, specifiers_in};

use crate::deeper::ReadsDeeper;
use crate::grammar::Grammar;
use crate::leveled::{Leveled, as_items, beside, leaf, no_trees, where_true, with_tree};
use c_grammar::cursor::{Cursor, Fault, spelled};
use c_grammar::typedef_names::TypedefNames;
use c_lexer::{Keyword, TokenKind};
use c_syntax::{Items, Position, Positioned, Specifier, Spelled, TypeWords};

/// Whether the keyword may begin specifiers.
fn is_specifier_keyword(keyword: Keyword) -> bool
    ensures { result ≡ common.is_specifier_keyword keyword }
{
    match keyword {
        Keyword::Enum | Keyword::Struct | Keyword::Union => true,
        _ => TypeWords::none().with_keyword(keyword).is_some(),
    }
}

/// Whether the next word may begin specifiers.
pub fn begins_specifiers(names: &TypedefNames, rest: &[Positioned]) -> bool
    ensures { result ≡ common.begins_specifiers names.now rest.now }
{
    match rest.first() {
        Some(first) => match &first.kind {
            TokenKind::Keyword(keyword) => is_specifier_keyword(*keyword),
            TokenKind::Identifier(spelling) => names.has(spelling),
            _ => false,
        },
        None => false,
    }
}

/// Whether the keyword goes on with specifiers behind these words of a type, where `typedef` is allowed or not.
fn goes_on_with_keyword(allowed: bool, words: TypeWords, keyword: Keyword) -> bool
    ensures { result ≡ spec.goes_on_with_keyword allowed words keyword }
{
    match keyword {
        Keyword::Typedef => allowed,
        Keyword::Enum | Keyword::Struct | Keyword::Union => words.with_other().is_some(),
        _ => words.with_keyword(keyword).is_some(),
    }
}

/// The words of a type with a specifier; the same where no type has them.
fn words_with(words: TypeWords, specifier: &Specifier) -> TypeWords
    ensures { result ≡ spec.words_with (specifier_of specifier.now) words }
{
    words.with_specifier(specifier).unwrap_or(words)
}

/// A typedef name as a specifier.
fn typedef_name<'a>(name: Spelled<'a>) -> Leveled<Specifier<'a>>
    ensures tree { specifier_of result.tree ≡ t.typedef_name name.entry }
    ensures levels { result.levels ≡ 0 }
{
    leaf(Specifier::TypedefName(name))
}

impl<'t, 'a, R: ReadsDeeper<'a>> Grammar<'t, 'a, R> {
    /// Reads what follows a keyword that goes on with specifiers.
    fn specifier_by_keyword(
        &self,
        tokens: &mut Cursor<'_, 'a>,
        keyword: Keyword,
        position: Position,
    ) -> Result<Leveled<Specifier<'a>>, Fault>
        requires deeper { Deeper R.reads self.now }
        ensures { ReadsLeveled specifier_of specifier_levels (suc self.now.levels)
            (spec.specifier_by_keyword self.now.names.now (readers self.now.names.now self.now.levels) self.now.levels
            keyword position tokens.old.rest.now) result tokens.new.rest.now }
    {
        match keyword {
            Keyword::Struct | Keyword::Union => self.structure(tokens, keyword, position),
            Keyword::Enum => self.enumeration(tokens, position),
            _ => Ok(leaf(Specifier::Keyword(keyword, position))),
        }
    }

    /// Reads a specifier by its first word.
    fn specifier(&self, tokens: &mut Cursor<'_, 'a>) -> Result<Leveled<Specifier<'a>>, Fault>
        requires deeper { Deeper R.reads self.now }
        ensures { ReadsLeveled specifier_of specifier_levels (suc self.now.levels)
            (specifier_next self.now.names.now (readers self.now.names.now self.now.levels) self.now.levels
            tokens.old.rest.now) result tokens.new.rest.now }
    {
        let [first, rest @ ..] = tokens.rest else {
            return Err(Fault::Refused);
        };
        match &first.kind {
            TokenKind::Keyword(keyword) => {
                tokens.rest = rest;
                self.specifier_by_keyword(tokens, *keyword, first.position)
            }
            TokenKind::Identifier(spelling) => {
                tokens.rest = rest;
                Ok(typedef_name(spelled(spelling, first.position)))
            }
            _ => Err(Fault::Refused),
        }
    }

    /// Whether a word goes on with specifiers behind these words of a type, where `typedef` is allowed or not.
    fn goes_on_with(&self, allowed: bool, words: TypeWords, word: &TokenKind) -> bool
        ensures { result ≡ spec.goes_on_with self.now.names.now (readers self.now.names.now self.now.levels)
            self.now.levels allowed words word.now }
    {
        match word {
            TokenKind::Keyword(keyword) => goes_on_with_keyword(allowed, words, *keyword),
            TokenKind::Identifier(spelling) => self.names.has(spelling)
                && words.with_other().is_some(),
            _ => false,
        }
    }

    /// Whether the next word goes on with specifiers.
    fn has_specifier(&self, allowed: bool, words: TypeWords, rest: &[Positioned<'a>]) -> bool
        ensures { result ≡ next_is (spec.goes_on_with self.now.names.now (readers self.now.names.now self.now.levels)
            self.now.levels allowed words) rest.now }
    {
        match rest.first() {
            Some(first) => self.goes_on_with(allowed, words, &first.kind),
            None => false,
        }
    }

    /// The specifiers where no more of them come, if their words are those of a type.
    #[tactic(auto, using(crate::proofs::SpecifierSteps::before_none))]
    fn ended(
        &self,
        words: TypeWords,
        specifiers: Leveled<Vec<Specifier<'a>>>,
        rest: &[Positioned<'a>],
    ) -> Result<Leveled<Items<Specifier<'a>>>, Fault>
        requires known { Below (suc self.now.levels) specifiers.levels
            (specifiers_levels (specifiers_in specifiers.tree.items)) }
        ensures { ReadsLeveled specifiers_in specifiers_levels (suc self.now.levels)
            (specifiers_extending specifiers.entry.tree.items (spec.ended self.now.names.now
            (readers self.now.names.now self.now.levels) self.now.levels words rest.now)) result rest.now }
    {
        Ok(as_items(where_true(words.is_type(), specifiers)?))
    }

    /// Reads specifiers with at most the rules' number of levels (C99 6.7.1 to 6.7.4).
    #[tactic(auto, using(crate::proofs::SpecifierSteps::specifiers_start), unfolding(c_grammar::specs::SpecifierReader::specifiers_at))]
    pub fn specifiers_at(
        &self,
        tokens: &mut Cursor<'_, 'a>,
        allowed: bool,
    ) -> Result<Leveled<Items<Specifier<'a>>>, Fault>
        requires deeper { Deeper R.reads self.now }
        ensures { ReadsLeveled specifiers_in specifiers_levels (suc self.now.levels)
            (spec.specifiers_at self.now.names.now (readers self.now.names.now self.now.levels) self.now.levels allowed
            tokens.old.rest.now) result tokens.new.rest.now }
    {
        let mut words = TypeWords::none();
        let mut specifiers = no_trees(self.alloc);
        for _ in 0..tokens.rest.len() {
            if !self.has_specifier(allowed, words, tokens.rest) {
                return self.ended(words, specifiers, tokens.rest);
            }
            let (before, specifier) = beside(specifiers, self.specifier(tokens))?;
            words = words_with(words, &specifier.tree);
            specifiers = with_tree(before, specifier)?;
        }
        self.ended(words, specifiers, tokens.rest)
    }
}
