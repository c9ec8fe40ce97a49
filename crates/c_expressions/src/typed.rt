//! Reading type names and parameters (C99 6.7.5.3, 6.7.6).

ghost use Rattle.std.specs.Prelude.{◌≡◌, ◌<◌, length, max, IfOk};
ghost use Rattle.c_grammar.specs.Reader.{behind_commas};
ghost use Rattle.c_grammar.specs.Readers as spec;
ghost use Rattle.c_grammar.specs.Nested.{readers};
ghost use Rattle.c_expressions.specs.Steps.{void_word, void_alone, void_parameter, lone_void, parameters_behind};
ghost use Rattle.c_expressions.specs.Steps.{parameters_behind_levels};
ghost use Rattle.c_expressions.specs.LeveledReads.{ReadsLeveled};
ghost use Rattle.c_expressions.specs.Deeper.{Deeper};
ghost use Rattle.c_grammar.specs.declared.declarator_kind.DeclaratorKind.TheVariants as kind;
ghost use Rattle.c_syntax.specs.View.{typed_of, parameters_of, more_parameters_in, specifier_of, specifiers_in};
ghost use Rattle.c_syntax.specs.View.{declarator_of};
ghost use Rattle.c_syntax.specs.Tree as t;
ghost use Rattle.c_syntax.specs.Levels.{typed_levels, parameters_levels};

use crate::deeper::ReadsDeeper;
use crate::grammar::Grammar;
use crate::leveled::{Leveled, as_items, beside, leaf, no_trees, with_next};
use c_grammar::cursor::{Cursor, Fault, next_is};
use c_grammar::declarator_kind::DeclaratorKind;
use c_lexer::{Keyword, Punctuator};
use c_syntax::{Boxed, Declarator, Items, Parameters, Position, Specifier, TypedDeclarator};
use std::alloc::{AllocError, Global};

/// The position of the word `void`.
fn void_word(specifier: &Specifier) -> Option<Position>
    ensures { result ≡ void_word (specifier_of specifier.now) }
{
    match specifier {
        Specifier::Keyword(Keyword::Void, position) => Some(*position),
        _ => None,
    }
}

/// The position of the word `void` where it is the only specifier.
fn void_alone(specifiers: &[Specifier]) -> Option<Position>
    ensures { result ≡ void_alone (specifiers_in specifiers.now) }
{
    let Some((first, others)) = specifiers.split_first() else {
        return None;
    };
    match others.first() {
        None => void_word(first),
        Some(_) => None,
    }
}

/// The position of the word `void` where it is the whole parameter.
#[tactic(auto, using(c_syntax::proofs::TypedView::typed_view))]
fn void_parameter(parameter: &TypedDeclarator) -> Option<Position>
    ensures { result ≡ void_parameter (typed_of parameter.now) }
{
    match parameter.declarator.get() {
        Declarator::Unnamed => void_alone(parameter.specifiers.as_slice()),
        _ => None,
    }
}

/// The position of the word `void` where it is all that stands between the parentheses (C99 6.7.5.3).
fn lone_void(first: &TypedDeclarator, others: &[(Position, TypedDeclarator)]) -> Option<Position>
    ensures { result ≡ lone_void (typed_of first.now) (more_parameters_in others.now) }
{
    match others.first() {
        None => void_parameter(first),
        Some(_) => None,
    }
}

/// The parameters of a function, where the word `void` alone is the empty list (C99 6.7.5.3).
#[tactic(auto, using(crate::proofs::VoidParameters::void_or_given))]
fn parameters_of<'a>(
    alloc: Global,
    first: TypedDeclarator<'a>,
    others: Items<(Position, TypedDeclarator<'a>)>,
) -> Result<Parameters<'a>, AllocError>
    ensures { IfOk result (λ x. parameters_of x ≡ spec.parameters_of (typed_of first.entry)
        (more_parameters_in others.entry)) }
{
    match lone_void(&first, others.as_slice()) {
        Some(position) => Ok(Parameters::Void(position)),
        None => Ok(Parameters::Given(Boxed::new(alloc, first)?, others)),
    }
}

/// Specifiers and a declarator with their levels.
fn typed_with<'a>(
    specifiers: Leveled<Items<Specifier<'a>>>,
    declarator: Leveled<Boxed<Declarator<'a>>>,
) -> Leveled<TypedDeclarator<'a>>
    ensures tree { typed_of result.tree ≡ t.typed (specifiers_in specifiers.entry.tree)
        (declarator_of declarator.entry.tree) }
    ensures levels { result.levels ≡ max specifiers.entry.levels declarator.entry.levels }
{
    let Leveled {
        tree: specifiers,
        levels,
    } = specifiers;
    let Leveled {
        tree: declarator,
        levels: others,
    } = declarator;
    Leveled {
        tree: TypedDeclarator {
            specifiers,
            declarator,
        },
        levels: levels.max(others),
    }
}

impl<'t, 'a, R: ReadsDeeper<'a>> Grammar<'t, 'a, R> {
    /// Reads specifiers and a declarator: a type name (C99 6.7.6) or a parameter (6.7.5).
    #[tactic(auto, unfolding(c_grammar::specs::Readers::typed_from))]
    pub fn typed(
        &self,
        tokens: &mut Cursor<'_, 'a>,
        kind: DeclaratorKind,
    ) -> Result<Leveled<TypedDeclarator<'a>>, Fault>
        requires deeper { Deeper R.reads self.now }
        ensures { ReadsLeveled typed_of typed_levels self.now.levels
            (spec.typed_from (readers self.now.names.now self.now.levels) kind tokens.old.rest.now) result
            tokens.new.rest.now }
    {
        let specifiers = self.specifiers(tokens, false)?;
        let (specifiers, declarator) = beside(specifiers, self.declarator(tokens, kind))?;
        Ok(typed_with(specifiers, declarator))
    }

    /// Reads parameters behind the first, each behind its comma.
    fn more_parameters(
        &self,
        tokens: &mut Cursor<'_, 'a>,
    ) -> Result<Leveled<Items<(Position, TypedDeclarator<'a>)>>, Fault>
        requires deeper { Deeper R.reads self.now }
        requires some { 0 < self.now.levels }
        ensures { ReadsLeveled parameters_behind parameters_behind_levels self.now.levels
            (behind_commas (spec.typed_from (readers self.now.names.now self.now.levels) kind.Either)
            (length tokens.old.rest.now) tokens.old.rest.now) result tokens.new.rest.now }
    {
        let mut others = no_trees(self.alloc);
        for _ in 0..tokens.rest.len() {
            let Some(position) = tokens.take(Punctuator::Comma) else {
                return Ok(as_items(others));
            };
            let (before, parameter) = beside(others, self.typed(tokens, DeclaratorKind::Either))?;
            others = with_next(before, position, parameter)?;
        }
        Ok(as_items(others))
    }

    /// Reads what stands between the parentheses of a function declarator (C99 6.7.5.3).
    #[tactic(auto, unfolding(c_grammar::specs::Readers::parameters_from))]
    pub fn parameters(&self, tokens: &mut Cursor<'_, 'a>) -> Result<Leveled<Parameters<'a>>, Fault>
        requires deeper { Deeper R.reads self.now }
        requires some { 0 < self.now.levels }
        ensures { ReadsLeveled parameters_of parameters_levels self.now.levels
            (spec.parameters_from (readers self.now.names.now self.now.levels) tokens.old.rest.now) result
            tokens.new.rest.now }
    {
        if next_is(tokens.rest, Punctuator::RightParenthesis) {
            return Ok(leaf(Parameters::Empty));
        }
        let first = self.typed(tokens, DeclaratorKind::Either)?;
        let (first, others) = beside(first, self.more_parameters(tokens))?;
        Ok(Leveled {
            levels: first.levels.max(others.levels),
            tree: parameters_of(self.alloc, first.tree, others.tree)?,
        })
    }
}
