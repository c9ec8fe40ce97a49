//! Reading initializers (C99 6.7.8).

ghost use Rattle.std.specs.Prelude.{◌≡◌, ◌&&◌, nat_le, length};
ghost use Rattle.c_lexer.specs.declared.punctuator.Punctuator.TheVariants as p;
ghost use Rattle.c_grammar.specs.InitializerReader as spec;
ghost use Rattle.c_grammar.specs.Reader as reader;
ghost use Rattle.c_grammar.specs.Reader.{behind_commas_to_brace};
ghost use Rattle.c_grammar.specs.Nested.{readers};
ghost use Rattle.c_grammar.specs.Reads.{Reads};
ghost use Rattle.c_syntax.specs.StatementsView.{designator_of, designators_in, designation_of, initializer_of, item_of};

use c_expressions::leveled::{beside, with_item};
use c_expressions::nested::expression;
use c_grammar::cursor::{Cursor, Fault, next_is};
use c_grammar::least_precedence;
use c_grammar::typedef_names::TypedefNames;
use c_lexer::Punctuator;
use c_syntax::{
    Boxed, Designation, Designator, InitialValue, Initializer, InitializerItem, Items, Position,
    Positioned,
};
use std::alloc::Global;

/// Whether a designator begins with the next word.
fn begins_designator(rest: &[Positioned]) -> bool
    ensures { result ≡ reader.next_is spec.begins_designator rest.now }
{
    next_is(rest, Punctuator::LeftBracket) || next_is(rest, Punctuator::Dot)
}

/// Reads `[ expression ]`, whose expression has fewer than this number of levels (C99 6.7.8).
#[tactic(auto, unfolding(c_grammar::specs::InitializerReader::element_from))]
fn element<'a>(
    alloc: Global,
    names: &TypedefNames<'a>,
    tokens: &mut Cursor<'_, 'a>,
    levels: usize,
) -> Result<Designator<'a>, Fault>
    ensures { Reads designator_of (spec.element_from (readers names.now levels) tokens.old.rest.now) result
        tokens.new.rest.now }
{
    let left = tokens.expect(Punctuator::LeftBracket)?;
    let size = expression(
        alloc,
        names,
        tokens,
        levels,
        None,
        least_precedence::CONDITIONAL,
    )?;
    let (size, right) = beside(size, tokens.expect(Punctuator::RightBracket))?;
    Ok(Designator::Element(left, size.tree, right))
}

/// Reads `.` and the name of a member (C99 6.7.8).
#[tactic(auto, unfolding(c_grammar::specs::InitializerReader::member_named_from))]
fn member_named<'a>(
    names: &TypedefNames<'a>,
    tokens: &mut Cursor<'_, 'a>,
    levels: usize,
) -> Result<Designator<'a>, Fault>
    ensures { Reads designator_of (spec.member_named_from (readers names.now levels) tokens.old.rest.now) result
        tokens.new.rest.now }
{
    let position = tokens.expect(Punctuator::Dot)?;
    let name = tokens.identifier()?;
    Ok(Designator::Member(position, name))
}

/// Reads a designator (C99 6.7.8).
fn designator<'a>(
    alloc: Global,
    names: &TypedefNames<'a>,
    tokens: &mut Cursor<'_, 'a>,
    levels: usize,
) -> Result<Designator<'a>, Fault>
    ensures { Reads designator_of (spec.designator_from (readers names.now levels) tokens.old.rest.now) result
        tokens.new.rest.now }
{
    if next_is(tokens.rest, Punctuator::LeftBracket) {
        element(alloc, names, tokens, levels)
    } else {
        member_named(names, tokens, levels)
    }
}

/// Reads the designators that stand next (C99 6.7.8).
#[tactic(auto, unfolding(c_grammar::specs::InitializerReader::designators_from))]
fn designators<'a>(
    alloc: Global,
    names: &TypedefNames<'a>,
    tokens: &mut Cursor<'_, 'a>,
    levels: usize,
) -> Result<Items<Designator<'a>>, Fault>
    ensures { Reads designators_in (spec.designators_from (readers names.now levels) (length tokens.old.rest.now)
        tokens.old.rest.now) result tokens.new.rest.now }
{
    let mut designators = Vec::new(alloc);
    for _ in 0..tokens.rest.len() {
        if !begins_designator(tokens.rest) {
            return Ok(Items::from_vec(designators));
        }
        let (before, next) = beside(designators, designator(alloc, names, tokens, levels))?;
        designators = with_item(before, next)?;
    }
    Ok(Items::from_vec(designators))
}

/// Reads designators and `=`, or nothing where no designator stands next (C99 6.7.8).
#[tactic(auto, unfolding(c_grammar::specs::InitializerReader::designation_from))]
fn designation<'a>(
    alloc: Global,
    names: &TypedefNames<'a>,
    tokens: &mut Cursor<'_, 'a>,
    levels: usize,
) -> Result<Option<Designation<'a>>, Fault>
    ensures { Reads designation_of (spec.designation_from (readers names.now levels) tokens.old.rest.now) result
        tokens.new.rest.now }
{
    if !begins_designator(tokens.rest) {
        return Ok(None);
    }
    let designators = designators(alloc, names, tokens, levels)?;
    let (designators, equals) = beside(designators, tokens.expect(Punctuator::Assign))?;
    Ok(Some(Designation {
        designators,
        equals,
    }))
}

/// Reads an expression as an initializer (C99 6.7.8).
#[tactic(auto, unfolding(c_grammar::specs::InitializerReader::value_from))]
pub(crate) fn value<'a>(
    alloc: Global,
    names: &TypedefNames<'a>,
    tokens: &mut Cursor<'_, 'a>,
    levels: usize,
) -> Result<Initializer<'a>, Fault>
    ensures { Reads initializer_of (spec.value_from (readers names.now levels) tokens.old.rest.now) result
        tokens.new.rest.now }
{
    let value = expression(
        alloc,
        names,
        tokens,
        levels,
        None,
        least_precedence::ASSIGNMENT,
    )?;
    Ok(Initializer::Value(InitialValue {
        expression: value.tree,
    }))
}

/// The rules for initializers whose parts have fewer levels than a number, with the function that reads these parts.
#[derive(Drop)]
pub(crate) struct Initializers<'t, 'a, I> {
    /// Where memory comes from.
    alloc: Global,
    /// The typedef names.
    names: &'t TypedefNames<'a>,
    /// The number of levels.
    levels: usize,
    /// Reads an initializer with fewer levels than the number that it is given.
    initializer: I,
}

impl<
    't,
    'a,
    I: FnOnce(
        Global,
        &TypedefNames<'a>,
        &mut Cursor<'_, 'a>,
        usize,
    ) -> Result<Initializer<'a>, Fault>
        + Copy,
> Initializers<'t, 'a, I> {
    ghost use Rattle.c_parser.specs.InitializerSteps.{DeeperInitializers, items_to_brace};

    /// Reads an initializer with fewer levels.
    fn deeper(&self, tokens: &mut Cursor<'_, 'a>) -> Result<Initializer<'a>, Fault>
        requires { DeeperInitializers self.now I.FnOnce }
        ensures { Reads initializer_of (spec.initializers self.now.names.now self.now.levels tokens.old.rest.now) result
            tokens.new.rest.now }
    {
        (self.initializer)(self.alloc, self.names, tokens, self.levels)
    }

    /// Reads a designation or none, and an initializer (C99 6.7.8).
    #[tactic(auto, unfolding(c_grammar::specs::InitializerReader::item_from))]
    fn item(&self, tokens: &mut Cursor<'_, 'a>) -> Result<InitializerItem<'a>, Fault>
        requires { DeeperInitializers self.now I.FnOnce }
        ensures { Reads item_of (spec.item_from (readers self.now.names.now self.now.levels)
            (spec.initializers self.now.names.now self.now.levels) tokens.old.rest.now) result tokens.new.rest.now }
    {
        let designation = designation(self.alloc, self.names, tokens, self.levels)?;
        let (designation, initializer) = beside(designation, self.deeper(tokens))?;
        Ok(InitializerItem {
            designation,
            initializer,
        })
    }

    /// Reads items behind the first, each behind its comma, and a last comma or none before `}` (C99 6.7.8).
    #[tactic(auto, unfolding(c_grammar::specs::Reader::behind_commas_to_brace))]
    fn more_items(
        &self,
        tokens: &mut Cursor<'_, 'a>,
    ) -> Result<(Items<(Position, InitializerItem<'a>)>, Option<Position>), Fault>
        requires { DeeperInitializers self.now I.FnOnce }
        ensures { Reads items_to_brace (behind_commas_to_brace (spec.item_from
            (readers self.now.names.now self.now.levels) (spec.initializers self.now.names.now self.now.levels))
            (length tokens.old.rest.now) tokens.old.rest.now) result tokens.new.rest.now }
    {
        let mut others = Vec::new(self.alloc);
        for _ in 0..tokens.rest.len() {
            let Some(position) = tokens.take(Punctuator::Comma) else {
                return Ok((Items::from_vec(others), None));
            };
            if next_is(tokens.rest, Punctuator::RightBrace) {
                return Ok((Items::from_vec(others), Some(position)));
            }
            let (before, item) = beside(others, self.item(tokens))?;
            others = with_item(before, (position, item))?;
        }
        Ok((Items::from_vec(others), None))
    }

    /// Reads `{ items }` (C99 6.7.8).
    #[tactic(auto, unfolding(c_grammar::specs::InitializerReader::braced_from))]
    pub(crate) fn braced(&self, tokens: &mut Cursor<'_, 'a>) -> Result<Initializer<'a>, Fault>
        requires { DeeperInitializers self.now I.FnOnce }
        ensures { Reads initializer_of (spec.braced_from (spec.item_from (readers self.now.names.now self.now.levels)
            (spec.initializers self.now.names.now self.now.levels)) tokens.old.rest.now) result tokens.new.rest.now }
    {
        let left = tokens.expect(Punctuator::LeftBrace)?;
        let first = Boxed::new(self.alloc, self.item(tokens)?)?;
        let (first, (others, comma)) = beside(first, self.more_items(tokens))?;
        let right = tokens.expect(Punctuator::RightBrace);
        let ((first, others), right) = beside((first, others), right)?;
        Ok(Initializer::Braced(left, first, others, comma, right))
    }
}

/// Whether an initializer in braces begins with the next word, where there may be this number of levels.
pub(crate) fn begins_braced(rest: &[Positioned], levels: usize) -> bool
    ensures { result ≡ reader.next_is_punctuator p.LeftBrace rest.now && nat_le 1 levels }
{
    next_is(rest, Punctuator::LeftBrace) && 1 <= levels
}

/// Reads an initializer with fewer than this number of levels (C99 6.7.8).
pub(crate) fn initializer<'a>(
    alloc: Global,
    names: &TypedefNames<'a>,
    tokens: &mut Cursor<'_, 'a>,
    levels: usize,
) -> Result<Initializer<'a>, Fault>
    ensures { Reads initializer_of (spec.initializers names.now levels tokens.old.rest.now) result tokens.new.rest.now }
{
    if levels == 0 {
        return Err(Fault::Refused);
    }
    let inner = levels - 1;
    if !begins_braced(tokens.rest, inner) {
        return value(alloc, names, tokens, levels);
    }
    Initializers {
        alloc,
        names,
        levels: inner,
        initializer,
    }
    .braced(tokens)
}
