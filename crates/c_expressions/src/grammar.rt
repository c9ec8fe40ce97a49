//! The rules of the grammar, and how they read what has fewer levels.

ghost use Rattle.std.specs.Prelude.{◌≡◌};
ghost use Rattle.c_grammar.specs.Nested.{readers};
ghost use Rattle.c_expressions.specs.LeveledReads.{ReadsLeveled};
ghost use Rattle.c_syntax.specs.View.{expression_of, specifiers_in, declarator_of};
ghost use Rattle.c_syntax.specs.Levels.{expression_levels, specifiers_levels, declarator_levels};

use crate::deeper::ReadsDeeper;
use crate::leveled::Leveled;
use c_grammar::cursor::{Cursor, Fault};
use c_grammar::declarator_kind::DeclaratorKind;
use c_grammar::typedef_names::TypedefNames;
use c_syntax::{Boxed, Declarator, Expression, Items, Position, Specifier};
use std::alloc::Global;

/// The rules for what has at most some number of levels, over a reader of what has fewer.
#[derive(Drop)]
pub struct Grammar<'t, 'a, R> {
    /// Where memory comes from.
    pub alloc: Global,
    /// The typedef names.
    pub names: &'t TypedefNames<'a>,
    /// How many levels there may be.
    pub levels: usize,
    /// The reader of what has fewer levels.
    pub deeper: R,
}

impl<'t, 'a, R: ReadsDeeper<'a>> Grammar<'t, 'a, R> {
    ghost use Rattle.c_expressions.specs.Deeper.{Deeper};

    /// Reads an expression of at least this precedence with fewer levels; a position is that of the `(` that was taken.
    pub fn expression(
        &self,
        tokens: &mut Cursor<'_, 'a>,
        opened: Option<Position>,
        least: u8,
    ) -> Result<Leveled<Boxed<Expression<'a>>>, Fault>
        requires { Deeper R.reads self.now }
        ensures { ReadsLeveled expression_of expression_levels self.now.levels
            ((readers self.now.names.now self.now.levels).expression opened least tokens.old.rest.now) result
            tokens.new.rest.now }
    {
        self.deeper
            .expression(self.alloc, self.names, tokens, self.levels, opened, least)
    }

    /// Reads specifiers with fewer levels, `typedef` among them where it is allowed.
    pub fn specifiers(
        &self,
        tokens: &mut Cursor<'_, 'a>,
        allowed: bool,
    ) -> Result<Leveled<Items<Specifier<'a>>>, Fault>
        requires { Deeper R.reads self.now }
        ensures { ReadsLeveled specifiers_in specifiers_levels self.now.levels
            ((readers self.now.names.now self.now.levels).specifiers allowed tokens.old.rest.now) result
            tokens.new.rest.now }
    {
        self.deeper
            .specifiers(self.alloc, self.names, tokens, self.levels, allowed)
    }

    /// Reads a declarator with fewer levels.
    pub fn declarator(
        &self,
        tokens: &mut Cursor<'_, 'a>,
        kind: DeclaratorKind,
    ) -> Result<Leveled<Boxed<Declarator<'a>>>, Fault>
        requires { Deeper R.reads self.now }
        ensures { ReadsLeveled declarator_of declarator_levels self.now.levels
            ((readers self.now.names.now self.now.levels).declarator kind tokens.old.rest.now) result
            tokens.new.rest.now }
    {
        self.deeper
            .declarator(self.alloc, self.names, tokens, self.levels, kind)
    }
}
