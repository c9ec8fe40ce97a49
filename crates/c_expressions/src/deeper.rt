//! What reads the parts of what the rules of the grammar read, which have fewer levels. The rules know it by its
//! contract alone, so that each is proved by itself.

ghost use Rattle.std.specs.Prelude.{ℕ};
ghost use Rattle.c_grammar.specs.Nested.{readers};
ghost use Rattle.c_expressions.specs.LeveledReads.{ReadsLeveled};
ghost use Rattle.c_syntax.specs.View.{expression_of, specifiers_in, declarator_of};
ghost use Rattle.c_syntax.specs.Levels.{expression_levels, specifiers_levels, declarator_levels};

use crate::leveled::Leveled;
use c_grammar::cursor::{Cursor, Fault};
use c_grammar::declarator_kind::DeclaratorKind;
use c_grammar::typedef_names::TypedefNames;
use c_syntax::{Boxed, Declarator, Expression, Items, Position, Specifier};
use std::alloc::Global;

/// Reads expressions, specifiers and declarators that have fewer levels than a number.
pub trait ReadsDeeper<'a>: Copy {
    /// Whether it may be asked for what has fewer levels than this number.
    ghost reads: { Self → ℕ → Type 0 };

    /// Reads an expression of at least this precedence with fewer levels; a position is that of the `(` that was taken.
    fn expression(
        self,
        alloc: Global,
        names: &TypedefNames<'a>,
        tokens: &mut Cursor<'_, 'a>,
        levels: usize,
        opened: Option<Position>,
        least: u8,
    ) -> Result<Leveled<Boxed<Expression<'a>>>, Fault>
        requires { reads self levels }
        ensures { ReadsLeveled expression_of expression_levels levels
            ((readers names.now levels).expression opened least tokens.old.rest.now) result tokens.new.rest.now };

    /// Reads specifiers with fewer levels, `typedef` among them where it is allowed.
    fn specifiers(
        self,
        alloc: Global,
        names: &TypedefNames<'a>,
        tokens: &mut Cursor<'_, 'a>,
        levels: usize,
        allowed: bool,
    ) -> Result<Leveled<Items<Specifier<'a>>>, Fault>
        requires { reads self levels }
        ensures { ReadsLeveled specifiers_in specifiers_levels levels
            ((readers names.now levels).specifiers allowed tokens.old.rest.now) result tokens.new.rest.now };

    /// Reads a declarator with fewer levels.
    fn declarator(
        self,
        alloc: Global,
        names: &TypedefNames<'a>,
        tokens: &mut Cursor<'_, 'a>,
        levels: usize,
        kind: DeclaratorKind,
    ) -> Result<Leveled<Boxed<Declarator<'a>>>, Fault>
        requires { reads self levels }
        ensures { ReadsLeveled declarator_of declarator_levels levels
            ((readers names.now levels).declarator kind tokens.old.rest.now) result tokens.new.rest.now };
}

/// Functions that read what has fewer levels.
#[derive(Clone, Copy, Drop)]
pub struct Functions<E, S, D> {
    /// Reads an expression with fewer levels than the number that it is given.
    pub expression: E,
    /// Reads specifiers with fewer levels.
    pub specifiers: S,
    /// Reads a declarator with fewer levels.
    pub declarator: D,
}

impl<
    'a,
    E: FnOnce(
        Global,
        &TypedefNames<'a>,
        &mut Cursor<'_, 'a>,
        usize,
        Option<Position>,
        u8,
    ) -> Result<Leveled<Boxed<Expression<'a>>>, Fault>
        + Copy,
    S: FnOnce(
        Global,
        &TypedefNames<'a>,
        &mut Cursor<'_, 'a>,
        usize,
        bool,
    ) -> Result<Leveled<Items<Specifier<'a>>>, Fault>
        + Copy,
    D: FnOnce(
        Global,
        &TypedefNames<'a>,
        &mut Cursor<'_, 'a>,
        usize,
        DeclaratorKind,
    ) -> Result<Leveled<Boxed<Declarator<'a>>>, Fault>
        + Copy,
> ReadsDeeper<'a> for Functions<E, S, D> {
    ghost use Rattle.c_expressions.specs.Functions.{Read};

    ghost reads = { λ functions levels. Read functions levels E.FnOnce S.FnOnce D.FnOnce };

    fn expression(
        self,
        alloc: Global,
        names: &TypedefNames<'a>,
        tokens: &mut Cursor<'_, 'a>,
        levels: usize,
        opened: Option<Position>,
        least: u8,
    ) -> Result<Leveled<Boxed<Expression<'a>>>, Fault> {
        (self.expression)(alloc, names, tokens, levels, opened, least)
    }

    fn specifiers(
        self,
        alloc: Global,
        names: &TypedefNames<'a>,
        tokens: &mut Cursor<'_, 'a>,
        levels: usize,
        allowed: bool,
    ) -> Result<Leveled<Items<Specifier<'a>>>, Fault> {
        (self.specifiers)(alloc, names, tokens, levels, allowed)
    }

    fn declarator(
        self,
        alloc: Global,
        names: &TypedefNames<'a>,
        tokens: &mut Cursor<'_, 'a>,
        levels: usize,
        kind: DeclaratorKind,
    ) -> Result<Leveled<Boxed<Declarator<'a>>>, Fault> {
        (self.declarator)(alloc, names, tokens, levels, kind)
    }
}
