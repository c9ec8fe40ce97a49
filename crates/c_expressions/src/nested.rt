//! Reading expressions, specifiers and declarators, by the number of levels that there may be.

ghost use Rattle.std.specs.Prelude.{◌≡◌};
ghost use Rattle.c_grammar.specs.Nested.{readers};
ghost use Rattle.c_expressions.specs.LeveledReads.{ReadsLeveled};
ghost use Rattle.c_syntax.specs.View.{expression_of, specifiers_in, declarator_of};
ghost use Rattle.c_syntax.specs.Levels.{expression_levels, specifiers_levels, declarator_levels};

use crate::deeper::Functions;
use crate::grammar::Grammar;
use crate::leveled::Leveled;
use c_grammar::cursor::{Cursor, Fault};
use c_grammar::declarator_kind::DeclaratorKind;
use c_grammar::typedef_names::TypedefNames;
use c_syntax::{Boxed, Declarator, Expression, Items, Position, Specifier};
use std::alloc::Global;

/// Reads an expression of at least this precedence with fewer than this number of levels; a position is that of the `(`
/// that was taken (C99 6.5).
#[cycle(reader)]
pub fn expression<'a>(
    alloc: Global,
    names: &TypedefNames<'a>,
    tokens: &mut Cursor<'_, 'a>,
    levels: usize,
    opened: Option<Position>,
    least: u8,
) -> Result<Leveled<Boxed<Expression<'a>>>, Fault>
    ensures { ReadsLeveled expression_of expression_levels levels
        ((readers names.now levels).expression opened least tokens.old.rest.now) result tokens.new.rest.now }
{
    if levels == 0 {
        return Err(Fault::Refused);
    }
    Grammar {
        alloc,
        names,
        levels: levels - 1,
        deeper: Functions {
            expression,
            specifiers,
            declarator,
        },
    }
    .expression_at(tokens, opened, least)
}

/// Reads specifiers with fewer than this number of levels, `typedef` among them where it is allowed (C99 6.7.1 to
/// 6.7.4).
#[cycle(reader)]
pub fn specifiers<'a>(
    alloc: Global,
    names: &TypedefNames<'a>,
    tokens: &mut Cursor<'_, 'a>,
    levels: usize,
    allowed: bool,
) -> Result<Leveled<Items<Specifier<'a>>>, Fault>
    ensures { ReadsLeveled specifiers_in specifiers_levels levels
        ((readers names.now levels).specifiers allowed tokens.old.rest.now) result tokens.new.rest.now }
{
    if levels == 0 {
        return Err(Fault::Refused);
    }
    Grammar {
        alloc,
        names,
        levels: levels - 1,
        deeper: Functions {
            expression,
            specifiers,
            declarator,
        },
    }
    .specifiers_at(tokens, allowed)
}

/// Reads a declarator with fewer than this number of levels (C99 6.7.5, 6.7.6).
#[cycle(reader)]
pub fn declarator<'a>(
    alloc: Global,
    names: &TypedefNames<'a>,
    tokens: &mut Cursor<'_, 'a>,
    levels: usize,
    kind: DeclaratorKind,
) -> Result<Leveled<Boxed<Declarator<'a>>>, Fault>
    ensures { ReadsLeveled declarator_of declarator_levels levels
        ((readers names.now levels).declarator kind tokens.old.rest.now) result tokens.new.rest.now }
{
    if levels == 0 {
        return Err(Fault::Refused);
    }
    Grammar {
        alloc,
        names,
        levels: levels - 1,
        deeper: Functions {
            expression,
            specifiers,
            declarator,
        },
    }
    .declarator_at(tokens, kind)
}
