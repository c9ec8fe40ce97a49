//! Initializers with and without braces (C99 6.7.8), in the order of the tokens.

pub mod designators;
pub mod dropping;
pub mod steps;
pub mod values;

ghost use Rattle.c_syntax.specs.StatementsView.{initializer_of, item_of, more_items_in};
ghost use Rattle.c_syntax.specs.View.{expression_of};
ghost use Rattle.c_initializer_rules.specs.Initializing.{initializing_of};
ghost use Rattle.c_typing_state.specs.State.{Types, judged, state_of, ◌>>>◌};
ghost use Rattle.c_unit_typing.specs.Initializers.{by_expression, by_value, filled, initialized, unless_filled};
ghost use Rattle.c_unit_typing.specs.Initializers.{with_item, with_items};
ghost use Rattle.c_unit_typing.specs.Lines.{expression_line};

use crate::initializers::designators::designated_by;
use crate::initializers::steps::{closed, opened, with_literal, with_value};
use crate::initializers::values::value;
use c_expression_typing::constructs::literal_alone;
use c_faults::Refusal;
use c_initializer_rules::Initializing;
use c_syntax::declaration::{Initializer, InitializerItem};
use c_syntax::{Expression, Position};
use c_typing_state::Typer;
use c_unit_typing::lines::expression_line;

// An expression whose value is stored.
fn by_value<'a>(
    typer: &mut Typer<'a>,
    begun: &mut Initializing,
    tree: &Expression<'a>,
) -> Result<(), Refusal>
    ensures { Types (λ done. initializing_of begun.new) (state_of typer.new) result
        (by_value (expression_of tree.now) (initializing_of begun.old) (state_of typer.old)) }
{
    let value = value(typer, true, tree)?;
    with_value(typer, begun, expression_line(tree), value)
}

// A string literal of these bytes, which fills an array of character type, or whose value is stored.
fn by_literal<'a>(
    typer: &mut Typer<'a>,
    begun: &mut Initializing,
    tree: &Expression<'a>,
    spelled: Vec<u8>,
) -> Result<(), Refusal>
    ensures { Types (λ done. initializing_of begun.new) (state_of typer.new) result ((judged (filled spelled.items
        (expression_line (expression_of tree.now)) (initializing_of begun.old)) >>> unless_filled (expression_of
        tree.now)) (state_of typer.old)) }
{
    if with_literal(typer, begun, expression_line(tree), spelled)? {
        Ok(())
    } else {
        by_value(typer, begun, tree)
    }
}

// An initializer without braces.
fn by_expression<'a>(
    typer: &mut Typer<'a>,
    begun: &mut Initializing,
    tree: &Expression<'a>,
) -> Result<(), Refusal>
    ensures { Types (λ done. initializing_of begun.new) (state_of typer.new) result
        (by_expression (expression_of tree.now) (initializing_of begun.old) (state_of typer.old)) }
{
    match literal_alone(typer.alloc, tree)? {
        None => by_value(typer, begun, tree),
        Some(spelled) => by_literal(typer, begun, tree, spelled),
    }
}

/// An initializer of what comes next in one that has begun. The refusal is that of the first rule that is violated, in
/// the order of the tokens, or that there is no memory.
#[cycle(initializers)]
#[tactic(auto, using(c_syntax::proofs::StatementViews::braced_view))]
pub(crate) fn initialized<'a>(
    typer: &mut Typer<'a>,
    begun: &mut Initializing,
    tree: &Initializer<'a>,
) -> Result<(), Refusal>
    ensures { Types (λ done. initializing_of begun.new) (state_of typer.new) result
        (initialized (initializer_of tree.now) (initializing_of begun.old) (state_of typer.old)) }
{
    match tree {
        Initializer::Value(value) => by_expression(typer, begun, value.expression.get()),
        Initializer::Braced(opening, first, more, _, _) => {
            opened(typer, begun)?;
            with_item(typer, begun, first.get())?;
            with_items(typer, begun, more.as_slice())?;
            closed(typer, begun, opening.line)
        }
    }
}

// An item of a list.
#[cycle(initializers)]
#[tactic(auto, using(c_syntax::proofs::StatementViews::item_view))]
fn with_item<'a>(
    typer: &mut Typer<'a>,
    begun: &mut Initializing,
    item: &InitializerItem<'a>,
) -> Result<(), Refusal>
    ensures { Types (λ done. initializing_of begun.new) (state_of typer.new) result
        (with_item (item_of item.now) (initializing_of begun.old) (state_of typer.old)) }
{
    designated_by(typer, begun, &item.designation)?;
    initialized(typer, begun, &item.initializer)
}

// The items of a list, each behind its comma.
#[cycle(initializers)]
fn with_items<'a>(
    typer: &mut Typer<'a>,
    begun: &mut Initializing,
    more: &[(Position, InitializerItem<'a>)],
) -> Result<(), Refusal>
    ensures { Types (λ done. initializing_of begun.new) (state_of typer.new) result
        (with_items (more_items_in more.now) (initializing_of begun.old) (state_of typer.old)) }
{
    for (_, item) in more {
        with_item(typer, begun, item)?;
    }
    Ok(())
}
