//! Whether an initializer or a statement has no more than some levels of nesting.

ghost use Rattle.std.specs.Prelude.{IsTrue, ◌↔◌, ◌≤◌, ◌∷◌, []};
ghost use Rattle.c_syntax.specs.Levels as spec;
ghost use Rattle.c_syntax.specs.StatementsView as views;

use crate::levels::expression_fits;
use c_syntax::declaration::{Designation, Designator, Initializer, InitializerItem};
use c_syntax::position::Position;
use c_syntax::statement::{Block, BlockItem, Statement};

/// Whether the sizes in designators have no more levels (C99 6.7.8).
fn designators_fit(designators: &[Designator], levels: usize) -> bool
    ensures { IsTrue result ↔ (spec.designators_levels (views.designators_in designators.now) ≤ levels) }
{
    for designator in designators {
        if !designator_fits(designator, levels) {
            return false;
        }
    }
    true
}

/// Whether the size in a designator, if there is one, has no more levels.
fn designator_fits(designator: &Designator, levels: usize) -> bool
    ensures { IsTrue result ↔ (spec.designators_levels (views.designator_of designator.now ∷ []) ≤ levels) }
{
    match designator {
        Designator::Element(_, index, _) => expression_fits(index.get(), levels),
        Designator::Member(_, _) => true,
    }
}

/// Whether a designation, if there is one, has no more levels (C99 6.7.8).
fn designation_fits(designation: &Option<Designation>, levels: usize) -> bool
    ensures { IsTrue result ↔ (spec.designation_levels (views.designation_of designation.now) ≤ levels) }
{
    match designation {
        None => true,
        Some(designation) => designators_fit(designation.designators.as_slice(), levels),
    }
}

/// Whether an initializer has no more levels (C99 6.7.8).
#[cycle(initializers)]
#[tactic(auto, using(c_syntax::proofs::StatementViews::braced_view))]
pub(crate) fn initializer_fits(initializer: &Initializer, levels: usize) -> bool
    ensures { IsTrue result ↔ (spec.initializer_levels (views.initializer_of initializer.now) ≤ levels) }
{
    match initializer {
        Initializer::Value(value) => expression_fits(value.expression.get(), levels),
        Initializer::Braced(_, first, others, _, _) => {
            levels > 0
                && item_fits(first.get(), levels - 1)
                && more_items_fit(others.as_slice(), levels - 1)
        }
    }
}

/// Whether an initializer in a list has no more levels.
#[cycle(initializers)]
#[tactic(auto, using(c_syntax::proofs::StatementViews::item_view))]
fn item_fits(item: &InitializerItem, levels: usize) -> bool
    ensures { IsTrue result ↔ (spec.item_levels (views.item_of item.now) ≤ levels) }
{
    designation_fits(&item.designation, levels) && initializer_fits(&item.initializer, levels)
}

/// Whether initializers behind commas have no more levels.
#[cycle(initializers)]
fn more_items_fit(others: &[(Position, InitializerItem)], levels: usize) -> bool
    ensures { IsTrue result ↔ (spec.more_items_levels (views.more_items_in others.now) ≤ levels) }
{
    for (_, item) in others {
        if !item_fits(item, levels) {
            return false;
        }
    }
    true
}

/// Whether a statement has no more levels (C99 6.8).
#[cycle(statements)]
fn statement_fits(statement: &Statement, levels: usize) -> bool
    ensures { IsTrue result ↔ (spec.statement_levels (views.statement_of statement.now) ≤ levels) }
{
    match statement {
        Statement::Block(block) => block_fits(block, levels),
        Statement::Expression(_, _)
        | Statement::Break(_, _)
        | Statement::Continue(_, _)
        | Statement::Return(_, _, _) => true,
        Statement::If(_, _, inner)
        | Statement::While(_, _, inner)
        | Statement::Do(_, inner, _)
        | Statement::For(_, _, inner)
        | Statement::Case(_, inner)
        | Statement::Default(_, _, inner) => {
            levels > 0 && statement_fits(inner.get(), levels - 1)
        }
        Statement::IfElse(_, _, first, _, second) => {
            levels > 0
                && statement_fits(first.get(), levels - 1)
                && statement_fits(second.get(), levels - 1)
        }
        Statement::Switch(_, _, block) => levels > 0 && block_fits(block, levels - 1),
    }
}

/// Whether a block has no more levels (C99 6.8.2).
#[cycle(statements)]
#[tactic(auto, using(c_syntax::proofs::StatementViews::block_view))]
pub(crate) fn block_fits(block: &Block, levels: usize) -> bool
    ensures { IsTrue result ↔ (spec.block_levels (views.block_of block.now) ≤ levels) }
{
    items_fit(block.items.as_slice(), levels)
}

/// Whether what stands in a block has no more levels.
#[cycle(statements)]
fn items_fit(items: &[BlockItem], levels: usize) -> bool
    ensures { IsTrue result ↔ (spec.items_levels (views.items_in items.now) ≤ levels) }
{
    for item in items {
        if !block_item_fits(item, levels) {
            return false;
        }
    }
    true
}

/// Whether a declaration or statement of a block has no more levels.
#[cycle(statements)]
fn block_item_fits(item: &BlockItem, levels: usize) -> bool
    ensures { IsTrue result ↔ (spec.block_item_levels (views.block_item_of item.now) ≤ levels) }
{
    match item {
        BlockItem::Declaration(_) => true,
        BlockItem::Statement(statement) => {
            levels > 0 && statement_fits(statement.get(), levels - 1)
        },
    }
}
