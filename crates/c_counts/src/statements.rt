//! The lists in statements and files (C99 6.8, 6.9).

ghost use Rattle.std.specs.Prelude.{◌≡◌, List, None};
ghost use Rattle.c_syntax.specs.StatementsView as views;
ghost use Rattle.c_counts.specs.Counts as counts;
ghost use Rattle.c_counts.specs.Counts.{Count};
ghost use Rattle.c_counts.specs.Excess.{first_above, members_among, most_members, most_parameters};
ghost use Rattle.c_counts.specs.Excess.{parameters_among, with_counts};

use crate::declarations::declaration;
use crate::excess::Excess;
use crate::trees::{declarator, expression, specifiers};
use c_syntax::statement::{Block, BlockItem, External, ForHead, ForInit, Statement, Unit};
use c_syntax::tree::Expression;
use tree_containers::Boxed;

fn optional(so_far: Excess, tree: &Option<Boxed<Expression>>) -> Excess
    ensures { (cs : List Count) → with_counts cs result
        ≡ with_counts (counts.optional (views.optional_of tree.now) cs) so_far }
{
    match tree {
        None => so_far,
        Some(given) => expression(so_far, given.get()),
    }
}

// With the lists in the head of a `for` (C99 6.8.5.3).
fn for_head(so_far: Excess, tree: &ForHead) -> Excess
    ensures { (cs : List Count) → with_counts cs result
        ≡ with_counts (counts.for_init (views.for_init_of tree.now.init)
        (counts.optional (views.optional_of tree.now.condition)
        (counts.optional (views.optional_of tree.now.step) cs))) so_far }
{
    let so_far = match &tree.init {
        ForInit::Declaration(given) => declaration(so_far, given),
        ForInit::Expression(given, _) => optional(so_far, given),
    };
    optional(optional(so_far, &tree.condition), &tree.step)
}

// With the lists in a statement (C99 6.8).
#[cycle(statements)]
fn statement(so_far: Excess, tree: &Statement) -> Excess
    ensures { (cs : List Count) → with_counts cs result
        ≡ with_counts (counts.statement (views.statement_of tree.now) cs) so_far }
{
    match tree {
        Statement::Block(inner) => block(so_far, inner),
        Statement::Expression(given, _) | Statement::Return(_, given, _) => optional(so_far, given),
        Statement::If(_, condition, inner) | Statement::While(_, condition, inner) => {
            statement(expression(so_far, condition.inner.get()), inner.get())
        }
        Statement::IfElse(_, condition, first, _, second) => {
            let so_far = expression(so_far, condition.inner.get());
            statement(statement(so_far, first.get()), second.get())
        }
        Statement::Switch(_, value, inner) => {
            block(expression(so_far, value.inner.get()), inner)
        }
        Statement::Do(_, inner, end) => {
            expression(statement(so_far, inner.get()), end.condition.inner.get())
        }
        Statement::For(_, head, inner) => statement(for_head(so_far, head), inner.get()),
        Statement::Case(label, inner) => {
            statement(expression(so_far, label.value.get()), inner.get())
        }
        Statement::Default(_, _, inner) => statement(so_far, inner.get()),
        Statement::Break(_, _) | Statement::Continue(_, _) => so_far,
    }
}

#[cycle(statements)]
fn block(so_far: Excess, tree: &Block) -> Excess
    ensures { (cs : List Count) → with_counts cs result
        ≡ with_counts (counts.block (views.block_of tree.now) cs) so_far }
{
    block_items(so_far, tree.items.as_slice())
}

#[cycle(statements)]
fn block_items(mut so_far: Excess, trees: &[BlockItem]) -> Excess
    ensures { (cs : List Count) → with_counts cs result
        ≡ with_counts (counts.block_items (views.items_in trees.now) cs) so_far }
{
    for tree in trees {
        so_far = block_item(so_far, tree);
    }
    so_far
}

#[cycle(statements)]
fn block_item(so_far: Excess, tree: &BlockItem) -> Excess
    ensures { (cs : List Count) → with_counts cs result
        ≡ with_counts (counts.block_item (views.block_item_of tree.now) cs) so_far }
{
    match tree {
        BlockItem::Declaration(given) => declaration(so_far, given),
        BlockItem::Statement(given) => statement(so_far, given.get()),
    }
}

// With the lists in a function definition or declaration (C99 6.9).
fn external(so_far: Excess, tree: &External) -> Excess
    ensures { (cs : List Count) → with_counts cs result
        ≡ with_counts (counts.external (views.external_of tree.now) cs) so_far }
{
    match tree {
        External::Function(words, declared, body) => {
            let so_far = specifiers(so_far, words.as_slice());
            block(declarator(so_far, declared.get()), body)
        }
        External::Declaration(given) => declaration(so_far, given),
    }
}

fn externals(trees: &[External]) -> Excess
    ensures { (cs : List Count) → with_counts cs result
        ≡ with_counts (counts.externals (views.externals_in trees.now) cs)
        (record { parameters = None; members = None }) }
{
    let mut so_far = Excess::none();
    for tree in trees {
        so_far = external(so_far, tree);
    }
    so_far
}

/// How many parameters the first list of parameters in a file that has more than 127 has, and how many members the
/// first list of members that has more than 1024, if there are such lists; in the order of their `(` and `{`.
pub fn excess_of(unit: &Unit) -> Excess
    ensures parameters { result.parameters ≡ first_above most_parameters
        (parameters_among (counts.counts_of (views.unit_of unit.now).externals)) }
    ensures members { result.members ≡ first_above most_members
        (members_among (counts.counts_of (views.unit_of unit.now).externals)) }
{
    externals(unit.externals.as_slice())
}
