//! The lists in initializers and declarations (C99 6.7).

ghost use Rattle.std.specs.Prelude.{◌≡◌, List};
ghost use Rattle.c_syntax.specs.StatementsView as views;
ghost use Rattle.c_counts.specs.Counts as counts;
ghost use Rattle.c_counts.specs.Counts.{Count};
ghost use Rattle.c_counts.specs.Excess.{with_counts};

use crate::excess::Excess;
use crate::trees::{declarator, expression, specifiers};
use c_syntax::declaration::{
    Declaration, Designation, Designator, InitDeclarator, Initializer, InitializerItem,
};
use c_syntax::position::Position;

fn designator(so_far: Excess, tree: &Designator) -> Excess
    ensures { (cs : List Count) → with_counts cs result
        ≡ with_counts (counts.designator (views.designator_of tree.now) cs) so_far }
{
    match tree {
        Designator::Element(_, index, _) => expression(so_far, index.get()),
        Designator::Member(_, _) => so_far,
    }
}

fn designators(mut so_far: Excess, trees: &[Designator]) -> Excess
    ensures { (cs : List Count) → with_counts cs result
        ≡ with_counts (counts.designators (views.designators_in trees.now) cs) so_far }
{
    for tree in trees {
        so_far = designator(so_far, tree);
    }
    so_far
}

fn designation(so_far: Excess, tree: &Option<Designation>) -> Excess
    ensures { (cs : List Count) → with_counts cs result
        ≡ with_counts (counts.designation (views.designation_of tree.now) cs) so_far }
{
    match tree {
        None => so_far,
        Some(given) => designators(so_far, given.designators.as_slice()),
    }
}

// With the lists in an initializer (C99 6.7.8).
#[cycle(initializers)]
#[tactic(auto, using(c_syntax::proofs::StatementViews::braced_view))]
fn initializer(so_far: Excess, tree: &Initializer) -> Excess
    ensures { (cs : List Count) → with_counts cs result
        ≡ with_counts (counts.initializer (views.initializer_of tree.now) cs) so_far }
{
    match tree {
        Initializer::Value(value) => expression(so_far, value.expression.get()),
        Initializer::Braced(_, first, others, _, _) => {
            more_items(item(so_far, first.get()), others.as_slice())
        }
    }
}

#[cycle(initializers)]
fn item(so_far: Excess, tree: &InitializerItem) -> Excess
    ensures { (cs : List Count) → with_counts cs result
        ≡ with_counts (counts.item (views.item_of tree.now) cs) so_far }
{
    initializer(designation(so_far, &tree.designation), &tree.initializer)
}

#[cycle(initializers)]
fn more_items(mut so_far: Excess, others: &[(Position, InitializerItem)]) -> Excess
    ensures { (cs : List Count) → with_counts cs result
        ≡ with_counts (counts.more_items (views.more_items_in others.now) cs) so_far }
{
    for (_, tree) in others {
        so_far = item(so_far, tree);
    }
    so_far
}

// With the lists in a declarator and its initializer (C99 6.7).
fn init_declarator(so_far: Excess, tree: &InitDeclarator) -> Excess
    ensures { (cs : List Count) → with_counts cs result
        ≡ with_counts (counts.init_declarator (views.init_declarator_of tree.now) cs) so_far }
{
    let so_far = declarator(so_far, tree.declarator.get());
    match &tree.initializer {
        None => so_far,
        Some((_, given)) => initializer(so_far, given.get()),
    }
}

fn more_init_declarators(mut so_far: Excess, others: &[(Position, InitDeclarator)]) -> Excess
    ensures { (cs : List Count) → with_counts cs result
        ≡ with_counts (counts.more_init_declarators (views.more_init_declarators_in others.now) cs) so_far }
{
    for (_, tree) in others {
        so_far = init_declarator(so_far, tree);
    }
    so_far
}

/// With the lists in a declaration (C99 6.7).
pub(crate) fn declaration(so_far: Excess, tree: &Declaration) -> Excess
    ensures { (cs : List Count) → with_counts cs result
        ≡ with_counts (counts.declaration (views.declaration_of tree.now) cs) so_far }
{
    let so_far = specifiers(so_far, tree.specifiers.as_slice());
    match &tree.declarators {
        None => so_far,
        Some(declarators) => {
            let declarators = declarators.get();
            let so_far = init_declarator(so_far, &declarators.first);
            more_init_declarators(so_far, declarators.others.as_slice())
        }
    }
}
