//! Trees with their levels. What is built of large trees goes through these functions, which are generic: a `?` beside
//! an owned tree drops it, and the proof of a drop writes out the whole type unless the type is a parameter.

ghost use Rattle.std.specs.Prelude.{◌≡◌, ◌++◌, ◌∷◌, [], max, IfOk, Ok, Err, true, false};
ghost use Rattle.c_expressions.specs.LeveledReads.{IsAbove, IsAlone};
ghost use Rattle.c_grammar.specs.declared.cursor.Fault.TheVariants.{Refused};
ghost use Rattle.c_grammar.specs.declared.cursor.Fault.{Fault};

use c_grammar::cursor::Fault;
use c_syntax::{Boxed, Items, Position};
use std::alloc::{AllocError, Global};

/// A tree and how many levels it has, so that they need no counting.
#[derive(Drop)]
pub struct Leveled<T> {
    /// The tree.
    pub tree: T,
    /// Its levels.
    pub levels: usize,
}

/// A tree without levels.
pub fn leaf<T>(tree: T) -> Leveled<T>
    ensures tree { result.tree ≡ tree }
    ensures levels { result.levels ≡ 0 }
{
    Leveled { tree, levels: 0 }
}

/// A value and what was read behind it, if that was read.
pub fn beside<T: Drop, U, E>(first: T, second: Result<U, E>) -> Result<(T, U), E>
    ensures ok { IfOk result (λ both. (both.0 ≡ first) × (second ≡ Ok both.1)) }
    ensures err { (fault : E) → result ≡ Err fault → second ≡ Err fault }
{
    match second {
        Ok(second) => Ok((first, second)),
        Err(fault) => Err(fault),
    }
}

/// A value where something holds, and else a refusal.
pub fn where_true<T: Drop>(holds: bool, value: T) -> Result<T, Fault>
    ensures ok { IfOk result (λ same. (holds ≡ true) × (same ≡ value)) }
    ensures err { (fault : Fault) → result ≡ Err fault → (holds ≡ false) × (fault ≡ Refused) }
{
    if holds {
        Ok(value)
    } else {
        Err(Fault::Refused)
    }
}

impl<T: Drop> Leveled<T> {
    /// The tree in a block of its own, or the answer that there is no memory for it.
    pub fn boxed(self, alloc: Global) -> Result<Leveled<Boxed<T>>, AllocError>
        ensures { IfOk result (λ boxed. boxed ≡ self) }
    {
        let Leveled { tree, levels } = self;
        Ok(Leveled {
            tree: Boxed::new(alloc, tree)?,
            levels,
        })
    }
}

/// The tree in a block of its own, one level above this number of levels, or the answer that there is no memory for it.
pub fn above<T: Drop>(alloc: Global, levels: usize, tree: T) -> Result<Leveled<Boxed<T>>, Fault>
    ensures { IsAbove tree levels result }
{
    match Boxed::new(alloc, tree) {
        Ok(tree) => Ok(Leveled {
            tree,
            // Levels are below a number that a `usize` can be, so that the sum is exact.
            levels: levels.saturating_add(1),
        }),
        Err(_) => Err(Fault::Memory),
    }
}

/// The tree in a block of its own, without levels, or the answer that there is no memory for it.
pub fn alone<T: Drop>(alloc: Global, tree: T) -> Result<Leveled<Boxed<T>>, Fault>
    ensures { IsAlone tree result }
{
    match Boxed::new(alloc, tree) {
        Ok(tree) => Ok(leaf(tree)),
        Err(_) => Err(Fault::Memory),
    }
}

/// No trees.
pub fn no_trees<T>(alloc: Global) -> Leveled<Vec<T>>
    ensures trees { result.tree.items ≡ [] }
    ensures levels { result.levels ≡ 0 }
{
    leaf(Vec::new(alloc))
}

/// The items and one more, or the answer that there is no memory for it.
pub fn with_item<T: Drop>(items: Vec<T>, item: T) -> Result<Vec<T>, AllocError>
    ensures { IfOk result (λ more. more.items ≡ items.items ++ (item ∷ [])) }
{
    let mut items = items;
    items.push(item)?;
    Ok(items)
}

/// The trees and one more, or the answer that there is no memory for it.
pub fn with_tree<T: Drop>(
    trees: Leveled<Vec<T>>,
    tree: Leveled<T>,
) -> Result<Leveled<Vec<T>>, AllocError>
    ensures { IfOk result (λ more. (more.tree.items ≡ trees.tree.items ++ (tree.tree ∷ []))
        × (more.levels ≡ max tree.levels trees.levels)) }
{
    let levels = tree.levels.max(trees.levels);
    let tree = with_item(trees.tree, tree.tree)?;
    Ok(Leveled { tree, levels })
}

/// The trees and one more behind a comma, or the answer that there is no memory for it.
pub fn with_next<T: Drop>(
    trees: Leveled<Vec<(Position, T)>>,
    comma: Position,
    tree: Leveled<T>,
) -> Result<Leveled<Vec<(Position, T)>>, AllocError>
    ensures { IfOk result (λ more. (more.tree.items ≡ trees.tree.items ++ ((comma, tree.tree) ∷ []))
        × (more.levels ≡ max tree.levels trees.levels)) }
{
    let Leveled { tree, levels } = tree;
    with_tree(
        trees,
        Leveled {
            tree: (comma, tree),
            levels,
        },
    )
}

/// The trees as a list.
pub fn as_items<T>(trees: Leveled<Vec<T>>) -> Leveled<Items<T>>
    ensures trees { result.tree ≡ trees.tree.items }
    ensures levels { result.levels ≡ trees.levels }
{
    Leveled {
        tree: Items::from_vec(trees.tree),
        levels: trees.levels,
    }
}

/// The trees as a list, and the comma behind the last of them, where one stands there.
pub fn before_comma<T>(
    trees: Leveled<Vec<T>>,
    comma: Option<Position>,
) -> Leveled<(Items<T>, Option<Position>)>
    ensures trees { result.tree.0 ≡ trees.tree.items }
    ensures comma { result.tree.1 ≡ comma }
    ensures levels { result.levels ≡ trees.levels }
{
    Leveled {
        tree: (Items::from_vec(trees.tree), comma),
        levels: trees.levels,
    }
}
