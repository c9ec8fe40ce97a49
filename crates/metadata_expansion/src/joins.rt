//! The nodes that more than one way leads to.

ghost use Rattle.tac_ir.specs.Ways.{nodes_of};
ghost use Rattle.std.specs.Prelude.{◌≡◌, ◌≤◌, [], ◌∷◌, length, replicate, IfOk};
ghost use Rattle.metadata_plan.specs.Laid.{falls};
ghost use Rattle.metadata_expansion.specs.declared.joins.Arrivals.TheVariants.{Never};
ghost use Rattle.metadata_expansion.specs.Joins.{Adds, AreJoins, and_one, is_often, ways_in};

use std::alloc::{AllocError, Global};
use tac_ir::{CodeFunction, Ways, ways_of};
use tree_containers::Items;

/// How many ways lead to a node.
#[derive(Clone, Copy)]
pub enum Arrivals {
    /// None.
    Never,
    /// One.
    Once,
    /// More than one.
    Often,
}

impl Arrivals {
    // One way more.
    fn and_one(self) -> Arrivals
        ensures { result ≡ and_one self }
    {
        match self {
            Arrivals::Never => Arrivals::Once,
            Arrivals::Once | Arrivals::Often => Arrivals::Often,
        }
    }

    // Whether there are several.
    fn is_often(self) -> bool
        ensures { result ≡ is_often self }
    {
        match self {
            Arrivals::Never | Arrivals::Once => false,
            Arrivals::Often => true,
        }
    }
}

/// The arrivals at each node of a function, of which that behind the prologue is one.
#[derive(Drop)]
pub struct Joins {
    /// Those of the nodes by number.
    pub arrivals: Items<Arrivals>,
}

// So many nodes without a way to them.
fn without_ways(alloc: Global, count: usize) -> Result<Vec<Arrivals>, AllocError>
    ensures { IfOk result (λ table. table.items ≡ replicate count Never) }
{
    vec![in alloc; Arrivals::Never; count]
}

// Counts a way to a node.
fn add_way(table: &mut Vec<Arrivals>, node: usize)
    ensures { Adds table.old.items table.new.items (ways_in (node ∷ [])) }
{
    if node < table.len() {
        table[node] = table[node].and_one();
    }
}

// Counts the ways from an instruction.
fn add_ways(table: &mut Vec<Arrivals>, ways: Ways)
    ensures { Adds table.old.items table.new.items (ways_in (nodes_of ways)) }
{
    match ways {
        Ways::Nowhere => {}
        Ways::To(next) => add_way(table, next),
        Ways::Either(first, second) => {
            add_way(table, first);
            add_way(table, second);
        }
    }
}

impl Joins {
    /// Those of a function.
    pub fn new(alloc: Global, function: &CodeFunction) -> Result<Joins, AllocError>
        ensures { IfOk result (λ joins. AreJoins joins function.now) }
    {
        let code = function.code.as_slice();
        let mut table = without_ways(alloc, code.len())?;
        add_way(&mut table, function.entry);
        for instruction in code {
            add_ways(&mut table, ways_of(instruction));
        }
        Ok(Joins {
            arrivals: Items::from_vec(table),
        })
    }

    /// Whether the code of a node falls into that of another.
    pub fn falls(&self, function: &CodeFunction, node: usize, next: usize) -> bool
        requires joins { AreJoins self.now function.now }
        requires inside { node ≤ length function.now.code }
        ensures { result ≡ falls function.now node next }
    {
        next as u128 + 1 == node as u128 && !self.arrivals.as_slice()[next].is_often()
    }
}
