//! The graph of a function, with its edges turned round.

ghost use Rattle.std.specs.Prelude.{◌≡◌, ◌<◌, ◌^◌, ◌∷◌, [], ℕ, IfOk, OnOk, length, slice_get, Some};
ghost use Rattle.tac_ir.specs.Edges.{successors};
ghost use Rattle.tac_ir.specs.Ways.{nodes_of};
ghost use Rattle.check_elim.specs.Paths.{Path};
ghost use Rattle.check_elim.specs.Searches.{Listed, HasPredecessors, Follows, IsFollowed, IsExploring};
ghost use Rattle.check_elim.specs.Worklists.{IsWorklist, Grows};

use crate::worklist::Worklist;
use data_flow::Relation;
use std::alloc::{AllocError, Global};
use tac_ir::{CodeFunction, Ways, ways_of};

// A node is reached from another, if it is there.
#[tactic(auto, using(crate::proofs::Exploring::reaching))]
fn reach(
    reached: &mut Worklist,
    before: &mut Relation,
    node: u32,
    next: usize,
) -> Result<(), AllocError>
    requires list { IsWorklist (length before.old.rows.items) reached.old }
    requires few { length before.old.rows.items < 2 ^ 32 }
    ensures follows { OnOk result (Follows (length before.old.rows.items) node (next ∷ []) reached.old reached.new
        before.old before.new) }
    ensures list { OnOk result (IsWorklist (length before.old.rows.items) reached.new) }
    ensures rows { length before.new.rows.items ≡ length before.old.rows.items }
{
    if next < before.rows.len() {
        before.relate(next, node)?;
        reached.put(next as u32)?;
    }
    Ok(())
}

// All that a node leads to is reached.
fn follow(
    function: &CodeFunction,
    reached: &mut Worklist,
    before: &mut Relation,
    node: u32,
) -> Result<(), AllocError>
    requires here { node < length function.now.code }
    requires path { Path function.now node }
    requires exploring { IsExploring function.now reached.old before.old }
    requires few { length function.now.code < 2 ^ 32 }
    ensures exploring { OnOk result (IsExploring function.now reached.new before.new) }
    ensures followed { OnOk result (IsFollowed function.now reached.new before.new node) }
    ensures grows { OnOk result (Grows reached.old reached.new) }
    ensures kept { OnOk result ((n : ℕ) → IsFollowed function.now reached.old before.old n
        → IsFollowed function.now reached.new before.new n) }
{
    let ways = ways_of(&function.code.as_slice()[node as usize]);
    let followed = follow_ways(reached, before, node, ways)?;
    Ok(followed)
}

fn follow_ways(
    reached: &mut Worklist,
    before: &mut Relation,
    node: u32,
    ways: Ways,
) -> Result<(), AllocError>
    requires list { IsWorklist (length before.old.rows.items) reached.old }
    requires few { length before.old.rows.items < 2 ^ 32 }
    ensures follows { OnOk result (Follows (length before.old.rows.items) node (nodes_of ways) reached.old reached.new
        before.old before.new) }
    ensures list { OnOk result (IsWorklist (length before.old.rows.items) reached.new) }
    ensures rows { length before.new.rows.items ≡ length before.old.rows.items }
{
    match ways {
        Ways::Nowhere => Ok(()),
        Ways::To(next) => {
            let reached_one = reach(reached, before, node, next)?;
            Ok(reached_one)
        }
        Ways::Either(next, other) => {
            reach(reached, before, node, next)?;
            let reached_both = reach(reached, before, node, other)?;
            Ok(reached_both)
        }
    }
}

// The node where calls begin, if it is there.
fn begun(alloc: Global, function: &CodeFunction) -> Result<Worklist, AllocError>
    requires few { length function.now.code < 2 ^ 32 }
    ensures list { IfOk result (λ w. IsWorklist (length function.now.code) w) }
    ensures entry { IfOk result (λ w. function.now.entry < length function.now.code
        → Listed w function.now.entry) }
    ensures paths { IfOk result (λ w. (v : ℕ) → Listed w v → Path function.now v) }
{
    let mut reached = Worklist::new(alloc, function.code.as_slice().len())?;
    if function.entry >= function.code.as_slice().len() {
        return Ok(reached);
    }
    reached.put(function.entry as u32)?;
    Ok(reached)
}

/// For each node of a function, from which nodes an edge leads to it. Nodes to which no path leads have none, and none
/// is such a node.
pub fn predecessors(alloc: Global, function: &CodeFunction) -> Result<Relation, AllocError>
    requires few { length function.now.code < 2 ^ 32 }
    ensures { IfOk result (λ before. HasPredecessors function.now before) }
{
    let count = function.code.as_slice().len();
    let mut reached = begun(alloc, function)?;
    let mut before = Relation::new(alloc, count)?;
    let mut done = 0usize;
    while done < reached.nodes.len() {
        let node = reached.nodes[done];
        follow(function, &mut reached, &mut before, node)?;
        done += 1;
    }
    Ok(before)
}
