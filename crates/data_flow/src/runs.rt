//! Runs of nodes, which a fact that comes to their last node fills, and which it leaves by their first alone.

ghost use Rattle.std.specs.Prelude.{◌≡◌, ◌<◌, ◌≤◌, ℕ};
ghost use Rattle.std.specs.List.Sorted.{IsNonDecreasing};
ghost use Rattle.data_flow.specs.Relations.{Has};
ghost use Rattle.data_flow.specs.Runs.{IsRun, IsLastBelow};
ghost use Rattle.data_flow.specs.Stretches.{AreStretches};

use crate::relation::Relation;
use crate::stretches::Stretches;

/// The nodes from one to another.
#[derive(Clone, Copy)]
pub struct Run {
    /// The first node.
    pub first: u32,
    /// The last node.
    pub last: u32,
}

// The greatest number of a sorted list that is below another.
fn last_below(list: &[u32], bound: u32) -> Option<u32>
    requires { IsNonDecreasing list.now }
    ensures { IsLastBelow list.now bound result }
{
    let count = list.partition_point(|number| *number < bound);
    if count == 0 {
        return None;
    }
    Some(list[count - 1])
}

/// The first node of the longest run that is found which ends with a node, and in which no other is killed.
pub(crate) fn run_start(stretches: &Stretches, edges: &Relation, killed: &[u32], node: u32) -> u32
    requires stretches { AreStretches edges.now stretches.now }
    requires sorted { IsNonDecreasing killed.now }
    ensures run { IsRun edges.now result node }
    ensures free { (k : ℕ) → result ≤ k → k < node → Has killed.now k → ⊥ }
{
    let inner = stretches.at(node).inner;
    match last_below(killed, node) {
        Some(last) => stretches.first_from(node, inner.max(last + 1)),
        None => stretches.first_from(node, inner),
    }
}
