//! Sets of nodes that are emptied at once.

use std::alloc::{AllocError, Global};

/// A set of nodes, which are the numbers below a bound. Each node has the number of the last round in which it was put
/// in; to empty the set begins a new round.
#[derive(Drop)]
pub struct NodeSet {
    stamps: Vec<u64>,
    current: u64,
    ghost past: { (k : ℕ) → slice_index stamps.items k ≤ current },
    ghost begun: { 0 < current },
}

ghost use Rattle.std.specs.Prelude.{◌≡◌, ◌<◌, ◌≤◌, ◌+◌, ◌≢◌, ℕ, IfOk, OnOk, length, slice_index};
ghost use Rattle.std.specs.Prelude.{not, true, false};
ghost use Rattle.std.specs.Prelude.{if◌then◌else◌};

impl NodeSet {
    ghost use Rattle.data_flow.specs.NodeSets.{is_in, absent, node_count};

    /// The empty set of so many nodes.
    pub fn new(alloc: Global, nodes: usize) -> Result<NodeSet, AllocError>
        ensures size { IfOk result (λ s. node_count s ≡ nodes) }
        ensures empty { IfOk result (λ s. (v : ℕ) → is_in s v ≡ false) }
    {
        let stamps = vec![in alloc; 0; nodes]?;
        Ok(NodeSet { stamps, current: 1 })
    }

    /// Takes all nodes out.
    pub fn clear(&mut self)
        ensures size { node_count self.new ≡ node_count self.old }
        ensures empty { (v : ℕ) → is_in self.new v ≡ false }
    {
        if self.current == u64::MAX {
            self.stamps.fill(0);
            self.current = 0;
        }
        self.current += 1;
    }

    /// Whether a node is in the set.
    pub fn contains(&self, node: usize) -> bool
        requires { node < node_count self.now }
        ensures { result ≡ is_in self.now node }
    {
        self.stamps[node] == self.current
    }

    /// Puts a node in, and tells whether it was not there.
    pub fn insert(&mut self, node: usize) -> bool
        requires { node < node_count self.old }
        ensures size { node_count self.new ≡ node_count self.old }
        ensures new { result ≡ not (is_in self.old node) }
        ensures has { is_in self.new node ≡ true }
        ensures others { (v : ℕ) → v ≢ node → is_in self.new v ≡ is_in self.old v }
        ensures fewer { absent self.new + (if result then 1 else 0) ≡ absent self.old }
    {
        let is_new = !self.contains(node);
        self.stamps[node] = self.current;
        is_new
    }
}
