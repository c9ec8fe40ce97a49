//! Nodes in the order in which they were found, each once.

ghost use Rattle.std.specs.Prelude.{◌≡◌, ◌<◌, [], ℕ, IfOk, OnOk, true, false};
ghost use Rattle.data_flow.specs.NodeSets.{is_in, node_count, Lists, Visits};
ghost use Rattle.data_flow.specs.Relations.{Has};
ghost use Rattle.check_elim.specs.Worklists.{IsWorklist, Puts};

use data_flow::NodeSet;
use std::alloc::{AllocError, Global};

/// Nodes in the order in which they were found, each once.
#[derive(Drop)]
pub struct Worklist {
    pub set: NodeSet,
    pub nodes: Vec<u32>,
}

// Puts a node into the set and behind its list, unless it is there.
#[tactic(auto, using(data_flow::proofs::Visits::visiting))]
fn visit(set: &mut NodeSet, list: &mut Vec<u32>, node: u32) -> Result<(), AllocError>
    requires inside { node < node_count set.old }
    requires lists { Lists set.old list.old.items }
    ensures visits { OnOk result (Visits set.old set.new list.old.items list.new.items node) }
    ensures size { node_count set.new ≡ node_count set.old }
{
    if set.insert(node as usize) {
        list.push(node)?;
    }
    Ok(())
}

impl Worklist {
    /// No nodes, of so many that there are.
    pub fn new(alloc: Global, count: usize) -> Result<Worklist, AllocError>
        ensures list { IfOk result (λ w. IsWorklist count w) }
        ensures empty { IfOk result (λ w. w.nodes.items ≡ []) }
    {
        let set = NodeSet::new(alloc, count)?;
        Ok(Worklist {
            set,
            nodes: Vec::new(alloc),
        })
    }

    /// Takes all nodes out.
    pub fn clear(&mut self)
        ensures empty { self.new.nodes.items ≡ [] }
        ensures list { (count : ℕ) → node_count self.old.set ≡ count → IsWorklist count self.new }
    {
        self.set.clear();
        self.nodes.clear();
    }

    /// Puts a node in, unless it is there.
    pub fn put(&mut self, node: u32) -> Result<(), AllocError>
        requires inside { node < node_count self.old.set }
        requires list { IsWorklist (node_count self.old.set) self.old }
        ensures puts { OnOk result (Puts self.old self.new node) }
        ensures list { OnOk result (IsWorklist (node_count self.old.set) self.new) }
    {
        let put = visit(&mut self.set, &mut self.nodes, node)?;
        Ok(put)
    }

    /// Whether a node is among them.
    pub fn has(&self, node: usize) -> bool
        requires { node < node_count self.now.set }
        ensures { result ≡ is_in self.now.set node }
    {
        self.set.contains(node)
    }
}
