//! Stretches of nodes, which a fact that comes to their last node fills, and which it leaves by their first alone.

ghost use Rattle.std.specs.Prelude.{◌≡◌, ◌<◌, ◌≤◌, ◌^◌, ◌+◌, ℕ, IfOk, OnOk, length, Some};
ghost use Rattle.data_flow.specs.declared.relation.Relation.{Relation};
ghost use Rattle.data_flow.specs.Stretches.{IsStretch, IsInner, AreStarts, AreStretches, HaveBounds, HaveSources};

use crate::bounds::{Graph, all_bounds, all_sources};
use crate::cover::nearest;
use crate::relation::Relation;
use std::alloc::{AllocError, Global};

/// Where stretches begin that end with a node.
#[derive(Clone, Copy)]
pub struct Starts {
    // The first node of the shortest one that has another node, or the node itself.
    pub(crate) nearest: u32,
    // That of a longer one, so that the longest is found by few steps (a skip pointer).
    skip: u32,
    // How many steps by the nearest lead to the longest.
    depth: u32,
    // The last node up to this one from which edges lead behind this one, or the first of all.
    pub(crate) inner: u32,
}

/// For each node where stretches begin that end with it.
#[derive(Drop)]
pub struct Stretches {
    starts: Vec<Starts>,
}

impl Stretches {
    /// Those of a graph. It takes time for its nodes and edges, with the logarithm of their number.
    pub fn new(alloc: Global, edges: &Relation) -> Result<Stretches, AllocError>
        requires { length edges.now.rows.items < 2 ^ 32 }
        ensures { IfOk result (λ stretches. AreStretches edges.now stretches) }
    {
        let bounds = all_bounds(alloc, edges)?;
        let sources = all_sources(alloc, edges)?;
        let graph = Graph {
            edges,
            bounds: &bounds,
            sources: &sources,
        };
        let mut stretches = Stretches {
            starts: Vec::new(alloc),
        };
        for node in 0..edges.rows.len() as u32 {
            let starts = stretches.starts_of(&graph, node);
            stretches.starts.push(starts)?;
        }
        Ok(stretches)
    }

    /// Where stretches begin that end with a node.
    pub(crate) fn at(&self, node: u32) -> Starts
        ensures { (edges : Relation) → AreStretches edges self.now → AreStarts edges result node }
    {
        match self.starts.get(node as usize) {
            Some(starts) => *starts,
            None => Starts {
                nearest: node,
                skip: node,
                depth: 0,
                inner: node,
            },
        }
    }

    // The first node of a longer stretch, no node of which is below a bound.
    fn longer(&self, first: u32, bound: u32) -> Option<u32>
        ensures before { (m : ℕ) → result ≡ Some m → m < first }
        ensures from { (m : ℕ) → result ≡ Some m → bound ≤ m }
        ensures stretch { (m : ℕ) → result ≡ Some m → (edges : Relation) → AreStretches edges self.now
            → IsStretch edges m first }
    {
        let starts = self.at(first);
        if bound <= starts.skip && starts.skip < first {
            return Some(starts.skip);
        }
        if bound <= starts.nearest && starts.nearest < first {
            return Some(starts.nearest);
        }
        None
    }

    /// The first node of the longest stretch that ends with a node and has none below a bound. It takes time with the
    /// logarithm of the nodes.
    pub(crate) fn first_from(&self, node: u32, bound: u32) -> u32
        requires { bound ≤ node }
        ensures from { bound ≤ result }
        ensures stretch { (edges : Relation) → AreStretches edges self.now → IsStretch edges result node }
    {
        let mut first = node;
        while let Some(next) = self.longer(first, bound) {
            first = next;
        }
        first
    }

    // The last node up to one from which edges lead behind it, or the first of all.
    fn inner_of(&self, graph: &Graph, node: u32) -> u32
        requires stretches { AreStretches graph.now.edges.now self.now }
        requires bounds { HaveBounds graph.now.edges.now graph.now.bounds.now }
        ensures { IsInner graph.now.edges.now result node }
    {
        let mut first = node;
        while first > 0 && graph.stays(first, node) {
            first = self.at(first - 1).inner;
        }
        first
    }

    // The first node of a stretch that ends where the nearest to a node begins, if that makes the skips of equal steps.
    fn skip_of(&self, nearest: u32) -> u32
        ensures { (edges : Relation) → AreStretches edges self.now → IsStretch edges result nearest }
    {
        let near = self.at(nearest);
        let far = self.at(near.skip);
        let farther = self.at(far.skip);
        if u64::from(near.depth) + u64::from(farther.depth) == 2 * u64::from(far.depth) {
            return far.skip;
        }
        nearest
    }

    // Where stretches begin that end with one node more.
    fn starts_of(&self, graph: &Graph, node: u32) -> Starts
        requires stretches { AreStretches graph.now.edges.now self.now }
        requires bounds { HaveBounds graph.now.edges.now graph.now.bounds.now }
        requires sources { HaveSources graph.now.edges.now graph.now.sources.now }
        ensures { AreStarts graph.now.edges.now result node }
    {
        let nearest = nearest(self, graph, node);
        let inner = self.inner_of(graph, node);
        Starts {
            nearest,
            skip: self.skip_of(nearest),
            depth: self.at(nearest).depth.saturating_add(1),
            inner,
        }
    }
}
