//! What is asked of a relation again and again, found once: between which nodes its edges lead.

ghost use Rattle.std.specs.Prelude.{◌≡◌, ◌<◌, ◌≤◌, ◌^◌, ℕ, IfOk, length, Some, true};
ghost use Rattle.data_flow.specs.Relations.{Has, images, IsRelated};
ghost use Rattle.data_flow.specs.Stretches.{HaveBounds, HaveSources};

use crate::relation::Relation;
use crate::runs::Run;
use std::alloc::{AllocError, Global};

/// The edges of a graph, and what was found of them.
#[derive(Clone, Copy)]
pub(crate) struct Graph<'a> {
    pub(crate) edges: &'a Relation,
    /// For each node the nodes between which its edges lead.
    pub(crate) bounds: &'a [Run],
    /// For each node one before it from which an edge leads to it.
    pub(crate) sources: &'a [Option<u32>],
}

impl Graph<'_> {
    /// A number that is not above the nodes to which edges lead from a node.
    pub(crate) fn least(&self, node: u32) -> u32
        requires { HaveBounds self.now.edges.now self.now.bounds.now }
        ensures { (v : ℕ) → IsRelated self.now.edges.now node v → result ≤ v }
    {
        match self.bounds.get(node as usize) {
            Some(bounds) => bounds.first,
            None => 0,
        }
    }

    /// Whether no edge leads from a node behind another.
    pub(crate) fn stays(&self, node: u32, last: u32) -> bool
        requires { HaveBounds self.now.edges.now self.now.bounds.now }
        ensures { result ≡ true → (v : ℕ) → IsRelated self.now.edges.now node v → v ≤ last }
    {
        match self.bounds.get(node as usize) {
            Some(bounds) => bounds.last <= last,
            None => false,
        }
    }

    /// A node before another from which an edge leads to this, if one was found.
    pub(crate) fn source(&self, node: u32) -> Option<u32>
        requires { HaveSources self.now.edges.now self.now.sources.now }
        ensures { (u : ℕ) → result ≡ Some u → IsRelated self.now.edges.now u node }
    {
        match self.sources.get(node as usize) {
            Some(source) => *source,
            None => None,
        }
    }
}

// The nodes between which a node and all of a list lie.
fn bounds_of(list: &[u32], node: u32) -> Run
    ensures least { (v : ℕ) → Has list.now v → result.first ≤ v }
    ensures greatest { (v : ℕ) → Has list.now v → v ≤ result.last }
{
    let mut first = node;
    let mut last = node;
    for other in list {
        first = first.min(*other);
        last = last.max(*other);
    }
    Run { first, last }
}

/// For each node the nodes between which its edges lead.
pub(crate) fn all_bounds(alloc: Global, edges: &Relation) -> Result<Vec<Run>, AllocError>
    requires { length edges.now.rows.items < 2 ^ 32 }
    ensures { IfOk result (λ bounds. HaveBounds edges.now bounds.items) }
{
    let mut bounds = Vec::new(alloc);
    for node in 0..edges.rows.len() as u32 {
        let next = bounds_of(edges.images(node as usize), node);
        bounds.push(next)?;
    }
    Ok(bounds)
}

// Puts a node down for those behind it to which edges lead from it.
fn put_source(sources: &mut Vec<Option<u32>>, edges: &Relation, node: u32)
    requires { HaveSources edges.now sources.old.items }
    ensures { HaveSources edges.now sources.new.items }
{
    for other in edges.images(node as usize) {
        if node < *other && (*other as usize) < sources.len() {
            sources[*other as usize] = Some(node);
        }
    }
}

/// For each node one before it from which an edge leads to it, if there is one.
pub(crate) fn all_sources(alloc: Global, edges: &Relation) -> Result<Vec<Option<u32>>, AllocError>
    requires { length edges.now.rows.items < 2 ^ 32 }
    ensures { IfOk result (λ sources. HaveSources edges.now sources.items) }
{
    let count = edges.rows.len();
    let mut sources = vec![in alloc; None; count]?;
    for node in 0..count as u32 {
        put_source(&mut sources, edges, node);
    }
    Ok(sources)
}

/// The first number of a list that is not below another, if the list is sorted.
pub(crate) fn first_from(list: &[u32], bound: u32) -> Option<u32>
    ensures { (x : ℕ) → result ≡ Some x → Has list.now x }
{
    let before = list.partition_point(|number| *number < bound);
    match list.get(before) {
        Some(number) => Some(*number),
        None => None,
    }
}

/// Whether a list, which is sorted, has a number; of others it may be missed.
pub(crate) fn has(list: &[u32], number: u32) -> bool
    ensures { result ≡ true → Has list.now number }
{
    match first_from(list, number) {
        Some(found) => found == number,
        None => false,
    }
}
