//! The shortest stretches that end with a node, which are put together from those of the nodes before it.

ghost use Rattle.std.specs.Prelude.{◌≡◌, ◌<◌, ◌≤◌, ℕ, Some};
ghost use Rattle.data_flow.specs.declared.cover.Growth.TheVariants.{Stretch, More};
ghost use Rattle.data_flow.specs.Relations.{IsRelated};
ghost use Rattle.data_flow.specs.Stretches.{FlowsWithin, IsStretch, IsCover, HaveBounds, HaveSources, AreStretches};

use crate::bounds::{Graph, first_from, has};
use crate::stretches::Stretches;

/// Nodes from `first` on up to some node, to which a fact flows from this, and from which no edge leads before `low`.
#[derive(Clone, Copy)]
pub(crate) struct Cover {
    pub(crate) first: u32,
    pub(crate) low: u32,
}

// What comes of nodes with more before them.
enum Growth {
    // A stretch that begins with this node.
    Stretch(u32),
    // More nodes.
    More(Cover),
    // The node before them is not known to have the fact.
    Nothing,
}

// How many nodes from which the code jumps back are passed over in the search of one stretch.
const MOST_JUMPS: usize = 64;

// Whether a fact flows from a node to one right before some others to which it flows: along an edge, or by a node
// before it from which an edge leads to it. If so, which number no node on the way is below.
fn lowered(stretches: &Stretches, graph: &Graph, node: u32, before: u32, low: u32) -> Option<u32>
    requires low { low ≤ before }
    requires before { before < node }
    requires stretches { AreStretches graph.now.edges.now stretches.now }
    requires sources { HaveSources graph.now.edges.now graph.now.sources.now }
    ensures lower { (l : ℕ) → result ≡ Some l → l ≤ low }
    ensures flows { (l : ℕ) → result ≡ Some l → FlowsWithin graph.now.edges.now l node before }
{
    let images = graph.edges.images(node as usize);
    if has(images, before) {
        return Some(low);
    }
    let Some(source) = graph.source(before) else {
        return None;
    };
    let Some(through) = first_from(images, source) else {
        return None;
    };
    if source <= through && through < node && stretches.first_from(through, source) == source {
        return Some(low.min(source));
    }
    None
}

// More nodes before some.
fn grown(stretches: &Stretches, graph: &Graph, node: u32, cover: Cover) -> Growth
    requires cover { IsCover graph.now.edges.now node cover }
    requires stretches { AreStretches graph.now.edges.now stretches.now }
    requires bounds { HaveBounds graph.now.edges.now graph.now.bounds.now }
    requires sources { HaveSources graph.now.edges.now graph.now.sources.now }
    ensures stretch { (first : ℕ) → result ≡ Stretch first → IsStretch graph.now.edges.now first node }
    ensures more { (next : Cover) → result ≡ More next → IsCover graph.now.edges.now node next }
{
    let before = cover.first - 1;
    let Some(low) = lowered(stretches, graph, node, before, cover.low) else {
        return Growth::Nothing;
    };
    if before <= low {
        return Growth::Stretch(before);
    }
    let first = stretches.first_from(before, low + 1);
    let nearest = stretches.at(first).nearest;
    if nearest <= low {
        return Growth::Stretch(nearest);
    }
    Growth::More(Cover {
        first,
        low: low.min(graph.least(first)),
    })
}

/// The first node of a stretch that ends with a node and has others, or the node itself where none is found.
pub(crate) fn nearest(stretches: &Stretches, graph: &Graph, node: u32) -> u32
    requires stretches { AreStretches graph.now.edges.now stretches.now }
    requires bounds { HaveBounds graph.now.edges.now graph.now.bounds.now }
    requires sources { HaveSources graph.now.edges.now graph.now.sources.now }
    ensures { IsStretch graph.now.edges.now result node }
{
    let low = graph.least(node);
    if node <= low {
        return node;
    }
    let mut cover = Cover { first: node, low };
    let most = graph
        .edges
        .images(node as usize)
        .len()
        .saturating_add(MOST_JUMPS);
    for _ in 0..most {
        match grown(stretches, graph, node, cover) {
            Growth::Stretch(first) => return first,
            Growth::More(next) => cover = next,
            Growth::Nothing => return node,
        }
    }
    node
}
