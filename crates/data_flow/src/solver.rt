//! Least solutions, one fact at a time, by a worklist of runs of nodes.

ghost use Rattle.std.specs.Prelude.{◌≡◌, ◌<◌, ◌≤◌, ◌⊎◌, ℕ, IfOk, OnOk, length, slice_get, Some, true, false};
ghost use Rattle.data_flow.specs.Relations.{Has, IsRelated};
ghost use Rattle.data_flow.specs.NodeSets.{is_in, node_count, Lists, Visits};
ghost use Rattle.data_flow.specs.declared.runs.Run.{Run};
ghost use Rattle.data_flow.specs.Runs.{AreFound, Grows, is_covered};
ghost use Rattle.data_flow.specs.Stretches.{AreStretches};
ghost use Rattle.std.specs.List.Sorted.{IsNonDecreasing};
ghost use Rattle.data_flow.specs.Reached.{IsReached, AreBelow, LeadsBelow};

use crate::node_set::NodeSet;
use crate::relation::Relation;
use crate::runs::{Run, run_start};
use crate::stretches::Stretches;
use std::alloc::{AllocError, Global};

// What a fact does: the edges along which it flows, where stretches of nodes begin, and where it is generated and
// killed.
#[derive(Clone, Copy)]
struct Flow<'a> {
    edges: &'a Relation,
    stretches: &'a Stretches,
    generated: &'a [u32],
    killed: &'a [u32],
}

// Puts a node into the set and behind its list, unless it is there.
#[tactic(auto, using(crate::proofs::Visits::visiting))]
fn visit(set: &mut NodeSet, list: &mut Vec<u32>, node: u32) -> Result<(), AllocError>
    requires inside { node < node_count set.old }
    requires lists { Lists set.old list.old.items }
    ensures visits { OnOk result (Visits set.old set.new list.old.items list.new.items node) }
    ensures size { node_count set.new ≡ node_count set.old }
{
    if set.insert(node as usize) {
        list.push(node)?;
    }
    Ok(())
}

// Puts the run that ends with a node behind the runs, and visits its first node.
fn visit_run(
    begun: &mut NodeSet,
    firsts: &mut Vec<u32>,
    runs: &mut Vec<Run>,
    flow: &Flow,
    node: u32,
) -> Result<(), AllocError>
    requires inside { node < node_count begun.old }
    requires stretches { AreStretches flow.now.edges.now flow.now.stretches.now }
    requires sorted { IsNonDecreasing flow.now.killed.now }
    requires reached { IsReached flow.now.edges.now flow.now.generated.now flow.now.killed.now node }
    requires found { AreFound flow.now.edges.now flow.now.generated.now flow.now.killed.now
        begun.old firsts.old.items runs.old.items }
    ensures found { OnOk result
        (AreFound flow.now.edges.now flow.now.generated.now flow.now.killed.now
        begun.new firsts.new.items runs.new.items) }
    ensures grows { OnOk result
        (Grows begun.old begun.new firsts.old.items firsts.new.items runs.old.items runs.new.items) }
    ensures covered { OnOk result (is_covered runs.new.items node ≡ true) }
    ensures size { node_count begun.new ≡ node_count begun.old }
{
    let first = run_start(flow.stretches, flow.edges, flow.killed, node);
    runs.push(Run { first, last: node })?;
    let visited = visit(begun, firsts, first)?;
    Ok(visited)
}

// Whether the last of the runs has a node.
fn is_in_last(runs: &[Run], node: u32) -> bool
    ensures { result ≡ true → is_covered runs.now node ≡ true }
{
    if runs.is_empty() {
        return false;
    }
    let last = runs[runs.len() - 1];
    last.first <= node && node <= last.last
}

// Visits the run that ends with a node which is not in `but`, unless the last run has it.
#[tactic(auto, using(crate::proofs::Solving::grows_none))]
fn visit_run_unless(
    begun: &mut NodeSet,
    firsts: &mut Vec<u32>,
    runs: &mut Vec<Run>,
    flow: &Flow,
    but: &NodeSet,
    node: u32,
) -> Result<(), AllocError>
    requires inside { node < node_count begun.old }
    requires same_size { node_count but.now ≡ node_count begun.old }
    requires stretches { AreStretches flow.now.edges.now flow.now.stretches.now }
    requires sorted { IsNonDecreasing flow.now.killed.now }
    requires reached { is_in but.now node ≡ false
        → IsReached flow.now.edges.now flow.now.generated.now flow.now.killed.now node }
    requires found { AreFound flow.now.edges.now flow.now.generated.now flow.now.killed.now
        begun.old firsts.old.items runs.old.items }
    ensures found { OnOk result
        (AreFound flow.now.edges.now flow.now.generated.now flow.now.killed.now
        begun.new firsts.new.items runs.new.items) }
    ensures grows { OnOk result
        (Grows begun.old begun.new firsts.old.items firsts.new.items runs.old.items runs.new.items) }
    ensures covered { OnOk result (is_in but.now node ≡ false → is_covered runs.new.items node ≡ true) }
    ensures size { node_count begun.new ≡ node_count begun.old }
{
    if but.contains(node as usize) {
        return Ok(());
    }
    if is_in_last(runs.as_slice(), node) {
        return Ok(());
    }
    let visited = visit_run(begun, firsts, runs, flow, node)?;
    Ok(visited)
}

// Visits the runs that end with nodes which are not in `but`, from the last node of the list on: a run that ends with
// the end of a loop has all of the loop, and mostly the nodes from which the loop is entered.
fn visit_runs(
    begun: &mut NodeSet,
    firsts: &mut Vec<u32>,
    runs: &mut Vec<Run>,
    flow: &Flow,
    but: &NodeSet,
    nodes: &[u32],
) -> Result<(), AllocError>
    requires inside { AreBelow (node_count begun.old) nodes.now }
    requires same_size { node_count but.now ≡ node_count begun.old }
    requires stretches { AreStretches flow.now.edges.now flow.now.stretches.now }
    requires sorted { IsNonDecreasing flow.now.killed.now }
    requires reached { (v : ℕ) → Has nodes.now v → is_in but.now v ≡ false
        → IsReached flow.now.edges.now flow.now.generated.now flow.now.killed.now v }
    requires found { AreFound flow.now.edges.now flow.now.generated.now flow.now.killed.now
        begun.old firsts.old.items runs.old.items }
    ensures found { OnOk result
        (AreFound flow.now.edges.now flow.now.generated.now flow.now.killed.now
        begun.new firsts.new.items runs.new.items) }
    ensures grows { OnOk result
        (Grows begun.old begun.new firsts.old.items firsts.new.items runs.old.items runs.new.items) }
    ensures covered { OnOk result
        ((v : ℕ) → Has nodes.now v → is_in but.now v ≡ false → is_covered runs.new.items v ≡ true) }
    ensures size { node_count begun.new ≡ node_count begun.old }
{
    let mut left = nodes.len();
    while left > 0 {
        left -= 1;
        visit_run_unless(begun, firsts, runs, flow, but, nodes[left])?;
    }
    Ok(())
}

// Puts nodes into the set.
fn insert_all(set: &mut NodeSet, nodes: &[u32])
    requires { AreBelow (node_count set.old) nodes.now }
    ensures has { (v : ℕ) → Has nodes.now v → is_in set.new v ≡ true }
    ensures only { (v : ℕ) → is_in set.new v ≡ true → (is_in set.old v ≡ true) ⊎ Has nodes.now v }
    ensures size { node_count set.new ≡ node_count set.old }
{
    for node in nodes {
        set.insert(*node as usize);
    }
}

/// The nodes that a fact reaches which is generated at some nodes, flows along edges, and is killed at some nodes: the
/// least solution, as runs, which may overlap. It takes time for what is generated and killed, and for the runs and the
/// edges of their first nodes, each with the logarithm of the nodes. The stretches are those of the graph. The two
/// sets, of all nodes, are only made use of.
pub fn least_runs(
    alloc: Global,
    edges: &Relation,
    stretches: &Stretches,
    generated: &[u32],
    killed: &[u32],
    begun: &mut NodeSet,
    killing: &mut NodeSet,
) -> Result<Vec<Run>, AllocError>
    requires edges_inside { LeadsBelow (node_count begun.old) edges.now }
    requires generated_inside { AreBelow (node_count begun.old) generated.now }
    requires killed_inside { AreBelow (node_count begun.old) killed.now }
    requires same_size { node_count killing.old ≡ node_count begun.old }
    requires stretches { AreStretches edges.now stretches.now }
    requires sorted { IsNonDecreasing killed.now }
    ensures closed { IfOk result
        (λ runs. (v : ℕ) → IsReached edges.now generated.now killed.now v → is_covered runs.items v ≡ true) }
    ensures least { IfOk result
        (λ runs. (v : ℕ) → is_covered runs.items v ≡ true → IsReached edges.now generated.now killed.now v) }
    ensures last { IfOk result (λ runs. (k : ℕ) (r : Run) → slice_get runs.items k ≡ Some r
        → IsReached edges.now generated.now killed.now r.last) }
    ensures begun_size { node_count begun.new ≡ node_count begun.old }
    ensures killing_size { node_count killing.new ≡ node_count killing.old }
{
    let flow = Flow {
        edges,
        stretches,
        generated,
        killed,
    };
    begun.clear();
    killing.clear();
    let mut firsts = Vec::new(alloc);
    let mut runs = Vec::new(alloc);
    visit_runs(begun, &mut firsts, &mut runs, &flow, killing, generated)?;
    insert_all(killing, killed);
    let mut done = 0usize;
    while done < firsts.len() {
        let first = firsts[done];
        visit_runs(
            begun,
            &mut firsts,
            &mut runs,
            &flow,
            killing,
            edges.images(first as usize),
        )?;
        done += 1;
    }
    Ok(runs)
}
