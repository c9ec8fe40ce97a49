//! Whether a fact is open before a node, by a search back from it.

ghost use Rattle.std.specs.Prelude.{◌≡◌, ◌≢◌, ◌<◌, ◌⊎◌, ℕ, IfOk, OnOk, length, slice_get, Some, true, false};
ghost use Rattle.data_flow.specs.Relations.{IsRelated, images};
ghost use Rattle.tac_ir.specs.declared.instruction.Instruction.{Instruction};
ghost use Rattle.tac_ir.specs.Edges.{LeadsTo};
ghost use Rattle.check_elim.specs.Available.{IsOpen};
ghost use Rattle.check_elim.specs.Facts.{Checks, ends};
ghost use Rattle.check_elim.specs.Paths.{Path};
ghost use Rattle.check_elim.specs.Searches.{Listed, HasPredecessors, IsSearching, IsSeen, IsDone};
ghost use Rattle.check_elim.specs.Seeking.{fact_of};
ghost use Rattle.check_elim.specs.Worklists.{IsWorklist, Grows};

use crate::facts::{Role, Sought, role_of};
use crate::worklist::Worklist;
use data_flow::Relation;
use std::alloc::AllocError;

// Goes back to a node that leads to a visited one, and tells whether the fact ends there.
#[tactic(auto, using(crate::proofs::Searching::visited_new))]
fn step_back(sought: &Sought, visited: &mut Worklist, node: u32) -> Result<bool, AllocError>
    requires inside { node < length sought.now.function.now.code }
    requires list { IsWorklist (length sought.now.function.now.code) visited.old }
    ensures ends { IfOk result (λ found. found ≡ true
        → (i : Instruction) × (slice_get sought.now.function.now.code node ≡ Some i)
        × (Checks sought.now.function.now (fact_of sought.now) i → ⊥)
        × (ends sought.now.function.now (fact_of sought.now) i ≡ true)) }
    ensures seen { IfOk result (λ found. found ≡ false → (i : Instruction)
        → slice_get sought.now.function.now.code node ≡ Some i
        → IsSeen sought.now.function.now (fact_of sought.now) visited.new node i) }
    ensures list { OnOk result (IsWorklist (length sought.now.function.now.code) visited.new) }
    ensures grows { OnOk result (Grows visited.old visited.new) }
    ensures new { OnOk result ((v : ℕ) → Listed visited.new v → Listed visited.old v
        ⊎ ((v ≡ node) × ((i : Instruction) → slice_get sought.now.function.now.code node ≡ Some i
        → Checks sought.now.function.now (fact_of sought.now) i → ⊥))) }
{
    match role_of(sought, &sought.function.code.as_slice()[node as usize]) {
        Role::Checking => Ok(false),
        Role::Ending => Ok(true),
        Role::Passing => {
            visited.put(node)?;
            Ok(false)
        }
    }
}

// Goes back to all nodes that lead to a visited one, until the fact ends at one.
fn step_back_from(
    sought: &Sought,
    before: &Relation,
    visited: &mut Worklist,
    from: u32,
    node: u32,
) -> Result<bool, AllocError>
    requires graph { HasPredecessors sought.now.function.now before.now }
    requires here { Listed visited.old from }
    requires inner { from ≢ sought.now.function.now.entry }
    requires searching { IsSearching sought.now.function.now (fact_of sought.now) node visited.old }
    ensures found { IfOk result (λ found. found ≡ true
        → IsOpen sought.now.function.now (fact_of sought.now) node) }
    ensures done { IfOk result (λ found. found ≡ false
        → IsDone sought.now.function.now (fact_of sought.now) visited.new from) }
    ensures searching { OnOk result
        (IsSearching sought.now.function.now (fact_of sought.now) node visited.new) }
    ensures grows { OnOk result (Grows visited.old visited.new) }
{
    for other in before.images(from as usize) {
        if step_back(sought, visited, *other)? {
            return Ok(true);
        }
    }
    Ok(false)
}

/// Whether a fact is open before a node: whether a path leads there on which no check of it comes behind the last
/// instruction that ends it. The worklist is for as many nodes as there are. An error comes where there is no memory.
pub fn is_open(
    sought: &Sought,
    before: &Relation,
    visited: &mut Worklist,
    node: u32,
) -> Result<bool, AllocError>
    requires list { IsWorklist (length sought.now.function.now.code) visited.old }
    requires inside { node < length sought.now.function.now.code }
    requires graph { HasPredecessors sought.now.function.now before.now }
    ensures open_there { IfOk result (λ found. found ≡ true
        → IsOpen sought.now.function.now (fact_of sought.now) node) }
    ensures closed { IfOk result (λ found. found ≡ false
        → IsOpen sought.now.function.now (fact_of sought.now) node → ⊥) }
    ensures list { OnOk result (IsWorklist (length sought.now.function.now.code) visited.new) }
{
    visited.clear();
    visited.put(node)?;
    let mut done = 0usize;
    while done < visited.nodes.len() {
        let from = visited.nodes[done];
        if from as usize == sought.function.entry {
            return Ok(true);
        }
        if step_back_from(sought, before, visited, from, node)? {
            return Ok(true);
        }
        done += 1;
    }
    Ok(false)
}
