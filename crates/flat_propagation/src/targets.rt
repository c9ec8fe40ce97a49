//! Where a jump leads: there a basic block begins.

ghost use Rattle.std.specs.Prelude.{◌≡◌, ◌<◌, ◌^◌, ◌||◌, ◌==◌, ℕ, IfOk, length};
ghost use Rattle.data_flow.specs.NodeSets.{is_in, node_count};
ghost use Rattle.flat_propagation.specs.Known.{jumps_to, is_target};

use data_flow::NodeSet;
use flat_code::FlatInstruction;
use std::alloc::{AllocError, Global};

// Puts a place into the set, if the function has one with this number.
fn insert(set: &mut NodeSet, count: usize, target: usize)
    requires { count ≡ node_count set.old }
    ensures size { node_count set.new ≡ node_count set.old }
    ensures has { (q : ℕ) → q < count → is_in set.new q ≡ (is_in set.old q || (target == q)) }
{
    if target < count {
        set.insert(target);
    }
}

// Puts the place into the set to which an instruction jumps.
fn mark(set: &mut NodeSet, count: usize, instruction: FlatInstruction, place: usize)
    requires size { count ≡ node_count set.old }
    requires place { place < count }
    requires count { count < 2 ^ 63 }
    ensures size { node_count set.new ≡ node_count set.old }
    ensures has { (q : ℕ) → q < count → is_in set.new q ≡ (is_in set.old q || jumps_to instruction place q) }
{
    match instruction {
        FlatInstruction::Branch { past, .. } => insert(set, count, place + 1 + past as usize),
        FlatInstruction::JumpForward { past } => insert(set, count, place + 1 + past as usize),
        FlatInstruction::JumpBack { back } => {
            insert(set, count, place.saturating_sub(back as usize))
        }
        _ => {}
    }
}

/// The places of a body to which one of its instructions jumps, or may jump. It fails only for want of memory.
pub fn targets_of(alloc: Global, body: &[FlatInstruction]) -> Result<NodeSet, AllocError>
    ensures size { IfOk result (λ set. node_count set ≡ length body.now) }
    ensures targets { IfOk result (λ set. (q : ℕ) → q < length body.now → is_in set q ≡ is_target body.now q) }
{
    let count = body.len();
    let mut set = NodeSet::new(alloc, count)?;
    for place in 0..count {
        mark(&mut set, count, body[place], place);
    }
    Ok(set)
}
