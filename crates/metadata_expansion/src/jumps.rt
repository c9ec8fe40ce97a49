//! What stands behind a block.

ghost use Rattle.std.specs.Prelude.{◌≡◌, ◌+◌, ◌==◌, ◌≤◌, ◌++◌};
ghost use Rattle.std.specs.Prelude.{length, OnOk, if◌then◌else◌};
ghost use Rattle.tac_ir.specs.Ways.{nodes_of};
ghost use Rattle.metadata_plan.specs.Laid.{jump, jump_unless, jump_count};
ghost use Rattle.metadata_expansion.specs.Joins.{AreJoins};

use crate::joins::Joins;
use crate::list::put;
use flat_code::FlatInstruction;
use std::alloc::AllocError;
use tac_ir::{CodeFunction, Ways};

/// Whether a node is the one behind another.
pub fn follows(node: usize, next: usize) -> bool
    ensures { result ≡ (next + 1 == node) }
{
    next as u128 + 1 == node as u128
}

// How many jumps stand where code falls or not.
fn unless(fallen: bool) -> u32
    ensures { result ≡ (if fallen then 0 else 1) }
{
    if fallen { 0 } else { 1 }
}

/// How many jumps stand behind the block of a node.
pub fn jump_count(function: &CodeFunction, joins: &Joins, node: usize, ways: Ways) -> u32
    requires joins { AreJoins joins.now function.now }
    requires inside { node ≤ length function.now.code }
    ensures value { result ≡ jump_count function.now node (nodes_of ways) }
    ensures few { result ≤ 2 }
{
    match ways {
        Ways::Nowhere => 0,
        Ways::To(next) => unless(joins.falls(function, node, next)),
        Ways::Either(first, _) => 1 + unless(joins.falls(function, node, first)),
    }
}

/// A jump from a place to another.
pub fn jump(from: u32, to: u32) -> FlatInstruction
    ensures { result ≡ jump from to }
{
    if from < to {
        FlatInstruction::JumpForward {
            past: to - from - 1,
        }
    } else {
        FlatInstruction::JumpBack { back: from - to }
    }
}

/// Puts a jump from a place to another behind a list, unless code falls there.
pub fn put_jump(
    code: &mut Vec<FlatInstruction>,
    fallen: bool,
    from: u32,
    to: u32,
) -> Result<(), AllocError>
    ensures { OnOk result (code.new.items ≡ code.old.items ++ jump_unless fallen from to) }
{
    if fallen {
        return Ok(());
    }
    put(code, jump(from, to))
}
