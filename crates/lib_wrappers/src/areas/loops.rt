//! The loop over the words of a range and over entries in memory.

ghost use Rattle.std.specs.Prelude.{◌≡◌, ◌+◌, ◌≤◌, ◌^◌, IfOk, length};
ghost use Rattle.lib_wrappers.specs.AreaRoutines.Loops.{word_loop, store_entry, load_entry};

use flat_actions::{joined, until};
use flat_code::{Entry, FlatInstruction, RightOperand};
use rv_isa::{BranchOp, LoadOp, RegOp, StoreOp};
use std::alloc::{AllocError, Global};

/// Turns of a body, as many as the register `first` holds, with the address of a word in the next register and that of
/// its entry in the one behind. The only refusal is that memory fails.
pub fn word_loop(
    alloc: Global,
    first: u32,
    body: &[FlatInstruction],
) -> Result<Vec<FlatInstruction>, AllocError>
    requires room { first + 8 ≤ 2 ^ 31 }
    requires short { length body.now ≤ 128 }
    ensures { IfOk result (λ r. r.items ≡ word_loop first body.now) }
{
    let stride = [
        FlatInstruction::Operate {
            op: RegOp::Add,
            into: first + 1,
            left: first + 1,
            right: RightOperand::Number(8),
        },
        FlatInstruction::Operate {
            op: RegOp::Add,
            into: first + 2,
            left: first + 2,
            right: RightOperand::Number(32),
        },
        FlatInstruction::Operate {
            op: RegOp::Sub,
            into: first,
            left: first,
            right: RightOperand::Number(1),
        },
    ];
    let turn = joined(alloc, body, &stride)?;
    until(
        alloc,
        BranchOp::Beq,
        first,
        RightOperand::Number(0),
        turn.as_slice(),
    )
}

/// The four words of an entry stored from the address in `at` on. The only refusal is that memory fails.
pub fn store_entry(alloc: Global, at: u32, entry: Entry) -> Result<Vec<FlatInstruction>, AllocError>
    ensures items { IfOk result (λ r. r.items ≡ store_entry at entry) }
    ensures short { IfOk result (λ r. length r.items ≤ 4) }
{
    let code = [
        FlatInstruction::Store {
            op: StoreOp::Sd,
            at,
            offset: 0,
            from: entry.base,
        },
        FlatInstruction::Store {
            op: StoreOp::Sd,
            at,
            offset: 8,
            from: entry.bound,
        },
        FlatInstruction::Store {
            op: StoreOp::Sd,
            at,
            offset: 16,
            from: entry.key,
        },
        FlatInstruction::Store {
            op: StoreOp::Sd,
            at,
            offset: 24,
            from: entry.lock,
        },
    ];
    Vec::from_slice(alloc, &code)
}

/// The four words of an entry loaded from the address in `at` on. The only refusal is that memory fails.
pub fn load_entry(alloc: Global, at: u32, entry: Entry) -> Result<Vec<FlatInstruction>, AllocError>
    ensures items { IfOk result (λ r. r.items ≡ load_entry at entry) }
    ensures short { IfOk result (λ r. length r.items ≤ 4) }
{
    let code = [
        FlatInstruction::Load {
            op: LoadOp::Ld,
            into: entry.base,
            at,
            offset: 0,
        },
        FlatInstruction::Load {
            op: LoadOp::Ld,
            into: entry.bound,
            at,
            offset: 8,
        },
        FlatInstruction::Load {
            op: LoadOp::Ld,
            into: entry.key,
            at,
            offset: 16,
        },
        FlatInstruction::Load {
            op: LoadOp::Ld,
            into: entry.lock,
            at,
            offset: 24,
        },
    ];
    Vec::from_slice(alloc, &code)
}
