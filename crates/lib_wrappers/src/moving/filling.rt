//! Ranges that are filled.

ghost use Rattle.std.specs.Prelude.{◌≡◌, ◌+◌, ◌≤◌, ◌^◌, IfOk, [], ◌∷◌};
ghost use Rattle.addr_map.specs.Places.{AreMapped};
ghost use Rattle.flat_code.specs.Routines.Shape.{HasShape};
ghost use Rattle.flat_code.specs.Routines.Registers.{AreBelow};
ghost use Rattle.flat_actions.specs.Ranges.{IsFillRoutine};
ghost use Rattle.lib_wrappers.specs.MovingRoutines.Filling.{fill_code};

use addr_map::AddrMap;
use flat_code::{FlatInstruction, RightOperand};
use rv_isa::{BranchOp, RegOp, StoreOp};
use std::alloc::{AllocError, Global};

/// Fills as many bytes of object space as `bytes` holds, from the address in `to` on, with the low byte of `byte`. It
/// may write the registers from `scratch` on, and shows nothing else. The only refusal is that memory fails.
pub fn fill(
    alloc: Global,
    map: &AddrMap,
    to: u32,
    byte: u32,
    bytes: u32,
    scratch: u32,
) -> Result<Vec<FlatInstruction>, AllocError>
    requires map { AreMapped map.now }
    requires below { AreBelow scratch (to ∷ byte ∷ bytes ∷ []) }
    requires room { scratch + 8 ≤ 2 ^ 31 }
    ensures does { IfOk result (λ r. IsFillRoutine map.now to byte bytes scratch r.items) }
    ensures shape { IfOk result (λ r. HasShape r.items 8 (scratch + 2)) }
{
    fill_instructions(alloc, to, byte, bytes, scratch)
}

fn fill_instructions(
    alloc: Global,
    to: u32,
    byte: u32,
    bytes: u32,
    scratch: u32,
) -> Result<Vec<FlatInstruction>, AllocError>
    requires { scratch + 8 ≤ 2 ^ 31 }
    ensures { IfOk result (λ r. r.items ≡ fill_code to byte bytes (scratch + 1) scratch) }
{
    let end = scratch;
    let cursor = scratch + 1;
    let code = [
        FlatInstruction::Move {
            into: cursor,
            from: to,
        },
        FlatInstruction::Operate {
            op: RegOp::Add,
            into: end,
            left: to,
            right: RightOperand::Register(bytes),
        },
        // each turn fills one byte
        FlatInstruction::Branch {
            op: BranchOp::Beq,
            left: cursor,
            right: RightOperand::Register(end),
            past: 3,
        },
        FlatInstruction::Store {
            op: StoreOp::Sb,
            at: cursor,
            offset: 0,
            from: byte,
        },
        FlatInstruction::Operate {
            op: RegOp::Add,
            into: cursor,
            left: cursor,
            right: RightOperand::Number(1),
        },
        FlatInstruction::JumpBack { back: 3 },
    ];
    Vec::from_slice(alloc, &code)
}
