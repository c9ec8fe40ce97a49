//! Ranges of object space that are made zero.

ghost use Rattle.std.specs.Prelude.{◌≡◌, ◌+◌, ◌≤◌, ◌^◌, IfOk, [], ◌∷◌};
ghost use Rattle.addr_map.specs.Places.{AreMapped};
ghost use Rattle.flat_code.specs.Routines.InputOutput.{IsWithoutInputOutput};
ghost use Rattle.flat_code.specs.Routines.Shape.{HasShape};
ghost use Rattle.flat_code.specs.Routines.Registers.{AreBelow};
ghost use Rattle.lib_wrappers.specs.AllocatingRoutines.Zeroing.{IsZeroRoutine, word_bytes, zero_bytes, zero_code};

use addr_map::AddrMap;
use flat_actions::joined;
use flat_code::{FlatInstruction, RightOperand};
use rv_isa::{BranchOp, RegOp, StoreOp};
use shadow_space::ShadowForm;
use std::alloc::{AllocError, Global};

/// Makes the bytes of a range of object space zero, and its whole words words without a pointer. `first` holds where
/// the
/// range begins, at a multiple of 8, and `bytes` how many it has. It may write the registers from `scratch` on, and
/// shows
/// nothing. The only refusal is that memory fails.
pub fn zero<S: ShadowForm>(
    alloc: Global,
    map: &AddrMap,
    first: u32,
    bytes: u32,
    scratch: u32,
) -> Result<Vec<FlatInstruction>, AllocError>
    requires map { AreMapped map.now }
    requires below { AreBelow scratch (first ∷ bytes ∷ []) }
    requires room { scratch + 8 ≤ 2 ^ 31 }
    ensures does { IfOk result (λ r. IsZeroRoutine map.now S.entry (S.IsGood map.now) first bytes scratch r.items) }
    ensures computes { IfOk result (λ r. IsWithoutInputOutput r.items) }
    ensures shape { IfOk result (λ r. HasShape r.items 48 (scratch + 7)) }
{
    S::entries_are_local();
    let clear = S::clear(alloc, map, first, scratch, scratch + 1)?;
    let r = zero_instructions(alloc, clear.as_slice(), first, bytes, scratch)?;
    Ok(r)
}

fn zero_instructions(
    alloc: Global,
    clear: &[FlatInstruction],
    first: u32,
    bytes: u32,
    scratch: u32,
) -> Result<Vec<FlatInstruction>, AllocError>
    requires { scratch + 8 ≤ 2 ^ 31 }
    ensures { IfOk result (λ r. r.items ≡ zero_code clear.now first bytes scratch (scratch + 1) (scratch + 2)) }
{
    let words = word_bytes(alloc, bytes, scratch)?;
    let zeros = zero_bytes(alloc, first, bytes, scratch)?;
    let rest = joined(alloc, clear, zeros.as_slice())?;
    joined(alloc, words.as_slice(), rest.as_slice())
}

fn word_bytes(alloc: Global, bytes: u32, words: u32) -> Result<Vec<FlatInstruction>, AllocError>
    ensures { IfOk result (λ r. r.items ≡ word_bytes bytes words) }
{
    let code = [
        FlatInstruction::Operate {
            op: RegOp::Srl,
            into: words,
            left: bytes,
            right: RightOperand::Number(3),
        },
        FlatInstruction::Operate {
            op: RegOp::Sll,
            into: words,
            left: words,
            right: RightOperand::Number(3),
        },
    ];
    Vec::from_slice(alloc, &code)
}

fn zero_bytes(
    alloc: Global,
    first: u32,
    bytes: u32,
    scratch: u32,
) -> Result<Vec<FlatInstruction>, AllocError>
    requires { scratch + 8 ≤ 2 ^ 31 }
    ensures { IfOk result (λ r. r.items ≡ zero_bytes first bytes scratch (scratch + 1) (scratch + 2)) }
{
    let end = scratch;
    let cursor = scratch + 1;
    let zero = scratch + 2;
    let code = [
        FlatInstruction::Move {
            into: cursor,
            from: first,
        },
        FlatInstruction::Operate {
            op: RegOp::Add,
            into: end,
            left: end,
            right: RightOperand::Register(first),
        },
        FlatInstruction::Constant {
            into: zero,
            value: 0,
        },
        // whole words
        FlatInstruction::Branch {
            op: BranchOp::Bgeu,
            left: cursor,
            right: RightOperand::Register(end),
            past: 3,
        },
        FlatInstruction::Store {
            op: StoreOp::Sd,
            at: cursor,
            offset: 0,
            from: zero,
        },
        FlatInstruction::Operate {
            op: RegOp::Add,
            into: cursor,
            left: cursor,
            right: RightOperand::Number(8),
        },
        FlatInstruction::JumpBack { back: 3 },
        // the bytes behind them
        FlatInstruction::Operate {
            op: RegOp::Add,
            into: end,
            left: first,
            right: RightOperand::Register(bytes),
        },
        FlatInstruction::Branch {
            op: BranchOp::Bgeu,
            left: cursor,
            right: RightOperand::Register(end),
            past: 3,
        },
        FlatInstruction::Store {
            op: StoreOp::Sb,
            at: cursor,
            offset: 0,
            from: zero,
        },
        FlatInstruction::Operate {
            op: RegOp::Add,
            into: cursor,
            left: cursor,
            right: RightOperand::Number(1),
        },
        FlatInstruction::JumpBack { back: 3 },
    ];
    Vec::from_slice(alloc, &code)
}
