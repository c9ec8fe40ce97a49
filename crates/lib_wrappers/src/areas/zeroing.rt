//! Areas that are made zero.

ghost use Rattle.std.specs.Prelude.{◌≡◌, ◌+◌, ◌≤◌, ◌^◌, IfOk, [], ◌∷◌};
ghost use Rattle.addr_map.specs.Places.{AreMapped};
ghost use Rattle.flat_code.specs.Routines.InputOutput.{IsWithoutInputOutput};
ghost use Rattle.flat_code.specs.Routines.Shape.{HasShape};
ghost use Rattle.flat_code.specs.Routines.Registers.{AreBelow};
ghost use Rattle.lib_wrappers.specs.AreaRoutines.Values.{IsMakeZeroRoutine};
ghost use Rattle.lib_wrappers.specs.AreaRoutines.Zeroing.{IsZeroAreaRoutine, area_words, zero_area_code};

use crate::areas::loops::word_loop;
use addr_map::AddrMap;
use flat_actions::joined;
use flat_code::{FlatInstruction, RightOperand};
use rv_isa::{RegOp, StoreOp};
use shadow_space::ShadowForm;
use std::alloc::{AllocError, Global};

/// Makes an area zero: its bytes, and its entries those of words without a pointer. `at` holds where it begins, and
/// `bytes` how many bytes its contents have. It may write the registers from `scratch` on, shows nothing, takes no
/// input and puts no output. The only refusal is that memory fails.
pub fn zero_area(
    alloc: Global,
    map: &AddrMap,
    at: u32,
    bytes: u32,
    scratch: u32,
) -> Result<Vec<FlatInstruction>, AllocError>
    requires map { AreMapped map.now }
    requires below { AreBelow scratch (at ∷ bytes ∷ []) }
    requires room { scratch + 8 ≤ 2 ^ 31 }
    ensures does { IfOk result (λ r. IsZeroAreaRoutine map.now at bytes scratch r.items) }
    ensures computes { IfOk result (λ r. IsWithoutInputOutput r.items) }
    ensures shape { IfOk result (λ r. HasShape r.items 16 (scratch + 4)) }
{
    zero_area_instructions(alloc, at, bytes, scratch)
}

/// Makes the contents of a structure of zeros in an area, as the source does. `at` holds where the area begins, and
/// `bytes` how many bytes the structure has. It may write the registers from `scratch` on, takes no input and puts no
/// output. The only refusal is that memory fails.
pub fn make_zero<S: ShadowForm>(
    alloc: Global,
    map: &AddrMap,
    at: u32,
    bytes: u32,
    scratch: u32,
) -> Result<Vec<FlatInstruction>, AllocError>
    requires map { AreMapped map.now }
    requires below { AreBelow scratch (at ∷ bytes ∷ []) }
    requires room { scratch + 8 ≤ 2 ^ 31 }
    ensures does { IfOk result (λ r. IsMakeZeroRoutine map.now S.entry (S.IsGood map.now) at bytes scratch r.items) }
    ensures computes { IfOk result (λ r. IsWithoutInputOutput r.items) }
    ensures shape { IfOk result (λ r. HasShape r.items 16 (scratch + 4)) }
{
    S::entries_are_local();
    zero_area(alloc, map, at, bytes, scratch)
}

// The same as a list.
pub(crate) fn zero_area_instructions(
    alloc: Global,
    at: u32,
    bytes: u32,
    scratch: u32,
) -> Result<Vec<FlatInstruction>, AllocError>
    requires room { scratch + 8 ≤ 2 ^ 31 }
    ensures { IfOk result (λ r. r.items ≡ zero_area_code at bytes scratch) }
{
    let body = [
        FlatInstruction::Constant {
            into: scratch + 3,
            value: 0,
        },
        FlatInstruction::Store {
            op: StoreOp::Sd,
            at: scratch + 1,
            offset: 0,
            from: scratch + 3,
        },
    ];
    let words = word_instructions(alloc, at, bytes, scratch)?;
    let turns = word_loop(alloc, scratch, &body)?;
    joined(alloc, words.as_slice(), turns.as_slice())
}

fn word_instructions(
    alloc: Global,
    at: u32,
    bytes: u32,
    scratch: u32,
) -> Result<Vec<FlatInstruction>, AllocError>
    requires room { scratch + 8 ≤ 2 ^ 31 }
    ensures { IfOk result (λ r. r.items
        ≡ area_words at bytes scratch (scratch + 1) (scratch + 2) (scratch + 3)) }
{
    let work = scratch + 3;
    let code = [
        FlatInstruction::Operate {
            op: RegOp::Add,
            into: scratch,
            left: bytes,
            right: RightOperand::Number(7),
        },
        FlatInstruction::Operate {
            op: RegOp::Srl,
            into: scratch,
            left: scratch,
            right: RightOperand::Number(3),
        },
        // four words for the entry of each whole word
        FlatInstruction::Operate {
            op: RegOp::Srl,
            into: work,
            left: bytes,
            right: RightOperand::Number(3),
        },
        FlatInstruction::Operate {
            op: RegOp::Sll,
            into: work,
            left: work,
            right: RightOperand::Number(2),
        },
        FlatInstruction::Operate {
            op: RegOp::Add,
            into: scratch,
            left: scratch,
            right: RightOperand::Register(work),
        },
        FlatInstruction::Move {
            into: scratch + 1,
            from: at,
        },
        FlatInstruction::Constant {
            into: scratch + 2,
            value: 0,
        },
    ];
    Vec::from_slice(alloc, &code)
}
