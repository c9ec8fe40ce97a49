//! The contents of structures taken to areas.

ghost use Rattle.std.specs.Prelude.{◌≡◌, ◌+◌, ◌≤◌, ◌^◌, IfOk, [], ◌∷◌, length};
ghost use Rattle.addr_map.specs.Places.{AreMapped};
ghost use Rattle.flat_code.specs.Routines.InputOutput.{IsWithoutInputOutput};
ghost use Rattle.flat_code.specs.Routines.Shape.{HasShape};
ghost use Rattle.flat_code.specs.Routines.Registers.{AreBelow};
ghost use Rattle.lib_wrappers.specs.AreaRoutines.Taking.{IsTakeRangeRoutine, count_entries, take_entries};
ghost use Rattle.lib_wrappers.specs.AreaRoutines.Values.{IsTakeRoutine};

use crate::areas::loops::{store_entry, word_loop};
use crate::areas::zeroing::zero_area_instructions;
use crate::moving::move_usable;
use addr_map::AddrMap;
use flat_actions::joined;
use flat_code::{Entry, FlatInstruction, RightOperand};
use rv_isa::RegOp;
use shadow_space::ShadowForm;
use std::alloc::{AllocError, Global};

/// Takes a range of object space to an area: its bytes, and the entries of its whole words where it begins at a
/// multiple of 8; elsewhere the area holds none. `to` holds where the area begins, `from` where the range does, and
/// `bytes` how many bytes it has. It may write the registers from `scratch` on, shows nothing, takes no input and puts
/// no output. The only refusal is that memory fails.
pub fn take_range<S: ShadowForm>(
    alloc: Global,
    map: &AddrMap,
    to: u32,
    from: u32,
    bytes: u32,
    scratch: u32,
) -> Result<Vec<FlatInstruction>, AllocError>
    requires map { AreMapped map.now }
    requires below { AreBelow scratch (to ∷ from ∷ bytes ∷ []) }
    requires room { scratch + 8 ≤ 2 ^ 31 }
    ensures does { IfOk result (λ r. IsTakeRangeRoutine map.now S.entry (S.IsGood map.now) to from bytes scratch r.items) }
    ensures computes { IfOk result (λ r. IsWithoutInputOutput r.items) }
    ensures shape { IfOk result (λ r. HasShape r.items 96 (scratch + 13)) }
{
    S::entries_are_local();
    let entry = Entry {
        base: scratch + 3,
        bound: scratch + 4,
        key: scratch + 5,
        lock: scratch + 6,
    };
    let zeros = zero_area_instructions(alloc, to, bytes, scratch)?;
    let moves = move_usable(alloc, map, to, from, bytes, scratch)?;
    let read = S::read_entry(alloc, map, scratch + 1, entry, scratch + 7)?;
    let entries = entry_instructions(alloc, read.as_slice(), to, from, bytes, scratch)?;
    let range = joined(alloc, zeros.as_slice(), moves.as_slice())?;
    let code = joined(alloc, range.as_slice(), entries.as_slice())?;
    Ok(code)
}

/// Takes the contents of a structure from its place in a live object to an area, as the source does. `to` holds where
/// the area begins, `from` the address of the structure, and `bytes` how many bytes it has. It may write the registers
/// from `scratch` on, takes no input and puts no output. The only refusal is that memory fails.
pub fn take_structure<S: ShadowForm>(
    alloc: Global,
    map: &AddrMap,
    to: u32,
    from: u32,
    bytes: u32,
    scratch: u32,
) -> Result<Vec<FlatInstruction>, AllocError>
    requires map { AreMapped map.now }
    requires below { AreBelow scratch (to ∷ from ∷ bytes ∷ []) }
    requires room { scratch + 8 ≤ 2 ^ 31 }
    ensures does { IfOk result (λ r. IsTakeRoutine map.now S.entry (S.IsGood map.now) to from bytes scratch r.items) }
    ensures computes { IfOk result (λ r. IsWithoutInputOutput r.items) }
    ensures shape { IfOk result (λ r. HasShape r.items 96 (scratch + 13)) }
{
    S::entries_are_local();
    take_range::<S>(alloc, map, to, from, bytes, scratch)
}

fn entry_instructions(
    alloc: Global,
    read: &[FlatInstruction],
    to: u32,
    from: u32,
    bytes: u32,
    scratch: u32,
) -> Result<Vec<FlatInstruction>, AllocError>
    requires room { scratch + 8 ≤ 2 ^ 31 }
    requires short { length read.now ≤ 32 }
    ensures { IfOk result (λ r. r.items ≡ take_entries read.now to from bytes scratch) }
{
    let entry = Entry {
        base: scratch + 3,
        bound: scratch + 4,
        key: scratch + 5,
        lock: scratch + 6,
    };
    let count = count_instructions(alloc, to, from, bytes, scratch)?;
    let stores = store_entry(alloc, scratch + 2, entry)?;
    let body = joined(alloc, read, stores.as_slice())?;
    let turns = word_loop(alloc, scratch, body.as_slice())?;
    joined(alloc, count.as_slice(), turns.as_slice())
}

fn count_instructions(
    alloc: Global,
    to: u32,
    from: u32,
    bytes: u32,
    scratch: u32,
) -> Result<Vec<FlatInstruction>, AllocError>
    requires room { scratch + 8 ≤ 2 ^ 31 }
    ensures { IfOk result (λ r. r.items
        ≡ count_entries to from bytes scratch (scratch + 1) (scratch + 2) (scratch + 3)) }
{
    let place = scratch + 2;
    let work = scratch + 3;
    let code = [
        FlatInstruction::Operate {
            op: RegOp::Srl,
            into: scratch,
            left: bytes,
            right: RightOperand::Number(3),
        },
        // none where the low three bits of the address are not 0
        FlatInstruction::Operate {
            op: RegOp::Sll,
            into: work,
            left: from,
            right: RightOperand::Number(61),
        },
        FlatInstruction::Operate {
            op: RegOp::Sltu,
            into: work,
            left: work,
            right: RightOperand::Number(1),
        },
        FlatInstruction::Operate {
            op: RegOp::Mul,
            into: scratch,
            left: scratch,
            right: RightOperand::Register(work),
        },
        FlatInstruction::Move {
            into: scratch + 1,
            from,
        },
        FlatInstruction::Operate {
            op: RegOp::Add,
            into: place,
            left: bytes,
            right: RightOperand::Number(7),
        },
        FlatInstruction::Operate {
            op: RegOp::Srl,
            into: place,
            left: place,
            right: RightOperand::Number(3),
        },
        FlatInstruction::Operate {
            op: RegOp::Sll,
            into: place,
            left: place,
            right: RightOperand::Number(3),
        },
        FlatInstruction::Operate {
            op: RegOp::Add,
            into: place,
            left: place,
            right: RightOperand::Register(to),
        },
    ];
    Vec::from_slice(alloc, &code)
}
