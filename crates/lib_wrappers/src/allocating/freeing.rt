//! `free`.

ghost use Rattle.std.specs.Prelude.{◌≡◌, ◌+◌, ◌≤◌, ◌<◌, ◌^◌, IfOk};
ghost use Rattle.addr_map.specs.Places.{AreMapped};
ghost use Rattle.flat_code.specs.Routines.Shape.{HasShape};
ghost use Rattle.flat_code.specs.Routines.Registers.{AreBelow};
ghost use Rattle.flat_code.specs.Routines.Metadata.{held_registers};
ghost use Rattle.lib_wrappers.specs.AllocatingRoutines.Freeing.{IsFreeRoutine, life_test, found_test, free_code};

use addr_map::AddrMap;
use flat_actions::{joined, unless};
use flat_code::{FlatInstruction, Held, RightOperand};
use rv_isa::{BranchOp, LoadOp};
use sb_base::{Ending, Line};
use shadow_space::ShadowForm;
use std::alloc::{AllocError, Global};

/// Ends the block that the pointer in `pointer` points to the start of; does nothing for null. The run ends at `line`
/// with a temporal violation where the object of its tag is dead, and as a bad free where that is no block or the
/// address is not its start, or there is no such object. It may write the registers from `scratch` on. The only refusal
/// is that memory fails.
pub fn free<S: ShadowForm>(
    alloc: Global,
    map: &AddrMap,
    pointer: Held,
    line: Line,
    scratch: u32,
) -> Result<Vec<FlatInstruction>, AllocError>
    requires map { AreMapped map.now }
    requires below { AreBelow scratch (held_registers pointer) }
    requires room { scratch + 16 ≤ 2 ^ 31 }
    ensures does { IfOk result (λ r. IsFreeRoutine map.now S.entry (S.IsGood map.now) pointer line scratch r.items) }
    ensures shape { IfOk result (λ r. HasShape r.items 72 (scratch + 7)) }
{
    S::entries_are_local();
    let size = scratch + 1;
    let found = scratch + 2;
    let own = scratch + 4;
    let find = heap_space::find(alloc, map, pointer.value, pointer.tag.key, size, found, own)?;
    let unlist = heap_space::release(alloc, map, pointer.value, own)?;
    let unlock = lock_space::release(alloc, map, pointer.tag.lock, own)?;
    let r = free_list(
        alloc,
        find.as_slice(),
        unlist.as_slice(),
        unlock.as_slice(),
        pointer,
        line,
        scratch,
    )?;
    Ok(r)
}

fn free_list(
    alloc: Global,
    find: &[FlatInstruction],
    unlist: &[FlatInstruction],
    unlock: &[FlatInstruction],
    pointer: Held,
    line: Line,
    scratch: u32,
) -> Result<Vec<FlatInstruction>, AllocError>
    requires { scratch + 16 ≤ 2 ^ 31 }
    ensures { IfOk result (λ r. r.items
        ≡ free_code find.now unlist.now unlock.now pointer line scratch (scratch + 2)) }
{
    let life = life_test(alloc, pointer, line, scratch)?;
    let test = found_test(alloc, scratch + 2, line)?;
    let both = joined(alloc, unlist, unlock)?;
    let rest = joined(alloc, test.as_slice(), both.as_slice())?;
    let after = joined(alloc, find, rest.as_slice())?;
    let body = joined(alloc, life.as_slice(), after.as_slice())?;
    unless(
        alloc,
        BranchOp::Beq,
        pointer.value,
        RightOperand::Number(0),
        body.as_slice(),
    )
}

// Whether the pointer has the tag of an object that lives.
pub(crate) fn life_test(
    alloc: Global,
    pointer: Held,
    line: Line,
    word: u32,
) -> Result<Vec<FlatInstruction>, AllocError>
    ensures { IfOk result (λ r. r.items ≡ life_test pointer line word) }
{
    let code = [
        // only objects have a lock word
        FlatInstruction::Branch {
            op: BranchOp::Bne,
            left: pointer.tag.lock,
            right: RightOperand::Number(0),
            past: 1,
        },
        FlatInstruction::End(Ending::BadFree(line)),
        FlatInstruction::Load {
            op: LoadOp::Ld,
            into: word,
            at: pointer.tag.lock,
            offset: 0,
        },
        FlatInstruction::Branch {
            op: BranchOp::Beq,
            left: word,
            right: RightOperand::Register(pointer.tag.key),
            past: 1,
        },
        FlatInstruction::End(Ending::Temporal(line)),
    ];
    Vec::from_slice(alloc, &code)
}

// Whether a block was found.
pub(crate) fn found_test(
    alloc: Global,
    found: u32,
    line: Line,
) -> Result<Vec<FlatInstruction>, AllocError>
    ensures { IfOk result (λ r. r.items ≡ found_test found line) }
{
    let code = [
        FlatInstruction::Branch {
            op: BranchOp::Bne,
            left: found,
            right: RightOperand::Number(0),
            past: 1,
        },
        FlatInstruction::End(Ending::BadFree(line)),
    ];
    Vec::from_slice(alloc, &code)
}
