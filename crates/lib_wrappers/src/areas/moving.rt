//! Parts of contents moved from one area to another.

ghost use Rattle.std.specs.Prelude.{◌≡◌, ◌+◌, ◌≤◌, ◌^◌, IfOk, [], ◌∷◌, ◌++◌, length};
ghost use Rattle.addr_map.specs.Places.{AreMapped};
ghost use Rattle.flat_code.specs.Routines.InputOutput.{IsWithoutInputOutput};
ghost use Rattle.flat_code.specs.Routines.Shape.{HasShape};
ghost use Rattle.flat_code.specs.Routines.Registers.{AreBelow};
ghost use Rattle.flat_code.specs.Routines.Metadata.{held_registers};
ghost use Rattle.lib_wrappers.specs.AreaRoutines.Loops.{word_loop, zero_body};
ghost use Rattle.lib_wrappers.specs.AreaRoutines.Moving.{IsMoveAreaRoutine, count_parts, move_body, count_rest};
ghost use Rattle.lib_wrappers.specs.AreaRoutines.Moving.{move_parts};
ghost use Rattle.lib_wrappers.specs.AreaRoutines.Moving.{entry_of_word, clear_rest};
ghost use Rattle.lib_wrappers.specs.AreaRoutines.Parts.{IsTakePartRoutine};

use crate::areas::loops::{load_entry, store_entry, word_loop};
use crate::moving::move_usable;
use addr_map::AddrMap;
use flat_actions::joined;
use flat_code::{Entry, FlatInstruction, Held, RightOperand};
use rv_isa::{RegOp, StoreOp};
use shadow_space::ShadowForm;
use std::alloc::{AllocError, Global};

/// Moves a part of contents to the beginning of another area, or of its own: its bytes, and the entries of its whole
/// words where it begins with a word; elsewhere the area holds none. `to` holds where the area begins, `part` the part,
/// and `bytes` how many bytes it has. It may write the registers from `scratch` on, shows nothing, takes no input and
/// puts no output. The only refusal is that memory fails.
pub fn move_area(
    alloc: Global,
    map: &AddrMap,
    to: u32,
    part: Held,
    bytes: u32,
    scratch: u32,
) -> Result<Vec<FlatInstruction>, AllocError>
    requires map { AreMapped map.now }
    requires below { AreBelow scratch (to ∷ bytes ∷ held_registers part) }
    requires room { scratch + 16 ≤ 2 ^ 31 }
    ensures does { IfOk result (λ r. IsMoveAreaRoutine map.now to part bytes scratch r.items) }
    ensures computes { IfOk result (λ r. IsWithoutInputOutput r.items) }
    ensures shape { IfOk result (λ r. HasShape r.items 80 (scratch + 9)) }
{
    let moves = move_usable(alloc, map, to, part.value, bytes, scratch)?;
    let entries = entry_instructions(alloc, to, part, bytes, scratch)?;
    let rest = rest_instructions(alloc, part, bytes, scratch)?;
    let behind = joined(alloc, entries.as_slice(), rest.as_slice())?;
    let code = joined(alloc, moves.as_slice(), behind.as_slice())?;
    Ok(code)
}

/// Takes a part of contents to an area, as the source does: where a structure is returned (C99 6.8.6.4), or an argument
/// is a member of a result. `to` holds where the area begins, which may be that of the contents, `part` the part, and
/// `bytes` how many bytes it has. It may write the registers from `scratch` on, takes no input and puts no output. The
/// only refusal is that memory fails.
pub fn take_part<S: ShadowForm>(
    alloc: Global,
    map: &AddrMap,
    to: u32,
    part: Held,
    bytes: u32,
    scratch: u32,
) -> Result<Vec<FlatInstruction>, AllocError>
    requires map { AreMapped map.now }
    requires below { AreBelow scratch (to ∷ bytes ∷ held_registers part) }
    requires room { scratch + 16 ≤ 2 ^ 31 }
    ensures does { IfOk result (λ r. IsTakePartRoutine map.now S.entry (S.IsGood map.now) to part bytes scratch r.items) }
    ensures computes { IfOk result (λ r. IsWithoutInputOutput r.items) }
    ensures shape { IfOk result (λ r. HasShape r.items 80 (scratch + 9)) }
{
    S::entries_are_local();
    move_area(alloc, map, to, part, bytes, scratch)
}

fn entry_instructions(
    alloc: Global,
    to: u32,
    part: Held,
    bytes: u32,
    scratch: u32,
) -> Result<Vec<FlatInstruction>, AllocError>
    requires room { scratch + 16 ≤ 2 ^ 31 }
    ensures { IfOk result (λ r. r.items ≡ move_parts to part bytes scratch) }
{
    let count = count_instructions(alloc, to, part, bytes, scratch)?;
    let body = body_instructions(alloc, scratch, scratch + 1)?;
    let turns = word_loop(alloc, scratch + 1, body.as_slice())?;
    joined(alloc, count.as_slice(), turns.as_slice())
}

fn body_instructions(
    alloc: Global,
    first: u32,
    scratch: u32,
) -> Result<Vec<FlatInstruction>, AllocError>
    requires room { scratch + 8 ≤ 2 ^ 31 }
    ensures items { IfOk result (λ r. r.items ≡ move_body first scratch) }
    ensures short { IfOk result (λ r. length r.items ≤ 128) }
{
    let entry = Entry {
        base: scratch + 3,
        bound: scratch + 4,
        key: scratch + 5,
        lock: scratch + 6,
    };
    let place = [
        FlatInstruction::Operate {
            op: RegOp::Sll,
            into: scratch + 7,
            left: scratch + 1,
            right: RightOperand::Number(2),
        },
        FlatInstruction::Operate {
            op: RegOp::Add,
            into: scratch + 7,
            left: scratch + 7,
            right: RightOperand::Register(first),
        },
    ];
    let loads = load_entry(alloc, scratch + 2, entry)?;
    let stores = store_entry(alloc, scratch + 7, entry)?;
    let behind = joined(alloc, &place, stores.as_slice())?;
    joined(alloc, loads.as_slice(), behind.as_slice())
}

fn count_instructions(
    alloc: Global,
    to: u32,
    part: Held,
    bytes: u32,
    scratch: u32,
) -> Result<Vec<FlatInstruction>, AllocError>
    requires room { scratch + 16 ≤ 2 ^ 31 }
    ensures { IfOk result (λ r. r.items
        ≡ count_parts to part bytes scratch (scratch + 1) (scratch + 2) (scratch + 3) (scratch + 4)) }
{
    let count = scratch + 1;
    let place = scratch + 3;
    let work = scratch + 4;
    let code = [
        // where the entries of the area begin
        FlatInstruction::Operate {
            op: RegOp::Add,
            into: scratch,
            left: bytes,
            right: RightOperand::Number(7),
        },
        FlatInstruction::Operate {
            op: RegOp::Srl,
            into: scratch,
            left: scratch,
            right: RightOperand::Number(3),
        },
        FlatInstruction::Operate {
            op: RegOp::Sll,
            into: scratch,
            left: scratch,
            right: RightOperand::Number(3),
        },
        FlatInstruction::Operate {
            op: RegOp::Add,
            into: scratch,
            left: scratch,
            right: RightOperand::Register(to),
        },
        // how many are moved, none where the low three bits of the offset are not 0
        FlatInstruction::Operate {
            op: RegOp::Srl,
            into: count,
            left: bytes,
            right: RightOperand::Number(3),
        },
        FlatInstruction::Operate {
            op: RegOp::Sub,
            into: place,
            left: part.value,
            right: RightOperand::Register(part.tag.base),
        },
        FlatInstruction::Operate {
            op: RegOp::Sll,
            into: work,
            left: place,
            right: RightOperand::Number(61),
        },
        FlatInstruction::Operate {
            op: RegOp::Sltu,
            into: work,
            left: work,
            right: RightOperand::Number(1),
        },
        FlatInstruction::Operate {
            op: RegOp::Mul,
            into: count,
            left: count,
            right: RightOperand::Register(work),
        },
        FlatInstruction::Constant {
            into: scratch + 2,
            value: 0,
        },
        FlatInstruction::Operate {
            op: RegOp::Sll,
            into: place,
            left: place,
            right: RightOperand::Number(2),
        },
        FlatInstruction::Operate {
            op: RegOp::Add,
            into: place,
            left: place,
            right: RightOperand::Register(part.tag.bound),
        },
    ];
    Vec::from_slice(alloc, &code)
}

fn rest_instructions(
    alloc: Global,
    part: Held,
    bytes: u32,
    scratch: u32,
) -> Result<Vec<FlatInstruction>, AllocError>
    requires room { scratch + 16 ≤ 2 ^ 31 }
    ensures { IfOk result (λ r. r.items ≡ clear_rest part bytes scratch) }
{
    let first = scratch + 1;
    let body = [
        FlatInstruction::Constant {
            into: first + 3,
            value: 0,
        },
        FlatInstruction::Store {
            op: StoreOp::Sd,
            at: first + 1,
            offset: 0,
            from: first + 3,
        },
    ];
    let count = rest_count(alloc, part, bytes, scratch)?;
    let turns = word_loop(alloc, first, &body)?;
    joined(alloc, count.as_slice(), turns.as_slice())
}

fn rest_count(
    alloc: Global,
    part: Held,
    bytes: u32,
    scratch: u32,
) -> Result<Vec<FlatInstruction>, AllocError>
    requires room { scratch + 16 ≤ 2 ^ 31 }
    ensures { IfOk result (λ r. r.items
        ≡ count_rest part bytes scratch (scratch + 1) (scratch + 2) (scratch + 3) (scratch + 4)) }
{
    let count = scratch + 1;
    let one = scratch + 3;
    let work = scratch + 4;
    let code = [
        // four words for each entry, none where the entries were moved
        FlatInstruction::Operate {
            op: RegOp::Srl,
            into: count,
            left: bytes,
            right: RightOperand::Number(3),
        },
        FlatInstruction::Operate {
            op: RegOp::Sll,
            into: count,
            left: count,
            right: RightOperand::Number(2),
        },
        FlatInstruction::Operate {
            op: RegOp::Sub,
            into: work,
            left: part.value,
            right: RightOperand::Register(part.tag.base),
        },
        FlatInstruction::Operate {
            op: RegOp::Sll,
            into: work,
            left: work,
            right: RightOperand::Number(61),
        },
        FlatInstruction::Operate {
            op: RegOp::Sltu,
            into: work,
            left: work,
            right: RightOperand::Number(1),
        },
        FlatInstruction::Constant {
            into: one,
            value: 1,
        },
        FlatInstruction::Operate {
            op: RegOp::Sub,
            into: work,
            left: one,
            right: RightOperand::Register(work),
        },
        FlatInstruction::Operate {
            op: RegOp::Mul,
            into: count,
            left: count,
            right: RightOperand::Register(work),
        },
        FlatInstruction::Move {
            into: scratch + 2,
            from: scratch,
        },
        FlatInstruction::Constant {
            into: one,
            value: 0,
        },
    ];
    Vec::from_slice(alloc, &code)
}
