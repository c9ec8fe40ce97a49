//! Contents put from areas to objects.

ghost use Rattle.std.specs.Prelude.{◌≡◌, ◌+◌, ◌≤◌, ◌^◌, IfOk, [], ◌∷◌, ◌++◌, length};
ghost use Rattle.addr_map.specs.Places.{AreMapped};
ghost use Rattle.flat_code.specs.Routines.InputOutput.{IsWithoutInputOutput};
ghost use Rattle.flat_code.specs.Routines.Shape.{HasShape};
ghost use Rattle.flat_code.specs.Routines.Registers.{AreBelow};
ghost use Rattle.flat_code.specs.Routines.Metadata.{held_registers};
ghost use Rattle.lib_wrappers.specs.MovingRoutines.Tagged.{count_words};
ghost use Rattle.lib_wrappers.specs.AreaRoutines.Putting.{IsPutRangeRoutine, entry_place, put_entries};
ghost use Rattle.lib_wrappers.specs.AreaRoutines.Values.{IsPutRoutine};

use crate::areas::loops::{load_entry, word_loop};
use crate::moving::{count_instructions, move_usable};
use addr_map::AddrMap;
use flat_actions::joined;
use flat_code::{Entry, FlatInstruction, Held, RightOperand};
use rv_isa::RegOp;
use shadow_space::ShadowForm;
use std::alloc::{AllocError, Global};

/// Puts a part of contents from an area to a range of object space: its bytes, and the entries of the whole words of
/// the range where both places are equal modulo 8. `to` holds where the range begins, `part` the part, and `bytes` how
/// many bytes. It may write the registers from `scratch` on, shows nothing, takes no input and puts no output. The only
/// refusal is that memory fails.
pub fn put_range<S: ShadowForm>(
    alloc: Global,
    map: &AddrMap,
    to: u32,
    part: Held,
    bytes: u32,
    scratch: u32,
) -> Result<Vec<FlatInstruction>, AllocError>
    requires map { AreMapped map.now }
    requires below { AreBelow scratch (to ∷ bytes ∷ held_registers part) }
    requires room { scratch + 8 ≤ 2 ^ 31 }
    ensures does { IfOk result (λ r. IsPutRangeRoutine map.now S.entry (S.IsGood map.now) to part bytes scratch r.items) }
    ensures computes { IfOk result (λ r. IsWithoutInputOutput r.items) }
    ensures shape { IfOk result (λ r. HasShape r.items 96 (scratch + 13)) }
{
    S::entries_are_local();
    let entry = Entry {
        base: scratch + 3,
        bound: scratch + 4,
        key: scratch + 5,
        lock: scratch + 6,
    };
    let moves = move_usable(alloc, map, to, part.value, bytes, scratch)?;
    let write = S::write_entry(alloc, map, scratch + 1, entry, scratch + 7)?;
    let entries = put_instructions(alloc, write.as_slice(), to, part, bytes, scratch)?;
    let code = joined(alloc, moves.as_slice(), entries.as_slice())?;
    Ok(code)
}

/// Puts a part of contents from an area to a place in a live object, as the source does where a structure is assigned
/// or stored (C99 6.5.16.1). `to` holds the address of the place, `part` the part, and `bytes` how many bytes it has.
/// It may write the registers from `scratch` on, takes no input and puts no output. The only refusal is that memory
/// fails.
pub fn put_structure<S: ShadowForm>(
    alloc: Global,
    map: &AddrMap,
    to: u32,
    part: Held,
    bytes: u32,
    scratch: u32,
) -> Result<Vec<FlatInstruction>, AllocError>
    requires map { AreMapped map.now }
    requires below { AreBelow scratch (to ∷ bytes ∷ held_registers part) }
    requires room { scratch + 8 ≤ 2 ^ 31 }
    ensures does { IfOk result (λ r. IsPutRoutine map.now S.entry (S.IsGood map.now) to part bytes scratch r.items) }
    ensures computes { IfOk result (λ r. IsWithoutInputOutput r.items) }
    ensures shape { IfOk result (λ r. HasShape r.items 96 (scratch + 13)) }
{
    put_range::<S>(alloc, map, to, part, bytes, scratch)
}

fn put_instructions(
    alloc: Global,
    write: &[FlatInstruction],
    to: u32,
    part: Held,
    bytes: u32,
    scratch: u32,
) -> Result<Vec<FlatInstruction>, AllocError>
    requires room { scratch + 8 ≤ 2 ^ 31 }
    requires short { length write.now ≤ 32 }
    ensures { IfOk result (λ r. r.items ≡ put_entries write.now to part bytes scratch) }
{
    let entry = Entry {
        base: scratch + 3,
        bound: scratch + 4,
        key: scratch + 5,
        lock: scratch + 6,
    };
    let count = count_instructions(alloc, to, part.value, bytes, scratch)?;
    let place = entry_place(alloc, part, scratch + 2)?;
    let loads = load_entry(alloc, scratch + 2, entry)?;
    let body = joined(alloc, loads.as_slice(), write)?;
    let turns = word_loop(alloc, scratch, body.as_slice())?;
    let first = joined(alloc, count.as_slice(), place.as_slice())?;
    joined(alloc, first.as_slice(), turns.as_slice())
}

// From the address of a word in an area to that of its entry.
fn entry_place(alloc: Global, part: Held, place: u32) -> Result<Vec<FlatInstruction>, AllocError>
    ensures { IfOk result (λ r. r.items ≡ entry_place part place) }
{
    let code = [
        FlatInstruction::Operate {
            op: RegOp::Sub,
            into: place,
            left: place,
            right: RightOperand::Register(part.tag.base),
        },
        FlatInstruction::Operate {
            op: RegOp::Sll,
            into: place,
            left: place,
            right: RightOperand::Number(2),
        },
        FlatInstruction::Operate {
            op: RegOp::Add,
            into: place,
            left: place,
            right: RightOperand::Register(part.tag.bound),
        },
    ];
    Vec::from_slice(alloc, &code)
}
