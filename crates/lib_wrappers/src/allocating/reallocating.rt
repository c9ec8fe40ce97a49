//! `realloc`.

ghost use Rattle.std.specs.Prelude.{◌≡◌, ◌+◌, ◌≤◌, ◌<◌, ◌^◌, IfOk, ◌∷◌};
ghost use Rattle.addr_map.specs.Places.{AreMapped};
ghost use Rattle.flat_code.specs.Routines.Shape.{HasShape};
ghost use Rattle.flat_code.specs.Routines.Registers.{AreBelow, AreDistinct, AreNoneOf};
ghost use Rattle.flat_code.specs.Routines.Metadata.{held_registers};
ghost use Rattle.lib_wrappers.specs.AllocatingRoutines.Reallocating.{IsReallocRoutine, tests_code, lesser_code};
ghost use Rattle.lib_wrappers.specs.AllocatingRoutines.Reallocating.{replace_code};
ghost use Rattle.lib_wrappers.specs.AllocatingRoutines.Reallocating.{reallocating_code};

use crate::allocating::allocating::allocate;
use crate::allocating::freeing::{found_test, life_test};
use crate::moving::move_tagged;
use addr_map::AddrMap;
use flat_actions::{joined, unless};
use flat_code::{FlatInstruction, Held, RightOperand};
use rv_isa::BranchOp;
use sb_base::Line;
use shadow_space::ShadowForm;
use std::alloc::{AllocError, Global};

// The old block's pointer, the registers that get the new one's, and the line of the call.
#[derive(Clone, Copy)]
struct Exchange {
    old: Held,
    into: Held,
    line: Line,
}

/// Gives in `into` a pointer to a new block of as many bytes as `size` holds, into which what both have room for of the
/// block in `old` was moved with its tags, and the old block ends; or null, where there is no place for a new block,
/// and the old one lives on. For null it is `malloc`. What `free` refuses to end is refused, and ends the run at
/// `line`. It may write the registers from `scratch` on. The only refusal is that memory fails.
pub fn realloc<S: ShadowForm>(
    alloc: Global,
    map: &AddrMap,
    old: Held,
    size: u32,
    into: Held,
    line: Line,
    scratch: u32,
) -> Result<Vec<FlatInstruction>, AllocError>
    requires map { AreMapped map.now }
    requires old { AreBelow scratch (held_registers old) }
    requires below { AreBelow scratch (size ∷ held_registers into) }
    requires apart { AreNoneOf (size ∷ held_registers old) (held_registers into) }
    requires distinct { AreDistinct (held_registers into) }
    requires room { scratch + 32 ≤ 2 ^ 31 }
    ensures does { IfOk result
        (λ r. IsReallocRoutine map.now S.entry (S.IsGood map.now) old size into line scratch r.items) }
    ensures shape { IfOk result (λ r. HasShape r.items 384 (scratch + 18)) }
{
    S::entries_are_local();
    let lesser = scratch + 1;
    let found = scratch + 2;
    let own = scratch + 4;
    let find = heap_space::find(alloc, map, old.value, old.tag.key, lesser, found, own)?;
    let block = allocate::<S>(alloc, map, size, into, line, own)?;
    let moves = move_tagged::<S>(alloc, map, into.value, old.value, lesser, own)?;
    let unlist = heap_space::release(alloc, map, old.value, own)?;
    let unlock = lock_space::release(alloc, map, old.tag.lock, own)?;
    let replace = replace_list(
        alloc,
        moves.as_slice(),
        unlist.as_slice(),
        unlock.as_slice(),
        size,
        lesser,
    )?;
    let r = realloc_list(
        alloc,
        find.as_slice(),
        block.as_slice(),
        replace.as_slice(),
        &Exchange { old, into, line },
        scratch,
    )?;
    Ok(r)
}

fn realloc_list(
    alloc: Global,
    find: &[FlatInstruction],
    block: &[FlatInstruction],
    replace: &[FlatInstruction],
    exchange: &Exchange,
    scratch: u32,
) -> Result<Vec<FlatInstruction>, AllocError>
    requires { scratch + 16 ≤ 2 ^ 31 }
    ensures { IfOk result (λ r. r.items
        ≡ reallocating_code find.now block.now replace.now exchange.now.old exchange.now.into exchange.now.line scratch
        (scratch + 2)) }
{
    let old = exchange.old;
    let tests = tests_list(alloc, find, old, exchange.line, scratch, scratch + 2)?;
    let first = unless(
        alloc,
        BranchOp::Beq,
        old.value,
        RightOperand::Number(0),
        tests.as_slice(),
    )?;
    let inner = unless(
        alloc,
        BranchOp::Beq,
        exchange.into.value,
        RightOperand::Number(0),
        replace,
    )?;
    let last = unless(
        alloc,
        BranchOp::Beq,
        old.value,
        RightOperand::Number(0),
        inner.as_slice(),
    )?;
    let rest = joined(alloc, block, last.as_slice())?;
    joined(alloc, first.as_slice(), rest.as_slice())
}

fn tests_list(
    alloc: Global,
    find: &[FlatInstruction],
    pointer: Held,
    line: Line,
    word: u32,
    found: u32,
) -> Result<Vec<FlatInstruction>, AllocError>
    ensures { IfOk result (λ r. r.items ≡ tests_code find.now pointer line word found) }
{
    let life = life_test(alloc, pointer, line, word)?;
    let test = found_test(alloc, found, line)?;
    let rest = joined(alloc, find, test.as_slice())?;
    joined(alloc, life.as_slice(), rest.as_slice())
}

fn replace_list(
    alloc: Global,
    moves: &[FlatInstruction],
    unlist: &[FlatInstruction],
    unlock: &[FlatInstruction],
    size: u32,
    lesser: u32,
) -> Result<Vec<FlatInstruction>, AllocError>
    ensures { IfOk result (λ r. r.items ≡ replace_code moves.now unlist.now unlock.now size lesser) }
{
    let least = lesser_list(alloc, size, lesser)?;
    let end = joined(alloc, unlist, unlock)?;
    let rest = joined(alloc, moves, end.as_slice())?;
    joined(alloc, least.as_slice(), rest.as_slice())
}

fn lesser_list(alloc: Global, number: u32, other: u32) -> Result<Vec<FlatInstruction>, AllocError>
    ensures { IfOk result (λ r. r.items ≡ lesser_code number other) }
{
    let code = [
        FlatInstruction::Branch {
            op: BranchOp::Bgeu,
            left: number,
            right: RightOperand::Register(other),
            past: 1,
        },
        FlatInstruction::Move {
            into: other,
            from: number,
        },
    ];
    Vec::from_slice(alloc, &code)
}
