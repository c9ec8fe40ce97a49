//! `malloc` and `calloc`.

ghost use Rattle.std.specs.Prelude.{◌≡◌, ◌+◌, ◌≤◌, ◌<◌, ◌^◌, IfOk, [], ◌∷◌};
ghost use Rattle.addr_map.specs.Places.{AreMapped};
ghost use Rattle.flat_code.specs.Routines.Shape.{HasShape};
ghost use Rattle.flat_code.specs.Routines.Registers.{AreBelow, AreDistinct, AreNoneOf};
ghost use Rattle.flat_code.specs.Routines.Metadata.{held_registers};
ghost use Rattle.lib_wrappers.specs.AllocatingRoutines.Allocating.{IsAllocateRoutine, IsMallocRoutine};
ghost use Rattle.lib_wrappers.specs.AllocatingRoutines.Allocating.{IsCallocRoutine, keys_code};
ghost use Rattle.lib_wrappers.specs.AllocatingRoutines.Allocating.{untagged, key_test, whole_bounds, make_code};
ghost use Rattle.lib_wrappers.specs.AllocatingRoutines.Allocating.{malloc_code};
ghost use Rattle.lib_wrappers.specs.AllocatingRoutines.Allocating.{product_code, null_code, calloc_code};

use crate::allocating::zeroing::zero;
use addr_map::{AddrMap, Region};
use flat_actions::{joined, unless};
use flat_code::{FlatInstruction, Held, RightOperand};
use flat_operators::constant::put_wide;
use rv_isa::{BranchOp, LoadOp, RegOp};
use sb_base::{Ending, Line};
use shadow_space::ShadowForm;
use std::alloc::{AllocError, Global};

// What a block is made of: the register with its size, those that get the pointer to it, and the line of the call.
#[derive(Clone, Copy)]
struct BlockRequest {
    size: u32,
    into: Held,
    line: Line,
}

/// Gives in `into` a pointer to a new block of as many bytes as `size` holds, all zero, with a key of its own; or null,
/// where there is no place for it. Where there is one, and no key is left, the run ends at `line`. It may write the
/// registers from `scratch` on. The only refusal is that memory fails.
pub fn malloc<S: ShadowForm>(
    alloc: Global,
    map: &AddrMap,
    size: u32,
    into: Held,
    line: Line,
    scratch: u32,
) -> Result<Vec<FlatInstruction>, AllocError>
    requires map { AreMapped map.now }
    requires below { AreBelow scratch (size ∷ held_registers into) }
    requires apart { AreNoneOf (size ∷ []) (held_registers into) }
    requires distinct { AreDistinct (held_registers into) }
    requires room { scratch + 16 ≤ 2 ^ 31 }
    ensures does { IfOk result (λ r. IsMallocRoutine map.now S.entry (S.IsGood map.now) size into line scratch r.items) }
    ensures shape { IfOk result (λ r. HasShape r.items 160 (scratch + 12)) }
{
    allocate::<S>(alloc, map, size, into, line, scratch)
}

/// Gives in `into` a pointer to a new block of zero bytes, as many as the product of what `count` and `size` hold; or
/// null, where the product is 2^64 or more, or as for `malloc`.
pub fn calloc<S: ShadowForm>(
    alloc: Global,
    map: &AddrMap,
    count: u32,
    size: u32,
    into: Held,
    line: Line,
    scratch: u32,
) -> Result<Vec<FlatInstruction>, AllocError>
    requires map { AreMapped map.now }
    requires below { AreBelow scratch (count ∷ size ∷ held_registers into) }
    requires distinct { AreDistinct (held_registers into) }
    requires room { scratch + 32 ≤ 2 ^ 31 }
    ensures does { IfOk result
        (λ r. IsCallocRoutine map.now S.entry (S.IsGood map.now) count size into line scratch r.items) }
    ensures shape { IfOk result (λ r. HasShape r.items 176 (scratch + 14)) }
{
    let block = allocate::<S>(alloc, map, scratch + 1, into, line, scratch + 2)?;
    let r = calloc_list(alloc, block.as_slice(), count, size, into, scratch)?;
    Ok(r)
}

// A block of as many bytes as `size` holds, for whatever routine asks for one.
pub(crate) fn allocate<S: ShadowForm>(
    alloc: Global,
    map: &AddrMap,
    size: u32,
    into: Held,
    line: Line,
    scratch: u32,
) -> Result<Vec<FlatInstruction>, AllocError>
    requires map { AreMapped map.now }
    requires below { AreBelow scratch (size ∷ held_registers into) }
    requires apart { AreNoneOf (size ∷ []) (held_registers into) }
    requires distinct { AreDistinct (held_registers into) }
    requires room { scratch + 16 ≤ 2 ^ 31 }
    ensures does { IfOk result (λ r. IsAllocateRoutine map.now S.entry (S.IsGood map.now) size into line scratch r.items) }
    ensures shape { IfOk result (λ r. HasShape r.items 160 (scratch + 12)) }
{
    S::entries_are_local();
    let key = scratch + 1;
    let address = scratch + 2;
    let own = scratch + 4;
    let place = heap_space::place(alloc, map, size, key, address, own)?;
    let fresh = lock_space::fresh(alloc, map, into.tag.key, into.tag.lock, own)?;
    let zeros = zero::<S>(alloc, map, address, size, own)?;
    let r = malloc_list(
        alloc,
        map,
        place.as_slice(),
        fresh.as_slice(),
        zeros.as_slice(),
        &BlockRequest { size, into, line },
        scratch,
    )?;
    Ok(r)
}

fn malloc_list(
    alloc: Global,
    map: &AddrMap,
    place: &[FlatInstruction],
    fresh: &[FlatInstruction],
    zeros: &[FlatInstruction],
    request: &BlockRequest,
    scratch: u32,
) -> Result<Vec<FlatInstruction>, AllocError>
    requires { scratch + 16 ≤ 2 ^ 31 }
    ensures { IfOk result (λ r. r.items
        ≡ malloc_code map.now place.now fresh.now zeros.now request.now.size request.now.into request.now.line scratch
        (scratch + 1) (scratch + 2)) }
{
    let address = scratch + 2;
    let keys = keys_list(alloc, map, scratch, scratch + 1)?;
    let null = untagged_list(alloc, address, request.into)?;
    let make = make_list(alloc, fresh, zeros, request, scratch)?;
    let branch = unless(
        alloc,
        BranchOp::Beq,
        address,
        RightOperand::Number(0),
        make.as_slice(),
    )?;
    let after = joined(alloc, null.as_slice(), branch.as_slice())?;
    let rest = joined(alloc, place, after.as_slice())?;
    joined(alloc, keys.as_slice(), rest.as_slice())
}

/// The next key, in `key`, and whether it is left, in `left`: a test of a call whose callee has objects asks that too.
/// The only refusal is that memory fails.
pub fn keys_list(
    alloc: Global,
    map: &AddrMap,
    left: u32,
    key: u32,
) -> Result<Vec<FlatInstruction>, AllocError>
    ensures { IfOk result (λ r. r.items ≡ keys_code map.now left key) }
{
    let (cells, _) = map.region(Region::FreeLocks);
    let made = [
        FlatInstruction::Constant {
            into: key,
            value: cells,
        },
        FlatInstruction::Load {
            op: LoadOp::Ld,
            into: key,
            at: key,
            offset: 0,
        },
    ];
    let next = [
        FlatInstruction::Operate {
            op: RegOp::Sltu,
            into: left,
            left: key,
            right: RightOperand::Register(left),
        },
        FlatInstruction::Operate {
            op: RegOp::Add,
            into: key,
            left: key,
            right: RightOperand::Number(2),
        },
    ];
    let mut code = Vec::from_slice(alloc, &made)?;
    put_wide(&mut code, left, map.budgets().keys())?;
    code.extend_from_slice(&next)?;
    Ok(code)
}

fn untagged_list(
    alloc: Global,
    address: u32,
    into: Held,
) -> Result<Vec<FlatInstruction>, AllocError>
    ensures { IfOk result (λ r. r.items ≡ untagged address into) }
{
    let code = [
        FlatInstruction::Move {
            into: into.value,
            from: address,
        },
        FlatInstruction::Constant {
            into: into.tag.base,
            value: 0,
        },
        FlatInstruction::Constant {
            into: into.tag.bound,
            value: 0,
        },
        FlatInstruction::Constant {
            into: into.tag.key,
            value: 0,
        },
        FlatInstruction::Constant {
            into: into.tag.lock,
            value: 0,
        },
    ];
    Vec::from_slice(alloc, &code)
}

fn make_list(
    alloc: Global,
    fresh: &[FlatInstruction],
    zeros: &[FlatInstruction],
    request: &BlockRequest,
    scratch: u32,
) -> Result<Vec<FlatInstruction>, AllocError>
    requires { scratch + 16 ≤ 2 ^ 31 }
    ensures { IfOk result (λ r. r.items
        ≡ make_code fresh.now zeros.now request.now.size request.now.into request.now.line scratch (scratch + 2)) }
{
    let address = scratch + 2;
    let test = key_test(alloc, scratch, request.line)?;
    let bounds = whole_bounds(alloc, address, request.size, request.into)?;
    let last = joined(alloc, zeros, bounds.as_slice())?;
    let rest = joined(alloc, fresh, last.as_slice())?;
    joined(alloc, test.as_slice(), rest.as_slice())
}

/// The run ends at `line` where no key is left, by the register that `keys_list` leaves it in. The only refusal is that
/// memory fails.
pub fn key_test(alloc: Global, left: u32, line: Line) -> Result<Vec<FlatInstruction>, AllocError>
    ensures { IfOk result (λ r. r.items ≡ key_test left line) }
{
    let code = [
        FlatInstruction::Branch {
            op: BranchOp::Bne,
            left,
            right: RightOperand::Number(0),
            past: 1,
        },
        FlatInstruction::End(Ending::Keys(line)),
    ];
    Vec::from_slice(alloc, &code)
}

fn whole_bounds(
    alloc: Global,
    address: u32,
    size: u32,
    into: Held,
) -> Result<Vec<FlatInstruction>, AllocError>
    ensures { IfOk result (λ r. r.items ≡ whole_bounds address size into) }
{
    let code = [
        FlatInstruction::Move {
            into: into.tag.base,
            from: address,
        },
        FlatInstruction::Operate {
            op: RegOp::Add,
            into: into.tag.bound,
            left: address,
            right: RightOperand::Register(size),
        },
    ];
    Vec::from_slice(alloc, &code)
}

fn calloc_list(
    alloc: Global,
    block: &[FlatInstruction],
    count: u32,
    size: u32,
    into: Held,
    scratch: u32,
) -> Result<Vec<FlatInstruction>, AllocError>
    requires { scratch + 16 ≤ 2 ^ 31 }
    ensures { IfOk result (λ r. r.items ≡ calloc_code block.now count size into scratch (scratch + 1)) }
{
    let product = product_list(alloc, count, size, scratch, scratch + 1)?;
    let null = null_list(alloc, into)?;
    let branch = unless(
        alloc,
        BranchOp::Bne,
        scratch,
        RightOperand::Number(0),
        block,
    )?;
    let rest = joined(alloc, null.as_slice(), branch.as_slice())?;
    joined(alloc, product.as_slice(), rest.as_slice())
}

fn product_list(
    alloc: Global,
    count: u32,
    size: u32,
    upper: u32,
    lower: u32,
) -> Result<Vec<FlatInstruction>, AllocError>
    ensures { IfOk result (λ r. r.items ≡ product_code count size upper lower) }
{
    let code = [
        FlatInstruction::Operate {
            op: RegOp::Mulhu,
            into: upper,
            left: count,
            right: RightOperand::Register(size),
        },
        FlatInstruction::Operate {
            op: RegOp::Mul,
            into: lower,
            left: count,
            right: RightOperand::Register(size),
        },
    ];
    Vec::from_slice(alloc, &code)
}

fn null_list(alloc: Global, into: Held) -> Result<Vec<FlatInstruction>, AllocError>
    ensures { IfOk result (λ r. r.items ≡ null_code into) }
{
    let code = [
        FlatInstruction::Constant {
            into: into.value,
            value: 0,
        },
        FlatInstruction::Constant {
            into: into.tag.base,
            value: 0,
        },
        FlatInstruction::Constant {
            into: into.tag.bound,
            value: 0,
        },
        FlatInstruction::Constant {
            into: into.tag.key,
            value: 0,
        },
        FlatInstruction::Constant {
            into: into.tag.lock,
            value: 0,
        },
    ];
    Vec::from_slice(alloc, &code)
}
