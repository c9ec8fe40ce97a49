//! The routines on lock words. Each gets the map, and may write the registers from `scratch` on and those that it gives
//! a result in; it shows nothing and does not end the run. The only refusal is that memory fails.

ghost use Rattle.std.specs.Prelude.{◌≡◌, ℕ, ◌+◌, ◌≤◌, ◌^◌, IfOk, [], ◌∷◌};
ghost use Rattle.addr_map.specs.Places.{AreMapped};
ghost use Rattle.flat_code.specs.Routines.Registers.{AreDistinct, AreBelow};
ghost use Rattle.flat_code.specs.Routines.InputOutput.{IsWithoutInputOutput};
ghost use Rattle.flat_code.specs.Routines.Shape.{HasShape};
ghost use Rattle.lock_space.specs.Routines.{IsNextRoutine, IsFreshRoutine, IsReleaseRoutine};
ghost use Rattle.lock_space.specs.Routines.{next_code, fresh_code, release_code};

use addr_map::{AddrMap, Region};
use flat_code::{FlatInstruction, RightOperand};
use rv_isa::{LoadOp, RegOp, StoreOp};
use std::alloc::{AllocError, Global};

// Where the number of keys and that of the used lock words stand behind the first byte of the region of the free list.
const KEYS: u32 = 0;

const USED: u32 = 8;

// The list begins behind both: its place i stands so many bytes behind 8 times i + 1.
const LISTED: u32 = 8;

/// Gives the key that will be made next in `key`, and changes no memory. Fewer than 2^62 keys were made.
pub fn next(
    alloc: Global,
    map: &AddrMap,
    key: u32,
    scratch: u32,
) -> Result<Vec<FlatInstruction>, AllocError>
    requires map { AreMapped map.now }
    requires below { AreBelow scratch (key ∷ []) }
    requires room { scratch ≤ 2 ^ 31 }
    ensures does { IfOk result (λ r. IsNextRoutine map.now key scratch r.items) }
    ensures computes { IfOk result (λ r. IsWithoutInputOutput r.items) }
    ensures shape { IfOk result (λ r. HasShape r.items 3 (scratch + 1)) }
{
    next_instructions(alloc, map, key, scratch)
}

/// Gives a key that was never made before in `key`, and in `lock` the address of a lock word that held 0 and now holds
/// the key. Some lock word but the global one is free, and fewer than 2^62 keys were made.
pub fn fresh(
    alloc: Global,
    map: &AddrMap,
    key: u32,
    lock: u32,
    scratch: u32,
) -> Result<Vec<FlatInstruction>, AllocError>
    requires map { AreMapped map.now }
    requires distinct { AreDistinct (key ∷ lock ∷ []) }
    requires below { AreBelow scratch (key ∷ lock ∷ []) }
    requires room { scratch ≤ 2 ^ 31 }
    ensures does { IfOk result (λ r. IsFreshRoutine map.now key lock scratch r.items) }
    ensures computes { IfOk result (λ r. IsWithoutInputOutput r.items) }
    ensures shape { IfOk result (λ r. HasShape r.items 14 (scratch + 2)) }
{
    fresh_instructions(alloc, map, key, lock, scratch)
}

/// Makes the lock word whose address is in `lock` hold 0 and free, without input and output. It holds a key, and is not
/// the global one.
pub fn release(
    alloc: Global,
    map: &AddrMap,
    lock: u32,
    scratch: u32,
) -> Result<Vec<FlatInstruction>, AllocError>
    requires map { AreMapped map.now }
    requires below { AreBelow scratch (lock ∷ []) }
    requires room { scratch ≤ 2 ^ 31 }
    ensures code { IfOk result
        (λ r. r.items ≡ release_code map.now lock scratch (scratch + 1) (scratch + 2)) }
    ensures does { IfOk result (λ r. IsReleaseRoutine map.now lock scratch r.items) }
    ensures computes { IfOk result (λ r. IsWithoutInputOutput r.items) }
    ensures shape { IfOk result (λ r. HasShape r.items 11 (scratch + 3)) }
{
    release_instructions(alloc, map, lock, scratch)
}

fn next_instructions(
    alloc: Global,
    map: &AddrMap,
    key: u32,
    scratch: u32,
) -> Result<Vec<FlatInstruction>, AllocError>
    ensures { IfOk result (λ r. r.items ≡ next_code map.now key scratch) }
{
    let (cells, _) = map.region(Region::FreeLocks);
    let code = [
        FlatInstruction::Constant {
            into: scratch,
            value: cells,
        },
        FlatInstruction::Load {
            op: LoadOp::Ld,
            into: key,
            at: scratch,
            offset: KEYS,
        },
        FlatInstruction::Operate {
            op: RegOp::Add,
            into: key,
            left: key,
            right: RightOperand::Number(2),
        },
    ];
    Vec::from_slice(alloc, &code)
}

fn fresh_instructions(
    alloc: Global,
    map: &AddrMap,
    key: u32,
    lock: u32,
    scratch: u32,
) -> Result<Vec<FlatInstruction>, AllocError>
    requires { scratch ≤ 2 ^ 31 }
    ensures { IfOk result (λ r. r.items ≡ fresh_code map.now key lock scratch (scratch + 1)) }
{
    let (cells, _) = map.region(Region::FreeLocks);
    let (locks, _) = map.region(Region::Locks);
    let cell = scratch;
    let number = scratch + 1;
    let code = [
        FlatInstruction::Constant {
            into: cell,
            value: cells,
        },
        // one more key is made
        FlatInstruction::Load {
            op: LoadOp::Ld,
            into: key,
            at: cell,
            offset: KEYS,
        },
        FlatInstruction::Operate {
            op: RegOp::Add,
            into: number,
            left: key,
            right: RightOperand::Number(1),
        },
        FlatInstruction::Store {
            op: StoreOp::Sd,
            at: cell,
            offset: KEYS,
            from: number,
        },
        FlatInstruction::Operate {
            op: RegOp::Add,
            into: key,
            left: key,
            right: RightOperand::Number(2),
        },
        // one more lock word is used
        FlatInstruction::Load {
            op: LoadOp::Ld,
            into: number,
            at: cell,
            offset: USED,
        },
        FlatInstruction::Operate {
            op: RegOp::Add,
            into: number,
            left: number,
            right: RightOperand::Number(1),
        },
        FlatInstruction::Store {
            op: StoreOp::Sd,
            at: cell,
            offset: USED,
            from: number,
        },
        // the one that the list has there
        FlatInstruction::Operate {
            op: RegOp::Sll,
            into: number,
            left: number,
            right: RightOperand::Number(3),
        },
        FlatInstruction::Operate {
            op: RegOp::Add,
            into: cell,
            left: cell,
            right: RightOperand::Register(number),
        },
        FlatInstruction::Load {
            op: LoadOp::Ld,
            into: lock,
            at: cell,
            offset: LISTED,
        },
        FlatInstruction::Operate {
            op: RegOp::Add,
            into: lock,
            left: lock,
            right: RightOperand::Register(number),
        },
        FlatInstruction::Operate {
            op: RegOp::Add,
            into: lock,
            left: lock,
            right: RightOperand::Number(locks),
        },
        FlatInstruction::Store {
            op: StoreOp::Sd,
            at: lock,
            offset: 0,
            from: key,
        },
    ];
    Vec::from_slice(alloc, &code)
}

fn release_instructions(
    alloc: Global,
    map: &AddrMap,
    lock: u32,
    scratch: u32,
) -> Result<Vec<FlatInstruction>, AllocError>
    requires { scratch ≤ 2 ^ 31 }
    ensures { IfOk result (λ r. r.items ≡ release_code map.now lock scratch (scratch + 1) (scratch + 2)) }
{
    let (cells, _) = map.region(Region::FreeLocks);
    let (locks, _) = map.region(Region::Locks);
    let cell = scratch;
    let number = scratch + 1;
    let rest = scratch + 2;
    let code = [
        FlatInstruction::Constant {
            into: number,
            value: 0,
        },
        FlatInstruction::Store {
            op: StoreOp::Sd,
            at: lock,
            offset: 0,
            from: number,
        },
        FlatInstruction::Constant {
            into: cell,
            value: cells,
        },
        // one lock word less is used
        FlatInstruction::Load {
            op: LoadOp::Ld,
            into: number,
            at: cell,
            offset: USED,
        },
        FlatInstruction::Operate {
            op: RegOp::Sub,
            into: rest,
            left: number,
            right: RightOperand::Number(1),
        },
        FlatInstruction::Store {
            op: StoreOp::Sd,
            at: cell,
            offset: USED,
            from: rest,
        },
        // the list has this one there
        FlatInstruction::Operate {
            op: RegOp::Sll,
            into: number,
            left: number,
            right: RightOperand::Number(3),
        },
        FlatInstruction::Operate {
            op: RegOp::Add,
            into: cell,
            left: cell,
            right: RightOperand::Register(number),
        },
        FlatInstruction::Operate {
            op: RegOp::Add,
            into: number,
            left: number,
            right: RightOperand::Number(locks),
        },
        FlatInstruction::Operate {
            op: RegOp::Sub,
            into: number,
            left: lock,
            right: RightOperand::Register(number),
        },
        FlatInstruction::Store {
            op: StoreOp::Sd,
            at: cell,
            offset: LISTED,
            from: number,
        },
    ];
    Vec::from_slice(alloc, &code)
}
