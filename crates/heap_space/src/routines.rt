//! The routines on the table of live blocks. Each gets the map, and may write the registers from `scratch` on and those
//! that it gives a result in; it shows nothing and does not end the run. The only refusal is that memory fails.

ghost use Rattle.std.specs.Prelude.{◌≡◌, ℕ, ◌+◌, ◌≤◌, ◌^◌, IfOk, [], ◌∷◌};
ghost use Rattle.addr_map.specs.Places.{AreMapped};
ghost use Rattle.flat_code.specs.Routines.Registers.{AreDistinct, AreBelow, AreNoneOf};
ghost use Rattle.flat_code.specs.Routines.InputOutput.{IsWithoutInputOutput};
ghost use Rattle.flat_code.specs.Routines.Shape.{HasShape};
ghost use Rattle.heap_space.specs.Routines.{IsFindRoutine, IsPlaceRoutine, IsReleaseRoutine};
ghost use Rattle.heap_space.specs.Routines.{find_code, place_code, release_code};

use addr_map::{AddrMap, Region};
use flat_code::{FlatInstruction, RightOperand};
use rv_isa::{BranchOp, LoadOp, RegOp, StoreOp};
use std::alloc::{AllocError, Global};

/// Tells in `found` whether a live block has the start in `start` and the key in `key`: 1 where one has, and then
/// `size` has its size, else 0.
pub fn find(
    alloc: Global,
    map: &AddrMap,
    start: u32,
    key: u32,
    size: u32,
    found: u32,
    scratch: u32,
) -> Result<Vec<FlatInstruction>, AllocError>
    requires map { AreMapped map.now }
    requires apart { AreNoneOf (start ∷ key ∷ []) (size ∷ found ∷ []) }
    requires distinct { AreDistinct (size ∷ found ∷ []) }
    requires below { AreBelow scratch (start ∷ key ∷ []) }
    requires results { AreBelow scratch (size ∷ found ∷ []) }
    requires room { scratch ≤ 2 ^ 31 }
    ensures does { IfOk result (λ r. IsFindRoutine map.now start key size found scratch r.items) }
    ensures computes { IfOk result (λ r. IsWithoutInputOutput r.items) }
    ensures shape { IfOk result (λ r. HasShape r.items 16 (scratch + 3)) }
{
    find_instructions(alloc, map, start, key, size, found, scratch)
}

fn find_instructions(
    alloc: Global,
    map: &AddrMap,
    start: u32,
    key: u32,
    size: u32,
    found: u32,
    scratch: u32,
) -> Result<Vec<FlatInstruction>, AllocError>
    requires { scratch ≤ 2 ^ 31 }
    ensures { IfOk result (λ r. r.items
        ≡ find_code map.now start key size found scratch (scratch + 1) (scratch + 2)) }
{
    let (table, _) = map.region(Region::Blocks);
    let cursor = scratch;
    let end = scratch + 1;
    let word = scratch + 2;
    let code = [
        FlatInstruction::Constant {
            into: found,
            value: 0,
        },
        FlatInstruction::Constant {
            into: cursor,
            value: table,
        },
        FlatInstruction::Load {
            op: LoadOp::Ld,
            into: end,
            at: cursor,
            offset: 0,
        },
        FlatInstruction::Operate {
            op: RegOp::Sll,
            into: end,
            left: end,
            right: RightOperand::Number(5),
        },
        FlatInstruction::Operate {
            op: RegOp::Add,
            into: cursor,
            left: cursor,
            right: RightOperand::Number(8),
        },
        FlatInstruction::Operate {
            op: RegOp::Add,
            into: end,
            left: end,
            right: RightOperand::Register(cursor),
        },
        // each turn looks at one row
        FlatInstruction::Branch {
            op: BranchOp::Bgeu,
            left: cursor,
            right: RightOperand::Register(end),
            past: 9,
        },
        FlatInstruction::Load {
            op: LoadOp::Ld,
            into: word,
            at: cursor,
            offset: 0,
        },
        FlatInstruction::Branch {
            op: BranchOp::Bne,
            left: word,
            right: RightOperand::Register(start),
            past: 5,
        },
        FlatInstruction::Load {
            op: LoadOp::Ld,
            into: word,
            at: cursor,
            offset: 16,
        },
        FlatInstruction::Branch {
            op: BranchOp::Bne,
            left: word,
            right: RightOperand::Register(key),
            past: 3,
        },
        FlatInstruction::Load {
            op: LoadOp::Ld,
            into: size,
            at: cursor,
            offset: 8,
        },
        FlatInstruction::Constant {
            into: found,
            value: 1,
        },
        FlatInstruction::Move {
            into: end,
            from: cursor,
        },
        FlatInstruction::Operate {
            op: RegOp::Add,
            into: cursor,
            left: cursor,
            right: RightOperand::Number(32),
        },
        FlatInstruction::JumpBack { back: 9 },
    ];
    Vec::from_slice(alloc, &code)
}

/// Gives in `into` the least place in the heap for a block of the size in `size`, and puts the block there with the key
/// in `key`; or 0 where there is none, or as many blocks live as the budget allows.
pub fn place(
    alloc: Global,
    map: &AddrMap,
    size: u32,
    key: u32,
    into: u32,
    scratch: u32,
) -> Result<Vec<FlatInstruction>, AllocError>
    requires map { AreMapped map.now }
    requires apart { AreNoneOf (size ∷ key ∷ []) (into ∷ []) }
    requires below { AreBelow scratch (size ∷ key ∷ []) }
    requires results { AreBelow scratch (into ∷ []) }
    requires room { scratch ≤ 2 ^ 31 }
    ensures does { IfOk result (λ r. IsPlaceRoutine map.now size key into scratch r.items) }
    ensures computes { IfOk result (λ r. IsWithoutInputOutput r.items) }
    ensures shape { IfOk result (λ r. HasShape r.items 64 (scratch + 8)) }
{
    place_instructions(alloc, map, size, key, into, scratch)
}

fn place_instructions(
    alloc: Global,
    map: &AddrMap,
    size: u32,
    key: u32,
    into: u32,
    scratch: u32,
) -> Result<Vec<FlatInstruction>, AllocError>
    requires { scratch ≤ 2 ^ 31 }
    ensures { IfOk result (λ r. r.items
        ≡ place_code map.now size key into scratch (scratch + 1) (scratch + 2) (scratch + 3) (scratch + 4) (scratch + 5)
        (scratch + 6) (scratch + 7)) }
{
    let (table, _) = map.region(Region::Blocks);
    let (first_address, last_address) = map.region(Region::Heap);
    let blocks = map.budgets().blocks();
    let last = scratch;
    let room = scratch + 1;
    let place = scratch + 2;
    let cursor = scratch + 3;
    let end = scratch + 4;
    let stop = scratch + 5;
    let word = scratch + 6;
    let room_end = scratch + 7;
    let code = [
        FlatInstruction::Constant {
            into: into,
            value: 0,
        },
        FlatInstruction::Constant {
            into: last,
            value: last_address,
        },
        FlatInstruction::Branch {
            op: BranchOp::Bltu,
            left: last,
            right: RightOperand::Register(size),
            past: 45,
        },
        // the room of the block
        FlatInstruction::Operate {
            op: RegOp::Sltu,
            into: room,
            left: size,
            right: RightOperand::Number(1),
        },
        FlatInstruction::Operate {
            op: RegOp::Add,
            into: room,
            left: room,
            right: RightOperand::Register(size),
        },
        FlatInstruction::Operate {
            op: RegOp::Add,
            into: room,
            left: room,
            right: RightOperand::Number(15),
        },
        FlatInstruction::Operate {
            op: RegOp::Srl,
            into: room,
            left: room,
            right: RightOperand::Number(4),
        },
        FlatInstruction::Operate {
            op: RegOp::Sll,
            into: room,
            left: room,
            right: RightOperand::Number(4),
        },
        FlatInstruction::Constant {
            into: cursor,
            value: table,
        },
        FlatInstruction::Load {
            op: LoadOp::Ld,
            into: end,
            at: cursor,
            offset: 0,
        },
        FlatInstruction::Branch {
            op: BranchOp::Bgeu,
            left: end,
            right: RightOperand::Number(blocks),
            past: 37,
        },
        // the first gap
        FlatInstruction::Operate {
            op: RegOp::Sll,
            into: end,
            left: end,
            right: RightOperand::Number(5),
        },
        FlatInstruction::Operate {
            op: RegOp::Add,
            into: cursor,
            left: cursor,
            right: RightOperand::Number(8),
        },
        FlatInstruction::Operate {
            op: RegOp::Add,
            into: end,
            left: end,
            right: RightOperand::Register(cursor),
        },
        FlatInstruction::Constant {
            into: place,
            value: first_address,
        },
        FlatInstruction::Move {
            into: stop,
            from: end,
        },
        FlatInstruction::Branch {
            op: BranchOp::Bgeu,
            left: cursor,
            right: RightOperand::Register(stop),
            past: 8,
        },
        FlatInstruction::Load {
            op: LoadOp::Ld,
            into: word,
            at: cursor,
            offset: 0,
        },
        FlatInstruction::Operate {
            op: RegOp::Add,
            into: room_end,
            left: place,
            right: RightOperand::Register(room),
        },
        FlatInstruction::Branch {
            op: BranchOp::Bgeu,
            left: word,
            right: RightOperand::Register(room_end),
            past: 3,
        },
        FlatInstruction::Load {
            op: LoadOp::Ld,
            into: place,
            at: cursor,
            offset: 24,
        },
        FlatInstruction::Operate {
            op: RegOp::Add,
            into: cursor,
            left: cursor,
            right: RightOperand::Number(32),
        },
        FlatInstruction::JumpForward { past: 1 },
        FlatInstruction::Move {
            into: stop,
            from: cursor,
        },
        FlatInstruction::JumpBack { back: 8 },
        // whether it lies in the heap
        FlatInstruction::Operate {
            op: RegOp::Add,
            into: room_end,
            left: place,
            right: RightOperand::Register(room),
        },
        FlatInstruction::Operate {
            op: RegOp::Sub,
            into: word,
            left: room_end,
            right: RightOperand::Number(1),
        },
        FlatInstruction::Branch {
            op: BranchOp::Bltu,
            left: last,
            right: RightOperand::Register(word),
            past: 20,
        },
        // the rows behind it are moved up
        FlatInstruction::Branch {
            op: BranchOp::Beq,
            left: end,
            right: RightOperand::Register(cursor),
            past: 10,
        },
        FlatInstruction::Operate {
            op: RegOp::Sub,
            into: end,
            left: end,
            right: RightOperand::Number(32),
        },
        FlatInstruction::Load {
            op: LoadOp::Ld,
            into: word,
            at: end,
            offset: 0,
        },
        FlatInstruction::Store {
            op: StoreOp::Sd,
            at: end,
            offset: 32,
            from: word,
        },
        FlatInstruction::Load {
            op: LoadOp::Ld,
            into: word,
            at: end,
            offset: 8,
        },
        FlatInstruction::Store {
            op: StoreOp::Sd,
            at: end,
            offset: 40,
            from: word,
        },
        FlatInstruction::Load {
            op: LoadOp::Ld,
            into: word,
            at: end,
            offset: 16,
        },
        FlatInstruction::Store {
            op: StoreOp::Sd,
            at: end,
            offset: 48,
            from: word,
        },
        FlatInstruction::Load {
            op: LoadOp::Ld,
            into: word,
            at: end,
            offset: 24,
        },
        FlatInstruction::Store {
            op: StoreOp::Sd,
            at: end,
            offset: 56,
            from: word,
        },
        FlatInstruction::JumpBack { back: 10 },
        // the new row is written and counted
        FlatInstruction::Store {
            op: StoreOp::Sd,
            at: cursor,
            offset: 0,
            from: place,
        },
        FlatInstruction::Store {
            op: StoreOp::Sd,
            at: cursor,
            offset: 8,
            from: size,
        },
        FlatInstruction::Store {
            op: StoreOp::Sd,
            at: cursor,
            offset: 16,
            from: key,
        },
        FlatInstruction::Store {
            op: StoreOp::Sd,
            at: cursor,
            offset: 24,
            from: room_end,
        },
        FlatInstruction::Constant {
            into: cursor,
            value: table,
        },
        FlatInstruction::Load {
            op: LoadOp::Ld,
            into: end,
            at: cursor,
            offset: 0,
        },
        FlatInstruction::Operate {
            op: RegOp::Add,
            into: end,
            left: end,
            right: RightOperand::Number(1),
        },
        FlatInstruction::Store {
            op: StoreOp::Sd,
            at: cursor,
            offset: 0,
            from: end,
        },
        FlatInstruction::Move {
            into: into,
            from: place,
        },
    ];
    Vec::from_slice(alloc, &code)
}

/// Removes the block whose start is in `start` from the table. One of the live blocks has it.
pub fn release(
    alloc: Global,
    map: &AddrMap,
    start: u32,
    scratch: u32,
) -> Result<Vec<FlatInstruction>, AllocError>
    requires map { AreMapped map.now }
    requires below { AreBelow scratch (start ∷ []) }
    requires room { scratch ≤ 2 ^ 31 }
    ensures does { IfOk result (λ r. IsReleaseRoutine map.now start scratch r.items) }
    ensures computes { IfOk result (λ r. IsWithoutInputOutput r.items) }
    ensures shape { IfOk result (λ r. HasShape r.items 32 (scratch + 3)) }
{
    release_instructions(alloc, map, start, scratch)
}

fn release_instructions(
    alloc: Global,
    map: &AddrMap,
    start: u32,
    scratch: u32,
) -> Result<Vec<FlatInstruction>, AllocError>
    requires { scratch ≤ 2 ^ 31 }
    ensures { IfOk result (λ r. r.items ≡ release_code map.now start scratch (scratch + 1) (scratch + 2)) }
{
    let (table, _) = map.region(Region::Blocks);
    let cursor = scratch;
    let last = scratch + 1;
    let word = scratch + 2;
    let code = [
        FlatInstruction::Constant {
            into: cursor,
            value: table,
        },
        FlatInstruction::Load {
            op: LoadOp::Ld,
            into: last,
            at: cursor,
            offset: 0,
        },
        FlatInstruction::Operate {
            op: RegOp::Sll,
            into: last,
            left: last,
            right: RightOperand::Number(5),
        },
        FlatInstruction::Operate {
            op: RegOp::Add,
            into: cursor,
            left: cursor,
            right: RightOperand::Number(8),
        },
        FlatInstruction::Operate {
            op: RegOp::Add,
            into: last,
            left: last,
            right: RightOperand::Register(cursor),
        },
        FlatInstruction::Operate {
            op: RegOp::Sub,
            into: last,
            left: last,
            right: RightOperand::Number(32),
        },
        FlatInstruction::Load {
            op: LoadOp::Ld,
            into: word,
            at: cursor,
            offset: 0,
        },
        // the row
        FlatInstruction::Branch {
            op: BranchOp::Beq,
            left: word,
            right: RightOperand::Register(start),
            past: 3,
        },
        FlatInstruction::Operate {
            op: RegOp::Add,
            into: cursor,
            left: cursor,
            right: RightOperand::Number(32),
        },
        FlatInstruction::Load {
            op: LoadOp::Ld,
            into: word,
            at: cursor,
            offset: 0,
        },
        FlatInstruction::JumpBack { back: 3 },
        // the rows behind it are moved down
        FlatInstruction::Branch {
            op: BranchOp::Beq,
            left: cursor,
            right: RightOperand::Register(last),
            past: 10,
        },
        FlatInstruction::Load {
            op: LoadOp::Ld,
            into: word,
            at: cursor,
            offset: 32,
        },
        FlatInstruction::Store {
            op: StoreOp::Sd,
            at: cursor,
            offset: 0,
            from: word,
        },
        FlatInstruction::Load {
            op: LoadOp::Ld,
            into: word,
            at: cursor,
            offset: 40,
        },
        FlatInstruction::Store {
            op: StoreOp::Sd,
            at: cursor,
            offset: 8,
            from: word,
        },
        FlatInstruction::Load {
            op: LoadOp::Ld,
            into: word,
            at: cursor,
            offset: 48,
        },
        FlatInstruction::Store {
            op: StoreOp::Sd,
            at: cursor,
            offset: 16,
            from: word,
        },
        FlatInstruction::Load {
            op: LoadOp::Ld,
            into: word,
            at: cursor,
            offset: 56,
        },
        FlatInstruction::Store {
            op: StoreOp::Sd,
            at: cursor,
            offset: 24,
            from: word,
        },
        FlatInstruction::Operate {
            op: RegOp::Add,
            into: cursor,
            left: cursor,
            right: RightOperand::Number(32),
        },
        FlatInstruction::JumpBack { back: 10 },
        // one less is counted
        FlatInstruction::Constant {
            into: cursor,
            value: table,
        },
        FlatInstruction::Load {
            op: LoadOp::Ld,
            into: last,
            at: cursor,
            offset: 0,
        },
        FlatInstruction::Operate {
            op: RegOp::Sub,
            into: last,
            left: last,
            right: RightOperand::Number(1),
        },
        FlatInstruction::Store {
            op: StoreOp::Sd,
            at: cursor,
            offset: 0,
            from: last,
        },
    ];
    Vec::from_slice(alloc, &code)
}
