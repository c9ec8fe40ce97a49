//! Ranges that are moved.

ghost use Rattle.std.specs.Prelude.{◌≡◌, ◌+◌, ◌≤◌, ◌<◌, ◌^◌, ◌++◌, IfOk, [], ◌∷◌, length};
ghost use Rattle.addr_map.specs.Places.{AreMapped};
ghost use Rattle.flat_code.specs.Routines.InputOutput.{IsWithoutInputOutput};
ghost use Rattle.flat_code.specs.Routines.Shape.{HasShape};
ghost use Rattle.flat_code.specs.Routines.Registers.{AreBelow};
ghost use Rattle.flat_actions.specs.Ranges.{IsByteMoveRoutine, IsTaggedMoveRoutine};
ghost use Rattle.lib_wrappers.specs.MovingRoutines.Copying.{choose_order, copy_loop};
ghost use Rattle.lib_wrappers.specs.MovingRoutines.Moving.{move_bytes_code, IsUsableMoveRoutine};
ghost use Rattle.lib_wrappers.specs.MovingRoutines.Tagged.{CopiesEntry, count_words, move_words};

use addr_map::AddrMap;
use flat_actions::{joined, until};
use flat_code::{Entry, FlatInstruction, RightOperand};
use rv_isa::{BranchOp, LoadOp, RegOp, StoreOp};
use shadow_space::ShadowForm;
use std::alloc::{AllocError, Global};

/// Moves as many bytes of object space as `bytes` holds from the address in `from` on to those from the address in `to`
/// on, as by `memmove`, also where the ranges overlap. It may write the registers from `scratch` on, shows nothing
/// else, takes no input and puts no output. The only refusal is that memory fails.
pub fn move_bytes(
    alloc: Global,
    map: &AddrMap,
    to: u32,
    from: u32,
    bytes: u32,
    scratch: u32,
) -> Result<Vec<FlatInstruction>, AllocError>
    requires map { AreMapped map.now }
    requires below { AreBelow scratch (to ∷ from ∷ bytes ∷ []) }
    requires room { scratch + 8 ≤ 2 ^ 31 }
    ensures does { IfOk result (λ r. IsByteMoveRoutine map.now to from bytes scratch r.items) }
    ensures computes { IfOk result (λ r. IsWithoutInputOutput r.items) }
    ensures shape { IfOk result (λ r. HasShape r.items 24 (scratch + 5)) }
{
    move_bytes_instructions(alloc, to, from, bytes, scratch)
}

/// Moves as many bytes as `bytes` holds from the address in `from` on to those from the address in `to` on, as by
/// `memmove`, also where the ranges overlap: of object space or of the runtime's spaces. It may write the registers
/// from `scratch` on, shows nothing else, takes no input and puts no output. The only refusal is that memory fails.
pub fn move_usable(
    alloc: Global,
    map: &AddrMap,
    to: u32,
    from: u32,
    bytes: u32,
    scratch: u32,
) -> Result<Vec<FlatInstruction>, AllocError>
    requires map { AreMapped map.now }
    requires below { AreBelow scratch (to ∷ from ∷ bytes ∷ []) }
    requires room { scratch + 8 ≤ 2 ^ 31 }
    ensures does { IfOk result (λ r. IsUsableMoveRoutine map.now to from bytes scratch r.items) }
    ensures computes { IfOk result (λ r. IsWithoutInputOutput r.items) }
    ensures shape { IfOk result (λ r. HasShape r.items 24 (scratch + 5)) }
{
    move_bytes_instructions(alloc, to, from, bytes, scratch)
}

fn move_bytes_instructions(
    alloc: Global,
    to: u32,
    from: u32,
    bytes: u32,
    scratch: u32,
) -> Result<Vec<FlatInstruction>, AllocError>
    requires { scratch + 8 ≤ 2 ^ 31 }
    ensures { IfOk result (λ r. r.items ≡ move_bytes_code to from bytes scratch) }
{
    let places = [
        FlatInstruction::Move {
            into: scratch,
            from: bytes,
        },
        FlatInstruction::Move {
            into: scratch + 1,
            from: to,
        },
        FlatInstruction::Move {
            into: scratch + 2,
            from: from,
        },
    ];
    let body = [
        FlatInstruction::Load {
            op: LoadOp::Lbu,
            into: scratch + 4,
            at: scratch + 2,
            offset: 0,
        },
        FlatInstruction::Store {
            op: StoreOp::Sb,
            at: scratch + 1,
            offset: 0,
            from: scratch + 4,
        },
    ];
    let cells = cell_instructions(alloc, 1, 0, scratch, &body)?;
    joined(alloc, &places, cells.as_slice())
}

/// Cells of so many bytes, two to the power of `shift`, moved by `body` from the first or from the last one on. The
/// only refusal is that memory fails.
pub fn cell_instructions(
    alloc: Global,
    unit: u64,
    shift: u64,
    scratch: u32,
    body: &[FlatInstruction],
) -> Result<Vec<FlatInstruction>, AllocError>
    requires room { scratch + 8 ≤ 2 ^ 31 }
    requires unit { 1 ≤ unit }
    requires short { length body.now ≤ 128 }
    ensures { IfOk result (λ r. r.items ≡ choose_order unit shift scratch ++ copy_loop scratch body.now) }
{
    let start = order_instructions(alloc, unit, shift, scratch)?;
    let turns = loop_instructions(alloc, scratch, body)?;
    joined(alloc, start.as_slice(), turns.as_slice())
}

#[tactic(auto, using(crate::proofs::MovingRoutines::Steps::below_unit))]
fn order_instructions(
    alloc: Global,
    unit: u64,
    shift: u64,
    scratch: u32,
) -> Result<Vec<FlatInstruction>, AllocError>
    requires room { scratch + 8 ≤ 2 ^ 31 }
    requires unit { 1 ≤ unit }
    ensures { IfOk result (λ r. r.items ≡ choose_order unit shift scratch) }
{
    let span = scratch + 4;
    let down = u64::MAX - unit + 1;
    let code = [
        FlatInstruction::Constant {
            into: scratch + 3,
            value: unit,
        },
        FlatInstruction::Branch {
            op: BranchOp::Bgeu,
            left: scratch + 2,
            right: RightOperand::Register(scratch + 1),
            past: 5,
        },
        FlatInstruction::Operate {
            op: RegOp::Sll,
            into: span,
            left: scratch,
            right: RightOperand::Number(shift),
        },
        FlatInstruction::Operate {
            op: RegOp::Sub,
            into: span,
            left: span,
            right: RightOperand::Number(unit),
        },
        FlatInstruction::Operate {
            op: RegOp::Add,
            into: scratch + 1,
            left: scratch + 1,
            right: RightOperand::Register(span),
        },
        FlatInstruction::Operate {
            op: RegOp::Add,
            into: scratch + 2,
            left: scratch + 2,
            right: RightOperand::Register(span),
        },
        FlatInstruction::Constant {
            into: scratch + 3,
            value: down,
        },
    ];
    Vec::from_slice(alloc, &code)
}

fn loop_instructions(
    alloc: Global,
    scratch: u32,
    body: &[FlatInstruction],
) -> Result<Vec<FlatInstruction>, AllocError>
    requires room { scratch + 8 ≤ 2 ^ 31 }
    requires short { length body.now ≤ 128 }
    ensures { IfOk result (λ r. r.items ≡ copy_loop scratch body.now) }
{
    let bump = [
        FlatInstruction::Operate {
            op: RegOp::Add,
            into: scratch + 1,
            left: scratch + 1,
            right: RightOperand::Register(scratch + 3),
        },
        FlatInstruction::Operate {
            op: RegOp::Add,
            into: scratch + 2,
            left: scratch + 2,
            right: RightOperand::Register(scratch + 3),
        },
        FlatInstruction::Operate {
            op: RegOp::Sub,
            into: scratch,
            left: scratch,
            right: RightOperand::Number(1),
        },
    ];
    let turn = joined(alloc, body, &bump)?;
    until(
        alloc,
        BranchOp::Beq,
        scratch,
        RightOperand::Number(0),
        turn.as_slice(),
    )
}

/// Moves as many bytes of object space as `bytes` holds from the address in `from` on to those from the address in `to`
/// on, as by `memmove`, with the entries of the whole words of the range where both places are equal modulo 8. It may
/// write the registers from `scratch` on, shows nothing else, takes no input and puts no output. The only refusal is
/// that memory fails.
pub fn move_tagged<S: ShadowForm>(
    alloc: Global,
    map: &AddrMap,
    to: u32,
    from: u32,
    bytes: u32,
    scratch: u32,
) -> Result<Vec<FlatInstruction>, AllocError>
    requires map { AreMapped map.now }
    requires below { AreBelow scratch (to ∷ from ∷ bytes ∷ []) }
    requires room { scratch + 8 ≤ 2 ^ 31 }
    ensures does { IfOk result (λ r. IsTaggedMoveRoutine map.now S.entry (S.IsGood map.now) to from bytes scratch
        r.items) }
    ensures computes { IfOk result (λ r. IsWithoutInputOutput r.items) }
    ensures shape { IfOk result (λ r. HasShape r.items 128 (scratch + 14)) }
{
    S::entries_are_local();
    let body = entry_body::<S>(alloc, map, scratch)?;
    let first = move_bytes(alloc, map, to, from, bytes, scratch)?;
    let second = word_instructions(alloc, to, from, bytes, scratch, body.as_slice())?;
    let code = joined(alloc, first.as_slice(), second.as_slice())?;
    Ok(code)
}

// The routines of a form that copy an entry: one reads it, and one writes it.
fn entry_body<S: ShadowForm>(
    alloc: Global,
    map: &AddrMap,
    scratch: u32,
) -> Result<Vec<FlatInstruction>, AllocError>
    requires map { AreMapped map.now }
    requires room { scratch + 8 ≤ 2 ^ 31 }
    ensures does { IfOk result (λ r. CopiesEntry map.now S.entry (S.IsGood map.now) scratch r.items) }
    ensures short { IfOk result (λ r. length r.items ≤ 128) }
    ensures computes { IfOk result (λ r. IsWithoutInputOutput r.items) }
    ensures shape { IfOk result (λ r. HasShape r.items 64 (scratch + 14)) }
{
    let entry = Entry {
        base: scratch + 4,
        bound: scratch + 5,
        key: scratch + 6,
        lock: scratch + 7,
    };
    let read = S::read_entry(alloc, map, scratch + 2, entry, scratch + 8)?;
    let write = S::write_entry(alloc, map, scratch + 1, entry, scratch + 8)?;
    let code = joined(alloc, read.as_slice(), write.as_slice())?;
    Ok(code)
}

fn word_instructions(
    alloc: Global,
    to: u32,
    from: u32,
    bytes: u32,
    scratch: u32,
    body: &[FlatInstruction],
) -> Result<Vec<FlatInstruction>, AllocError>
    requires room { scratch + 8 ≤ 2 ^ 31 }
    requires short { length body.now ≤ 128 }
    ensures { IfOk result (λ r. r.items ≡ move_words to from bytes scratch body.now) }
{
    let count = count_instructions(alloc, to, from, bytes, scratch)?;
    let cells = cell_instructions(alloc, 8, 3, scratch, body)?;
    joined(alloc, count.as_slice(), cells.as_slice())
}

/// How many whole words a range has that is moved, none where the two places are not equal modulo 8, and the first of
/// them there and in the range to move from: in the registers from `scratch` on. The only refusal is that memory fails.
pub fn count_instructions(
    alloc: Global,
    to: u32,
    from: u32,
    bytes: u32,
    scratch: u32,
) -> Result<Vec<FlatInstruction>, AllocError>
    requires room { scratch + 8 ≤ 2 ^ 31 }
    ensures { IfOk result (λ r. r.items
        ≡ count_words to from bytes scratch (scratch + 1) (scratch + 2) (scratch + 3)) }
{
    let count = scratch;
    let first = scratch + 1;
    let source = scratch + 2;
    let work = scratch + 3;
    let code = [
        // whether both places are equal modulo 8
        FlatInstruction::Operate {
            op: RegOp::Sub,
            into: work,
            left: to,
            right: RightOperand::Register(from),
        },
        FlatInstruction::Operate {
            op: RegOp::Sll,
            into: work,
            left: work,
            right: RightOperand::Number(61),
        },
        FlatInstruction::Constant {
            into: count,
            value: 0,
        },
        FlatInstruction::Branch {
            op: BranchOp::Bne,
            left: work,
            right: RightOperand::Number(0),
            past: 9,
        },
        // the first whole word, and the first that ends behind the range, by number
        FlatInstruction::Operate {
            op: RegOp::Add,
            into: first,
            left: to,
            right: RightOperand::Number(7),
        },
        FlatInstruction::Operate {
            op: RegOp::Srl,
            into: first,
            left: first,
            right: RightOperand::Number(3),
        },
        FlatInstruction::Operate {
            op: RegOp::Add,
            into: work,
            left: to,
            right: RightOperand::Register(bytes),
        },
        FlatInstruction::Operate {
            op: RegOp::Srl,
            into: work,
            left: work,
            right: RightOperand::Number(3),
        },
        FlatInstruction::Branch {
            op: BranchOp::Bgeu,
            left: first,
            right: RightOperand::Register(work),
            past: 4,
        },
        FlatInstruction::Operate {
            op: RegOp::Sub,
            into: count,
            left: work,
            right: RightOperand::Register(first),
        },
        FlatInstruction::Operate {
            op: RegOp::Sll,
            into: first,
            left: first,
            right: RightOperand::Number(3),
        },
        FlatInstruction::Operate {
            op: RegOp::Sub,
            into: source,
            left: from,
            right: RightOperand::Register(to),
        },
        FlatInstruction::Operate {
            op: RegOp::Add,
            into: source,
            left: source,
            right: RightOperand::Register(first),
        },
    ];
    Vec::from_slice(alloc, &code)
}
