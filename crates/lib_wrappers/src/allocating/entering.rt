//! Blocks that are entered and left: all objects of a block are born under one lock word with one key, and die
//! together.

ghost use Rattle.std.specs.Prelude.{◌≡◌, ◌+◌, ◌≤◌, ◌<◌, ◌^◌, ◌++◌, IfOk, [], ◌∷◌};
ghost use Rattle.addr_map.specs.Places.{AreMapped};
ghost use Rattle.flat_code.specs.Routines.Shape.{HasShape};
ghost use Rattle.flat_code.specs.Routines.InputOutput.{IsWithoutInputOutput};
ghost use Rattle.flat_code.specs.Routines.Registers.{AreBelow, AreDistinct, AreNoneOf};
ghost use Rattle.lib_wrappers.specs.AllocatingRoutines.Allocating.{key_test};
ghost use Rattle.lib_wrappers.specs.AllocatingRoutines.Entering.{registers_in, IsEnterRoutine, IsLeaveRoutine};
ghost use Rattle.lib_wrappers.specs.AllocatingRoutines.Entering.{round_code};
ghost use Rattle.lib_wrappers.specs.AllocatingRoutines.Entering.{room_code};
ghost use Rattle.lib_wrappers.specs.AllocatingRoutines.Entering.{room_test, end_of_block, enter_code, leave_code};

use crate::allocating::allocating::{key_test, keys_list};
use crate::allocating::zeroing::zero;
use addr_map::{AddrMap, Region};
use flat_actions::joined;
use flat_code::{FlatInstruction, RightOperand};
use rv_isa::{BranchOp, RegOp};
use sb_base::{Ending, Line};
use shadow_space::ShadowForm;
use std::alloc::{AllocError, Global};

/// The registers that get what a block is entered with.
#[derive(Clone, Copy)]
pub struct EntryRegisters {
    /// Where the first object of the block stands.
    pub first: u32,
    /// The new end of the object stack.
    pub end: u32,
    /// The key of all objects of the block.
    pub key: u32,
    /// Their lock word.
    pub lock: u32,
}

// What a block is entered with: the registers with the end of the object stack and the bytes of the objects, those that
// get what it is entered with, and the line.
#[derive(Clone, Copy)]
struct Entrance {
    top: u32,
    bytes: u32,
    to: EntryRegisters,
    line: Line,
}

/// Enters a block that has objects. `top` holds where the object stack ends, and `bytes` how many bytes the objects of
/// the block take, each at a multiple of 16. The run ends at `line` where the objects are not within the object stack,
/// and then where no key is left; else they are born, with zero bytes, one key and one lock word. It may write the
/// registers from `scratch` on, takes no input and puts no output. The only refusal is that memory fails.
pub fn enter<S: ShadowForm>(
    alloc: Global,
    map: &AddrMap,
    top: u32,
    bytes: u32,
    to: EntryRegisters,
    line: Line,
    scratch: u32,
) -> Result<Vec<FlatInstruction>, AllocError>
    requires map { AreMapped map.now }
    requires below { AreBelow scratch (top ∷ bytes ∷ []) }
    requires results { AreBelow scratch (registers_in to) }
    requires apart { AreNoneOf (top ∷ bytes ∷ []) (registers_in to) }
    requires distinct { AreDistinct (registers_in to) }
    requires room { scratch + 16 ≤ 2 ^ 31 }
    ensures does { IfOk result (λ r. IsEnterRoutine map.now S.entry (S.IsGood map.now) top bytes to line scratch r.items) }
    ensures computes { IfOk result (λ r. IsWithoutInputOutput r.items) }
    ensures shape { IfOk result (λ r. HasShape r.items 96 (scratch + 11)) }
{
    S::entries_are_local();
    let own = scratch + 4;
    let fresh = lock_space::fresh(alloc, map, to.key, to.lock, own)?;
    let zeros = zero::<S>(alloc, map, to.first, bytes, own)?;
    let r = enter_list(
        alloc,
        map,
        fresh.as_slice(),
        zeros.as_slice(),
        &Entrance {
            top,
            bytes,
            to,
            line,
        },
        scratch,
    )?;
    Ok(r)
}

/// Leaves a block whose lock word is in `lock`, in a function of the program or of the runtime: all its objects die. It
/// may write the registers from `scratch` on, takes no input and puts no output. The only refusal is that memory fails.
pub fn leave<S: ShadowForm>(
    alloc: Global,
    map: &AddrMap,
    lock: u32,
    scratch: u32,
) -> Result<Vec<FlatInstruction>, AllocError>
    requires map { AreMapped map.now }
    requires below { AreBelow scratch (lock ∷ []) }
    requires room { scratch ≤ 2 ^ 31 }
    ensures code { IfOk result (λ r. r.items ≡ leave_code map.now lock scratch) }
    ensures does { IfOk result (λ r. IsLeaveRoutine map.now S.entry (S.IsGood map.now) lock scratch r.items) }
    ensures computes { IfOk result (λ r. IsWithoutInputOutput r.items) }
    ensures shape { IfOk result (λ r. HasShape r.items 11 (scratch + 3)) }
{
    S::entries_are_local();
    lock_space::release(alloc, map, lock, scratch)
}

fn enter_list(
    alloc: Global,
    map: &AddrMap,
    fresh: &[FlatInstruction],
    zeros: &[FlatInstruction],
    entrance: &Entrance,
    scratch: u32,
) -> Result<Vec<FlatInstruction>, AllocError>
    requires { scratch + 16 ≤ 2 ^ 31 }
    ensures { IfOk result
        (λ r. r.items ≡ enter_code map.now fresh.now zeros.now entrance.now.top entrance.now.bytes entrance.now.to
        entrance.now.line scratch (scratch + 1)) }
{
    let to = entrance.to;
    let begin = room_list(alloc, map, entrance.top, to.first, scratch)?;
    let room = room_test(alloc, entrance.bytes, scratch, entrance.line)?;
    let keys = keys_list(alloc, map, scratch, scratch + 1)?;
    let test = key_test(alloc, scratch, entrance.line)?;
    let end = end_list(alloc, to.first, entrance.bytes, to.end)?;
    let last = joined(alloc, zeros, end.as_slice())?;
    let taken = joined(alloc, fresh, last.as_slice())?;
    let tested = joined(alloc, test.as_slice(), taken.as_slice())?;
    let counted = joined(alloc, keys.as_slice(), tested.as_slice())?;
    let rest = joined(alloc, room.as_slice(), counted.as_slice())?;
    joined(alloc, begin.as_slice(), rest.as_slice())
}

// Where the first object stands, and the room from there to the end of the object stack.
fn room_list(
    alloc: Global,
    map: &AddrMap,
    top: u32,
    first: u32,
    room: u32,
) -> Result<Vec<FlatInstruction>, AllocError>
    ensures { IfOk result (λ r. r.items ≡ round_code top first ++ room_code map.now first room) }
{
    // the object stack ends where the heap begins
    let (end, _) = map.region(Region::Heap);
    let code = [
        FlatInstruction::Operate {
            op: RegOp::Add,
            into: first,
            left: top,
            right: RightOperand::Number(15),
        },
        FlatInstruction::Operate {
            op: RegOp::Srl,
            into: first,
            left: first,
            right: RightOperand::Number(4),
        },
        FlatInstruction::Operate {
            op: RegOp::Sll,
            into: first,
            left: first,
            right: RightOperand::Number(4),
        },
        FlatInstruction::Constant {
            into: room,
            value: end,
        },
        FlatInstruction::Operate {
            op: RegOp::Sub,
            into: room,
            left: room,
            right: RightOperand::Register(first),
        },
    ];
    Vec::from_slice(alloc, &code)
}

fn room_test(
    alloc: Global,
    bytes: u32,
    room: u32,
    line: Line,
) -> Result<Vec<FlatInstruction>, AllocError>
    ensures { IfOk result (λ r. r.items ≡ room_test bytes room line) }
{
    let code = [
        FlatInstruction::Branch {
            op: BranchOp::Bgeu,
            left: room,
            right: RightOperand::Register(bytes),
            past: 1,
        },
        FlatInstruction::End(Ending::Stack(line)),
    ];
    Vec::from_slice(alloc, &code)
}

fn end_list(
    alloc: Global,
    first: u32,
    bytes: u32,
    end: u32,
) -> Result<Vec<FlatInstruction>, AllocError>
    ensures { IfOk result (λ r. r.items ≡ end_of_block first bytes end) }
{
    let code = [FlatInstruction::Operate {
        op: RegOp::Add,
        into: end,
        left: first,
        right: RightOperand::Register(bytes),
    }];
    Vec::from_slice(alloc, &code)
}
