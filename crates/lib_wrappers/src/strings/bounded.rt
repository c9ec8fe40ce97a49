//! `strncpy`.

ghost use Rattle.std.specs.Prelude.{◌+◌, ◌<◌, ◌≤◌, ◌^◌, IfOk, [], ◌∷◌};
ghost use Rattle.addr_map.specs.Places.{AreMapped};
ghost use Rattle.source_meaning.specs.Strings.{strncpy as strncpy_of};
ghost use Rattle.source_meaning.specs.Library.{argument};
ghost use Rattle.flat_code.specs.Routines.Shape.{HasShape};
ghost use Rattle.flat_code.specs.Routines.Registers.{AreBelow, AreDistinct, AreNoneOf};
ghost use Rattle.flat_code.specs.Routines.Metadata.{held_registers};
ghost use Rattle.flat_actions.specs.Actions.{IsAction, Pointer, Word, runtime_basis};
ghost use Rattle.lib_wrappers.specs.StringRoutines.Copying.{IsFilledUp};

use crate::moving::{CopyRegisters, fill, move_bytes};
use crate::strings::scanning::scan_at_most;
use addr_map::AddrMap;
use flat_actions::{guarded, joined, judge};
use flat_code::{FlatInstruction, RightOperand};
use rv_isa::RegOp;
use sb_base::Line;
use shadow_space::ShadowForm;
use std::alloc::{AllocError, Global};

/// `strncpy` to the pointer in `to` from the one in `from`, of as many bytes as `size` holds, at a line, in a function
/// of the runtime: the string is scanned up to so many bytes, the destination judged as one access, and the bytes are
/// moved, with zeros behind them; nothing is judged where there are none. What it gives, the pointer in `to`, is put
/// into the registers of `into`. It may write the registers from `scratch` on. The only refusal is that memory fails.
pub fn strncpy<S: ShadowForm>(
    alloc: Global,
    map: &AddrMap,
    copy: CopyRegisters,
    line: Line,
    scratch: u32,
) -> Result<Vec<FlatInstruction>, AllocError>
    requires map { AreMapped map.now }
    requires to { AreBelow scratch (held_registers copy.to) }
    requires from { AreBelow scratch (held_registers copy.from) }
    requires size { copy.size < scratch }
    requires into { AreBelow scratch (held_registers copy.into) }
    requires distinct { AreDistinct (held_registers copy.into) }
    requires others { AreNoneOf (held_registers copy.to) (held_registers copy.into) }
    requires room { scratch + 16 ≤ 2 ^ 31 }
    ensures does { IfOk result (λ r. IsAction (runtime_basis map.now S.entry (S.IsGood map.now))
        (λ vs. strncpy_of (argument 0 vs) (argument 1 vs) (argument 2 vs) line)
        (Pointer copy.to ∷ Pointer copy.from ∷ Word copy.size ∷ []) (Pointer copy.into) scratch 60 8 r.items) }
    ensures shape { IfOk result (λ r. HasShape r.items 80 (scratch + 9)) }
{
    S::entries_are_local();
    let scanned = scan_at_most::<S>(alloc, map, copy.from, scratch, line, copy.size, scratch + 1)?;
    let judging = judge(alloc, copy.to, copy.size, line, scratch + 1)?;
    let writing = filled_up(
        alloc,
        map,
        copy.to.value,
        copy.from.value,
        copy.size,
        scratch,
    )?;
    let rest = joined(alloc, &judging, &writing)?;
    let act = joined(alloc, &scanned, &rest)?;
    guarded(alloc, copy.size, copy.to, copy.into, &act)
}

// The bytes from the address in `from` up to the cursor in `scratch` are moved, and zeros follow up to so many bytes.
fn filled_up(
    alloc: Global,
    map: &AddrMap,
    to: u32,
    from: u32,
    size: u32,
    scratch: u32,
) -> Result<Vec<FlatInstruction>, AllocError>
    requires map { AreMapped map.now }
    requires below { AreBelow scratch (to ∷ from ∷ size ∷ []) }
    requires room { scratch + 16 ≤ 2 ^ 31 }
    ensures does { IfOk result (λ r. IsFilledUp map.now to from size scratch r.items) }
    ensures shape { IfOk result (λ r. HasShape r.items 40 (scratch + 9)) }
{
    let count = scratch + 1;
    let address = scratch + 2;
    let zero = scratch + 3;
    let counting = [FlatInstruction::Operate {
        op: RegOp::Sub,
        into: count,
        left: scratch,
        right: RightOperand::Register(from),
    }];
    let tailing = [
        FlatInstruction::Operate {
            op: RegOp::Add,
            into: address,
            left: to,
            right: RightOperand::Register(count),
        },
        FlatInstruction::Operate {
            op: RegOp::Sub,
            into: count,
            left: size,
            right: RightOperand::Register(count),
        },
        FlatInstruction::Constant {
            into: zero,
            value: 0,
        },
    ];
    let moving = move_bytes(alloc, map, to, from, count, scratch + 4)?;
    let filling = fill(alloc, map, address, zero, count, scratch + 4)?;
    let end = joined(alloc, &tailing, &filling)?;
    let rest = joined(alloc, &moving, &end)?;
    joined(alloc, &counting, &rest)
}
