//! `memcpy`, `memmove` and `memset` (C99 7.21.2, 7.21.6) as whole actions.

ghost use Rattle.std.specs.Prelude.{◌+◌, ◌≤◌, ◌<◌, ◌^◌, IfOk};
ghost use Rattle.addr_map.specs.Places.{AreMapped};
ghost use Rattle.flat_code.specs.Routines.Shape.{HasShape};
ghost use Rattle.flat_code.specs.Routines.Registers.{AreBelow, AreNoneOf, AreDistinct};
ghost use Rattle.flat_code.specs.Routines.Metadata.{held_registers};
ghost use Rattle.lib_wrappers.specs.MovingRoutines.Library.{MovesObjects, CopiesObjects, SetsObjects};
ghost use Rattle.flat_actions.specs.Actions.{runtime_basis};

use crate::moving::filling::fill;
use crate::moving::moving::move_tagged;
use addr_map::AddrMap;
use flat_actions::{guarded, joined, judge};
use flat_code::{FlatInstruction, Held, RightOperand};
use sb_base::Line;
use shadow_space::ShadowForm;
use std::alloc::{AllocError, Global};

/// The registers of a copy of bytes.
#[derive(Clone, Copy)]
pub struct CopyRegisters {
    /// The pointer to the destination.
    pub to: Held,
    /// The pointer to the source.
    pub from: Held,
    /// How many bytes.
    pub size: u32,
    /// What get the pointer that the call gives.
    pub into: Held,
}

/// The registers of a range that is filled.
#[derive(Clone, Copy)]
pub struct FillRegisters {
    /// The pointer to the range.
    pub to: Held,
    /// The byte, in the low eight bits.
    pub byte: u32,
    /// How many bytes.
    pub size: u32,
    /// What get the pointer that the call gives.
    pub into: Held,
}

/// `memmove` and `memcpy`, of as many bytes as `size` holds: the destination is judged, then the source, and the bytes
/// are moved with their tags; nothing is judged where there are none. What it gives, the pointer in `to`, is put into
/// the registers of `into`. It may write the registers from `scratch` on. The only refusal is that memory fails.
pub fn memmove<S: ShadowForm>(
    alloc: Global,
    map: &AddrMap,
    copy: CopyRegisters,
    line: Line,
    scratch: u32,
) -> Result<Vec<FlatInstruction>, AllocError>
    requires map { AreMapped map.now }
    requires to { AreBelow scratch (held_registers copy.to) }
    requires from { AreBelow scratch (held_registers copy.from) }
    requires size { copy.size < scratch }
    requires into { AreBelow scratch (held_registers copy.into) }
    requires distinct { AreDistinct (held_registers copy.into) }
    requires others { AreNoneOf (held_registers copy.to) (held_registers copy.into) }
    requires room { scratch + 8 ≤ 2 ^ 31 }
    ensures memmove { IfOk result (λ r. MovesObjects (runtime_basis map.now S.entry (S.IsGood map.now)) copy.to
        copy.from copy.size copy.into line scratch r.items) }
    ensures memcpy { IfOk result (λ r. CopiesObjects (runtime_basis map.now S.entry (S.IsGood map.now)) copy.to
        copy.from copy.size copy.into line scratch r.items) }
    ensures shape { IfOk result (λ r. HasShape r.items 160 (scratch + 14)) }
{
    let first = judge(alloc, copy.to, copy.size, line, scratch)?;
    let second = judge(alloc, copy.from, copy.size, line, scratch)?;
    let act = move_tagged::<S>(
        alloc,
        map,
        copy.to.value,
        copy.from.value,
        copy.size,
        scratch,
    )?;
    let rest = joined(alloc, second.as_slice(), act.as_slice())?;
    let whole = joined(alloc, first.as_slice(), rest.as_slice())?;
    let code = guarded(alloc, copy.size, copy.to, copy.into, whole.as_slice())?;
    Ok(code)
}

/// `memset`, of as many bytes as `size` holds, with the low byte of `byte`: the range is judged and then filled;
/// nothing is judged where there are no bytes. What it gives, the pointer in `to`, is put into the registers of `into`.
/// It may write the registers from `scratch` on. The only refusal is that memory fails.
pub fn memset<S: ShadowForm>(
    alloc: Global,
    map: &AddrMap,
    range: FillRegisters,
    line: Line,
    scratch: u32,
) -> Result<Vec<FlatInstruction>, AllocError>
    requires map { AreMapped map.now }
    requires to { AreBelow scratch (held_registers range.to) }
    requires byte { range.byte < scratch }
    requires size { range.size < scratch }
    requires into { AreBelow scratch (held_registers range.into) }
    requires distinct { AreDistinct (held_registers range.into) }
    requires others { AreNoneOf (held_registers range.to) (held_registers range.into) }
    requires room { scratch + 8 ≤ 2 ^ 31 }
    ensures does { IfOk result (λ r. SetsObjects (runtime_basis map.now S.entry (S.IsGood map.now)) range.to range.byte
        range.size range.into line scratch r.items) }
    ensures shape { IfOk result (λ r. HasShape r.items 32 (scratch + 2)) }
{
    S::entries_are_local();
    let first = judge(alloc, range.to, range.size, line, scratch)?;
    let act = fill(alloc, map, range.to.value, range.byte, range.size, scratch)?;
    let whole = joined(alloc, first.as_slice(), act.as_slice())?;
    let code = guarded(alloc, range.size, range.to, range.into, whole.as_slice())?;
    Ok(code)
}
