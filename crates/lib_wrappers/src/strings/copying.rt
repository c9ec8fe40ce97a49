//! `strcpy` and `strcat`.

ghost use Rattle.std.specs.Prelude.{◌+◌, ◌≤◌, ◌^◌, IfOk, [], ◌∷◌};
ghost use Rattle.addr_map.specs.Places.{AreMapped};
ghost use Rattle.source_meaning.specs.Strings.{strcpy as strcpy_of, strcat as strcat_of};
ghost use Rattle.source_meaning.specs.Library.{argument};
ghost use Rattle.flat_code.specs.Routines.Shape.{HasShape};
ghost use Rattle.flat_code.specs.Routines.Registers.{AreBelow, AreDistinct, AreNoneOf};
ghost use Rattle.flat_code.specs.Routines.Metadata.{held_registers};
ghost use Rattle.flat_actions.specs.Actions.{IsAction, Pointer, runtime_basis};
ghost use Rattle.lib_wrappers.specs.StringRoutines.Copying.{IsCopied};

use crate::moving::move_bytes;
use crate::strings::scanning::scan;
use addr_map::AddrMap;
use flat_actions::{give_instructions, joined, judge};
use flat_code::{FlatInstruction, Held, RightOperand};
use rv_isa::RegOp;
use sb_base::Line;
use shadow_space::ShadowForm;
use std::alloc::{AllocError, Global};

/// `strcpy` to the pointer in `to` from the one in `from`, at a line, in a function of the runtime: the string is
/// scanned, the destination judged as one access, and the bytes are moved, also where they overlap. What it gives, the
/// pointer in `to`, is put into the registers of `into`. It may write the registers from `scratch` on. The only
/// refusal is that memory fails.
pub fn strcpy<S: ShadowForm>(
    alloc: Global,
    map: &AddrMap,
    to: Held,
    from: Held,
    into: Held,
    line: Line,
    scratch: u32,
) -> Result<Vec<FlatInstruction>, AllocError>
    requires map { AreMapped map.now }
    requires to { AreBelow scratch (held_registers to) }
    requires from { AreBelow scratch (held_registers from) }
    requires into { AreBelow scratch (held_registers into) }
    requires distinct { AreDistinct (held_registers into) }
    requires others { AreNoneOf (held_registers to) (held_registers into) }
    requires room { scratch + 16 ≤ 2 ^ 31 }
    ensures does { IfOk result (λ r. IsAction (runtime_basis map.now S.entry (S.IsGood map.now))
        (λ vs. strcpy_of (argument 0 vs) (argument 1 vs) line) (Pointer to ∷ Pointer from ∷ []) (Pointer into) scratch
        49 8 r.items) }
    ensures shape { IfOk result (λ r. HasShape r.items 72 (scratch + 7)) }
{
    S::entries_are_local();
    let copy = copied::<S>(alloc, map, to, from, line, scratch)?;
    let give = give_instructions(alloc, to, into)?;
    joined(alloc, &copy, &give)
}

/// `strcat` to the pointer in `to` from the one in `from`: the destination's string is scanned too, and what is
/// written begins at its 0 byte. In all else it is as `strcpy`.
pub fn strcat<S: ShadowForm>(
    alloc: Global,
    map: &AddrMap,
    to: Held,
    from: Held,
    into: Held,
    line: Line,
    scratch: u32,
) -> Result<Vec<FlatInstruction>, AllocError>
    requires map { AreMapped map.now }
    requires to { AreBelow scratch (held_registers to) }
    requires from { AreBelow scratch (held_registers from) }
    requires into { AreBelow scratch (held_registers into) }
    requires distinct { AreDistinct (held_registers into) }
    requires others { AreNoneOf (held_registers to) (held_registers into) }
    requires room { scratch + 16 ≤ 2 ^ 31 }
    ensures does { IfOk result (λ r. IsAction (runtime_basis map.now S.entry (S.IsGood map.now))
        (λ vs. strcat_of (argument 0 vs) (argument 1 vs) line) (Pointer to ∷ Pointer from ∷ []) (Pointer into) scratch
        65 8 r.items) }
    ensures shape { IfOk result (λ r. HasShape r.items 96 (scratch + 8)) }
{
    S::entries_are_local();
    let first = scan::<S>(alloc, map, to, scratch, line, scratch + 1)?;
    let end = Held {
        value: scratch,
        tag: to.tag,
    };
    let copy = copied::<S>(alloc, map, end, from, line, scratch + 1)?;
    let give = give_instructions(alloc, to, into)?;
    let both = joined(alloc, &first, &copy)?;
    joined(alloc, &both, &give)
}

// The string at the pointer in `from` is scanned, and written with its 0 byte at the pointer in `to`.
fn copied<S: ShadowForm>(
    alloc: Global,
    map: &AddrMap,
    to: Held,
    from: Held,
    line: Line,
    scratch: u32,
) -> Result<Vec<FlatInstruction>, AllocError>
    requires map { AreMapped map.now }
    requires to { AreBelow scratch (held_registers to) }
    requires from { AreBelow scratch (held_registers from) }
    requires room { scratch + 12 ≤ 2 ^ 31 }
    ensures does { IfOk result (λ r. IsCopied (runtime_basis map.now S.entry (S.IsGood map.now)) to from line scratch
        r.items) }
    ensures shape { IfOk result (λ r. HasShape r.items 64 (scratch + 7)) }
{
    let scanned = scan::<S>(alloc, map, from, scratch, line, scratch + 1)?;
    let size = scratch + 1;
    let sizes = [
        FlatInstruction::Operate {
            op: RegOp::Sub,
            into: size,
            left: scratch,
            right: RightOperand::Register(from.value),
        },
        // the 0 byte is copied too
        FlatInstruction::Operate {
            op: RegOp::Add,
            into: size,
            left: size,
            right: RightOperand::Number(1),
        },
    ];
    let judging = judge(alloc, to, size, line, size + 1)?;
    let moving = move_bytes(alloc, map, to.value, from.value, size, size + 1)?;
    let act = joined(alloc, &judging, &moving)?;
    let rest = joined(alloc, &sizes, &act)?;
    joined(alloc, &scanned, &rest)
}
