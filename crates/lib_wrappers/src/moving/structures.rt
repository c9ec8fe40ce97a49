//! The assignment of structures (C99 6.5.16.1) as a whole action.

ghost use Rattle.std.specs.Prelude.{◌+◌, ◌≤◌, ◌^◌, IfOk};
ghost use Rattle.addr_map.specs.Places.{AreMapped};
ghost use Rattle.flat_code.specs.Routines.Registers.{AreBelow};
ghost use Rattle.flat_code.specs.Routines.Metadata.{held_registers};
ghost use Rattle.lib_wrappers.specs.MovingRoutines.Structures.{CopiesStructure};
ghost use Rattle.flat_actions.specs.Actions.{runtime_basis};

use crate::moving::moving::move_tagged;
use addr_map::AddrMap;
use flat_actions::joined;
use flat_code::{FlatInstruction, Held};
use shadow_space::ShadowForm;
use std::alloc::{AllocError, Global};

/// A structure of `size` bytes moved, with the tags of its words, from the place that the pointer in `from` names to
/// the one that `to` names. It may write the registers from `scratch` on. The only refusal is that memory fails.
pub fn copy_structure<S: ShadowForm>(
    alloc: Global,
    map: &AddrMap,
    to: Held,
    from: Held,
    size: u64,
    scratch: u32,
) -> Result<Vec<FlatInstruction>, AllocError>
    requires map { AreMapped map.now }
    requires to { AreBelow scratch (held_registers to) }
    requires from { AreBelow scratch (held_registers from) }
    requires room { scratch + 16 ≤ 2 ^ 31 }
    ensures does { IfOk result (λ r. CopiesStructure (runtime_basis map.now S.entry (S.IsGood map.now)) size to from
        scratch r.items) }
{
    let first = [FlatInstruction::Constant {
        into: scratch,
        value: size,
    }];
    let act = move_tagged::<S>(alloc, map, to.value, from.value, scratch, scratch + 1)?;
    let code = joined(alloc, &first, act.as_slice())?;
    Ok(code)
}
