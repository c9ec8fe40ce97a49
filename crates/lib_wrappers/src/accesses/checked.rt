//! Accesses with both tests before them.

ghost use Rattle.std.specs.Prelude.{◌≡◌, ◌≤◌, ◌^◌, IfOk, ◌++◌};
ghost use Rattle.addr_map.specs.Places.{AreMapped};
ghost use Rattle.flat_code.specs.declared.instruction.RightOperand.TheVariants.{Number};
ghost use Rattle.flat_code.specs.Routines.Registers.{AreBelow};
ghost use Rattle.flat_code.specs.Routines.Metadata.{held_registers};
ghost use Rattle.flat_actions.specs.Actions.{registers_of, program_basis};
ghost use Rattle.flat_actions.specs.Judgement.Code.{spatial_code, temporal_code};
ghost use Rattle.lib_wrappers.specs.AccessRoutines.Holding.{holder_in, IsApartFrom};
ghost use Rattle.lib_wrappers.specs.AccessRoutines.Accessing.{IsCheckedLoad, IsCheckedStore};

use crate::accesses::held::HeldScalar;
use crate::accesses::loading::load;
use crate::accesses::storing::store;
use addr_map::AddrMap;
use flat_actions::{spatial_instructions, temporal_instructions};
use flat_code::{FlatInstruction, Held, RightOperand};
use sb_base::Line;
use shadow_space::ShadowForm;
use std::alloc::{AllocError, Global};

/// Loads a scalar through the pointer in `pointer` into the registers of `into`, after both tests: the run ends with a
/// spatial or a temporal violation at `line` just where the judgement of the access is one. It may write the registers
/// from `scratch` on. The only refusal is that memory fails.
pub fn checked_load<S: ShadowForm>(
    alloc: Global,
    map: &AddrMap,
    pointer: Held,
    into: HeldScalar,
    line: Line,
    scratch: u32,
) -> Result<Vec<FlatInstruction>, AllocError>
    requires map { AreMapped map.now }
    requires pointer { AreBelow scratch (held_registers pointer) }
    requires into { AreBelow scratch (registers_of (holder_in into)) }
    requires apart { IsApartFrom pointer.value into }
    requires room { scratch ≤ 2 ^ 31 }
    ensures { IfOk result (λ r. IsCheckedLoad (program_basis map.now S.entry (S.IsGood map.now)) pointer into line
        scratch r.items) }
{
    let access = load::<S>(alloc, map, pointer.value, into, scratch)?;
    let code = behind_tests(alloc, pointer, into.size(), line, scratch, &access)?;
    Ok(code)
}

/// Stores the scalar in the registers of `from` through the pointer in `pointer`, after both tests: the run ends with a
/// spatial or a temporal violation at `line` just where the judgement of the access is one. It may write the registers
/// from `scratch` on. The only refusal is that memory fails.
pub fn checked_store<S: ShadowForm>(
    alloc: Global,
    map: &AddrMap,
    pointer: Held,
    from: HeldScalar,
    line: Line,
    scratch: u32,
) -> Result<Vec<FlatInstruction>, AllocError>
    requires map { AreMapped map.now }
    requires pointer { AreBelow scratch (held_registers pointer) }
    requires from { AreBelow scratch (registers_of (holder_in from)) }
    requires room { scratch ≤ 2 ^ 31 }
    ensures { IfOk result (λ r. IsCheckedStore (program_basis map.now S.entry (S.IsGood map.now)) pointer from line
        scratch r.items) }
{
    let access = store::<S>(alloc, map, pointer.value, from, scratch)?;
    let code = behind_tests(alloc, pointer, from.size(), line, scratch, &access)?;
    Ok(code)
}

// Both tests, and behind them an access.
fn behind_tests(
    alloc: Global,
    pointer: Held,
    size: u64,
    line: Line,
    scratch: u32,
    access: &[FlatInstruction],
) -> Result<Vec<FlatInstruction>, AllocError>
    ensures { IfOk result (λ r. r.items
        ≡ (spatial_code pointer (Number size) line scratch ++ temporal_code pointer line scratch) ++ access.now) }
{
    let mut code = spatial_instructions(alloc, pointer, RightOperand::Number(size), line, scratch)?;
    let temporal = temporal_instructions(alloc, pointer, line, scratch)?;
    code.extend_from_slice(&temporal)?;
    code.extend_from_slice(access)?;
    Ok(code)
}
