//! `strlen`.

ghost use Rattle.std.specs.Prelude.{◌+◌, ◌≤◌, ◌^◌, IfOk, [], ◌∷◌};
ghost use Rattle.addr_map.specs.Places.{AreMapped};
ghost use Rattle.source_meaning.specs.Strings.{strlen as strlen_of};
ghost use Rattle.source_meaning.specs.Library.{argument};
ghost use Rattle.flat_code.specs.Routines.Shape.{HasShape};
ghost use Rattle.flat_code.specs.Routines.Registers.{AreBelow};
ghost use Rattle.flat_code.specs.Routines.Metadata.{held_registers};
ghost use Rattle.flat_actions.specs.Actions.{IsAction, Pointer, Word, runtime_basis};

use crate::strings::scanning::scan;
use addr_map::AddrMap;
use flat_actions::joined;
use flat_code::{FlatInstruction, Held, RightOperand};
use rv_isa::RegOp;
use sb_base::Line;
use shadow_space::ShadowForm;
use std::alloc::{AllocError, Global};

/// `strlen` of the string at the pointer in `string`, at a line, in a function of the runtime: `into` gets the length.
/// It may write the registers from `scratch` on. The only refusal is that memory fails.
pub fn strlen<S: ShadowForm>(
    alloc: Global,
    map: &AddrMap,
    string: Held,
    into: u32,
    line: Line,
    scratch: u32,
) -> Result<Vec<FlatInstruction>, AllocError>
    requires map { AreMapped map.now }
    requires below { AreBelow scratch (into ∷ held_registers string) }
    requires room { scratch + 16 ≤ 2 ^ 31 }
    ensures does { IfOk result (λ r. IsAction (runtime_basis map.now S.entry (S.IsGood map.now))
        (λ vs. strlen_of (argument 0 vs) line)
        (Pointer string ∷ []) (Word into) scratch 17 8 r.items) }
    ensures shape { IfOk result (λ r. HasShape r.items 24 (scratch + 3)) }
{
    let scanned = scan::<S>(alloc, map, string, scratch, line, scratch + 1)?;
    // the cursor's distance from the start
    let length = [FlatInstruction::Operate {
        op: RegOp::Sub,
        into,
        left: scratch,
        right: RightOperand::Register(string.value),
    }];
    joined(alloc, &scanned, &length)
}
