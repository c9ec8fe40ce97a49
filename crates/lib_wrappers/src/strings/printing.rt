//! Bytes put out, and `puts`.

ghost use Rattle.std.specs.Prelude.{◌≡◌, ◌+◌, ◌≤◌, ◌^◌, IfOk, [], ◌∷◌};
ghost use Rattle.addr_map.specs.Places.{AreMapped};
ghost use Rattle.source_meaning.specs.Printing.{puts as puts_of};
ghost use Rattle.source_meaning.specs.Library.{argument};
ghost use Rattle.flat_code.specs.Routines.Shape.{HasShape};
ghost use Rattle.flat_code.specs.Routines.Registers.{AreBelow};
ghost use Rattle.flat_code.specs.Routines.Metadata.{held_registers};
ghost use Rattle.flat_actions.specs.Actions.{IsAction, Pointer, Word, runtime_basis};
ghost use Rattle.lib_wrappers.specs.StringRoutines.Putting.{IsPutRoutine, put_code};

use crate::strings::scanning::scan;
use addr_map::AddrMap;
use flat_actions::joined;
use flat_code::{FlatInstruction, Held, RightOperand};
use rv_isa::{BranchOp, LoadOp, RegOp};
use sb_base::Line;
use shadow_space::ShadowForm;
use std::alloc::{AllocError, Global};

/// Puts the bytes from the address in `from` up to the one in `to` out, in a function of the runtime. It may write the
/// registers from `scratch` on. The only refusal is that memory fails.
pub fn put_bytes(
    alloc: Global,
    map: &AddrMap,
    from: u32,
    to: u32,
    scratch: u32,
) -> Result<Vec<FlatInstruction>, AllocError>
    requires below { AreBelow scratch (from ∷ to ∷ []) }
    requires room { scratch + 8 ≤ 2 ^ 31 }
    ensures does { IfOk result (λ r. IsPutRoutine map.now from to scratch r.items) }
    ensures shape { IfOk result (λ r. HasShape r.items 8 (scratch + 2)) }
{
    put_instructions(alloc, from, to, scratch)
}

fn put_instructions(
    alloc: Global,
    from: u32,
    to: u32,
    scratch: u32,
) -> Result<Vec<FlatInstruction>, AllocError>
    requires { scratch + 8 ≤ 2 ^ 31 }
    ensures { IfOk result (λ r. r.items ≡ put_code from to scratch) }
{
    let cursor = scratch;
    let byte = scratch + 1;
    let code = [
        FlatInstruction::Move { into: cursor, from },
        FlatInstruction::Branch {
            op: BranchOp::Beq,
            left: cursor,
            right: RightOperand::Register(to),
            past: 4,
        },
        FlatInstruction::Load {
            op: LoadOp::Lbu,
            into: byte,
            at: cursor,
            offset: 0,
        },
        FlatInstruction::Put { from: byte },
        FlatInstruction::Operate {
            op: RegOp::Add,
            into: cursor,
            left: cursor,
            right: RightOperand::Number(1),
        },
        FlatInstruction::JumpBack { back: 4 },
    ];
    Vec::from_slice(alloc, &code)
}

/// `puts` of the string at the pointer in `string`, at a line, in a function of the runtime: `into` gets 0. It may
/// write the registers from `scratch` on. The only refusal is that memory fails.
pub fn puts<S: ShadowForm>(
    alloc: Global,
    map: &AddrMap,
    string: Held,
    into: u32,
    line: Line,
    scratch: u32,
) -> Result<Vec<FlatInstruction>, AllocError>
    requires map { AreMapped map.now }
    requires below { AreBelow scratch (into ∷ held_registers string) }
    requires room { scratch + 16 ≤ 2 ^ 31 }
    ensures does { IfOk result (λ r. IsAction (runtime_basis map.now S.entry (S.IsGood map.now))
        (λ vs. puts_of (argument 0 vs) line)
        (Pointer string ∷ []) (Word into) scratch 21 8 r.items) }
    ensures shape { IfOk result (λ r. HasShape r.items 32 (scratch + 3)) }
{
    let scanned = scan::<S>(alloc, map, string, scratch, line, scratch + 1)?;
    let put = put_bytes(alloc, map, string.value, scratch, scratch + 1)?;
    let newline = [
        FlatInstruction::Constant {
            into: scratch + 1,
            value: 10,
        },
        FlatInstruction::Put { from: scratch + 1 },
        FlatInstruction::Constant { into, value: 0 },
    ];
    let rest = joined(alloc, &put, &newline)?;
    joined(alloc, &scanned, &rest)
}
