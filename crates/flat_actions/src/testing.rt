//! The tests of an access: SoftBound's check of the bounds, and CETS's check of the key.

ghost use Rattle.std.specs.Prelude.{◌≡◌, ◌≤◌, ◌^◌, IfOk};
ghost use Rattle.flat_code.specs.Routines.Registers.{AreBelow};
ghost use Rattle.flat_code.specs.Routines.Metadata.{held_registers};
ghost use Rattle.flat_code.specs.Routines.InputOutput.{IsWithoutInputOutput};
ghost use Rattle.flat_actions.specs.Judgement.Testing.{IsBelow, IsSpatialRoutine, IsTemporalRoutine};
ghost use Rattle.flat_actions.specs.Judgement.Code.{spatial_code, temporal_code};

use flat_code::{FlatInstruction, Held, RightOperand};
use rv_isa::{BranchOp, LoadOp, RegOp};
use sb_base::{Ending, Line};
use std::alloc::{AllocError, Global};

/// Tests the bounds of an access of `size` bytes, at least one, through the pointer in `pointer`: the run ends with a
/// spatial violation at `line` just where the bytes do not lie within the bounds, and else goes on. It may write the
/// registers from `scratch` on, and shows nothing else: it takes no input and puts no output. The only refusal is that
/// memory fails.
pub fn spatial_check(
    alloc: Global,
    pointer: Held,
    size: RightOperand,
    line: Line,
    scratch: u32,
) -> Result<Vec<FlatInstruction>, AllocError>
    requires below { AreBelow scratch (held_registers pointer) }
    requires size { IsBelow scratch size }
    requires room { scratch ≤ 2 ^ 31 }
    ensures code { IfOk result (λ r. r.items ≡ spatial_code pointer size line scratch) }
    ensures does { IfOk result (λ r. IsSpatialRoutine pointer size line scratch r.items) }
    ensures computes { IfOk result (λ r. IsWithoutInputOutput r.items) }
{
    spatial_instructions(alloc, pointer, size, line, scratch)
}

/// Tests the life of the object to which the pointer in `pointer` points, whose bounds passed their test: the run ends
/// with a temporal violation at `line` just where the object is dead, and else goes on. It may write the registers from
/// `scratch` on, and shows nothing else: it takes no input and puts no output. The only refusal is that memory fails.
pub fn temporal_check(
    alloc: Global,
    pointer: Held,
    line: Line,
    scratch: u32,
) -> Result<Vec<FlatInstruction>, AllocError>
    requires below { AreBelow scratch (held_registers pointer) }
    requires room { scratch ≤ 2 ^ 31 }
    ensures code { IfOk result (λ r. r.items ≡ temporal_code pointer line scratch) }
    ensures does { IfOk result (λ r. IsTemporalRoutine pointer line scratch r.items) }
    ensures computes { IfOk result (λ r. IsWithoutInputOutput r.items) }
{
    temporal_instructions(alloc, pointer, line, scratch)
}

/// The instructions of that test of the bounds, for routines that are proved over them. The only refusal is that memory
/// fails.
pub fn spatial_instructions(
    alloc: Global,
    pointer: Held,
    size: RightOperand,
    line: Line,
    scratch: u32,
) -> Result<Vec<FlatInstruction>, AllocError>
    ensures { IfOk result (λ r. r.items ≡ spatial_code pointer size line scratch) }
{
    let code = [
        FlatInstruction::Branch {
            op: BranchOp::Bgeu,
            left: pointer.value,
            right: RightOperand::Register(pointer.tag.base),
            past: 1,
        },
        FlatInstruction::End(Ending::Spatial(line)),
        FlatInstruction::Branch {
            op: BranchOp::Bgeu,
            left: pointer.tag.bound,
            right: RightOperand::Register(pointer.value),
            past: 1,
        },
        FlatInstruction::End(Ending::Spatial(line)),
        // the bytes from the address to the bound, without a sum that could wrap
        FlatInstruction::Operate {
            op: RegOp::Sub,
            into: scratch,
            left: pointer.tag.bound,
            right: RightOperand::Register(pointer.value),
        },
        FlatInstruction::Branch {
            op: BranchOp::Bgeu,
            left: scratch,
            right: size,
            past: 1,
        },
        FlatInstruction::End(Ending::Spatial(line)),
    ];
    Vec::from_slice(alloc, &code)
}

/// The instructions of that test of the life, for routines that are proved over them. The only refusal is that memory
/// fails.
pub fn temporal_instructions(
    alloc: Global,
    pointer: Held,
    line: Line,
    scratch: u32,
) -> Result<Vec<FlatInstruction>, AllocError>
    ensures { IfOk result (λ r. r.items ≡ temporal_code pointer line scratch) }
{
    let code = [
        FlatInstruction::Load {
            op: LoadOp::Ld,
            into: scratch,
            at: pointer.tag.lock,
            offset: 0,
        },
        // the lock word holds the key just while the object lives
        FlatInstruction::Branch {
            op: BranchOp::Beq,
            left: scratch,
            right: RightOperand::Register(pointer.tag.key),
            past: 1,
        },
        FlatInstruction::End(Ending::Temporal(line)),
    ];
    Vec::from_slice(alloc, &code)
}
