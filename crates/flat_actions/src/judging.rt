//! The routine that judges an access.

ghost use Rattle.std.specs.Prelude.{◌≡◌, ◌≤◌, ◌^◌, IfOk, ◌∷◌, ◌+◌};
ghost use Rattle.flat_code.specs.Routines.Shape.{HasShape};
ghost use Rattle.flat_code.specs.Routines.Registers.{AreBelow};
ghost use Rattle.flat_code.specs.Routines.Metadata.{held_registers};
ghost use Rattle.flat_actions.specs.Judgement.Judging.{IsJudgeRoutine};
ghost use Rattle.flat_actions.specs.Judgement.Code.{judge_code};

use crate::lists::joined;
use crate::testing::{spatial_instructions, temporal_instructions};
use flat_code::{FlatInstruction, Held, RightOperand};
use sb_base::Line;
use std::alloc::{AllocError, Global};

/// Judges an access of as many bytes as `size` holds, at least one, through the pointer in `pointer`: the run ends with
/// a spatial or a temporal violation at `line` just where the judgement of the access is one, and else goes on. It may
/// write the registers from `scratch` on, and shows nothing else. The only refusal is that memory fails.
pub fn judge(
    alloc: Global,
    pointer: Held,
    size: u32,
    line: Line,
    scratch: u32,
) -> Result<Vec<FlatInstruction>, AllocError>
    requires below { AreBelow scratch (size ∷ held_registers pointer) }
    requires room { scratch ≤ 2 ^ 31 }
    ensures does { IfOk result (λ r. IsJudgeRoutine pointer size line scratch r.items) }
    ensures shape { IfOk result (λ r. HasShape r.items 10 (scratch + 1)) }
{
    judge_instructions(alloc, pointer, size, line, scratch)
}

/// The instructions of that routine, for routines that are proved over them. The only refusal is that memory fails.
pub fn judge_instructions(
    alloc: Global,
    pointer: Held,
    size: u32,
    line: Line,
    scratch: u32,
) -> Result<Vec<FlatInstruction>, AllocError>
    ensures { IfOk result (λ r. r.items ≡ judge_code pointer size line scratch) }
{
    let spatial = spatial_instructions(
        alloc,
        pointer,
        RightOperand::Register(size),
        line,
        scratch,
    )?;
    let temporal = temporal_instructions(alloc, pointer, line, scratch)?;
    joined(alloc, spatial.as_slice(), temporal.as_slice())
}
