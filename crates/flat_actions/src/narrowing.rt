//! Pointers to members: SoftBound's narrowing of bounds.

ghost use Rattle.std.specs.Prelude.{◌≡◌, ◌≤◌, ◌^◌, IfOk};
ghost use Rattle.flat_code.specs.Routines.InputOutput.{IsWithoutInputOutput};
ghost use Rattle.flat_actions.specs.Narrowing.{CanNarrow, IsNarrowRoutine, IsMoveOnRoutine, narrow_code};

use flat_code::{FlatInstruction, Held, RightOperand};
use rv_isa::{BranchOp, RegOp};
use std::alloc::{AllocError, Global};

/// Narrows the pointer in `pointer`, in place, to a member of `size` bytes that begins `offset` bytes on: the address
/// goes on, and the bounds are those where the old ones meet the member's bytes, also where its end is behind the last
/// address. What has no lock word, and so is no pointer to an object, keeps its metadata: the address alone goes on.
/// Both operands are numbers or registers other than those of the pointer that are written, its value, base and bound.
/// It may write the registers from `scratch` on, and shows nothing: it takes no input and puts no output. The only
/// refusal is that memory fails.
pub fn narrow(
    alloc: Global,
    pointer: Held,
    offset: RightOperand,
    size: RightOperand,
    scratch: u32,
) -> Result<Vec<FlatInstruction>, AllocError>
    requires { CanNarrow pointer offset size scratch }
    ensures code { IfOk result (λ r. r.items ≡ narrow_code pointer offset size scratch) }
    ensures narrows { IfOk result (λ r. IsNarrowRoutine pointer offset size scratch r.items) }
    ensures goes_on { IfOk result (λ r. IsMoveOnRoutine pointer offset scratch r.items) }
    ensures computes { IfOk result (λ r. IsWithoutInputOutput r.items) }
{
    narrow_instructions(alloc, pointer, offset, size, scratch)
}

// Its instructions.
fn narrow_instructions(
    alloc: Global,
    pointer: Held,
    offset: RightOperand,
    size: RightOperand,
    scratch: u32,
) -> Result<Vec<FlatInstruction>, AllocError>
    ensures { IfOk result (λ r. r.items ≡ narrow_code pointer offset size scratch) }
{
    let address = RightOperand::Register(pointer.value);
    let code = [
        FlatInstruction::Operate {
            op: RegOp::Add,
            into: pointer.value,
            left: pointer.value,
            right: offset,
        },
        FlatInstruction::Branch {
            op: BranchOp::Beq,
            left: pointer.tag.lock,
            right: RightOperand::Number(0),
            past: 6,
        },
        FlatInstruction::Branch {
            op: BranchOp::Bgeu,
            left: pointer.tag.base,
            right: address,
            past: 1,
        },
        FlatInstruction::Move {
            into: pointer.tag.base,
            from: pointer.value,
        },
        FlatInstruction::Branch {
            op: BranchOp::Bltu,
            left: pointer.tag.bound,
            right: address,
            past: 3,
        },
        // the bytes from the address to the bound, without a sum that could wrap
        FlatInstruction::Operate {
            op: RegOp::Sub,
            into: scratch,
            left: pointer.tag.bound,
            right: address,
        },
        FlatInstruction::Branch {
            op: BranchOp::Bltu,
            left: scratch,
            right: size,
            past: 1,
        },
        FlatInstruction::Operate {
            op: RegOp::Add,
            into: pointer.tag.bound,
            left: pointer.value,
            right: size,
        },
    ];
    Vec::from_slice(alloc, &code)
}
