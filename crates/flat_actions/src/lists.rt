//! Lists of instructions put together. The only refusal is that memory fails; a list of 2^32 instructions, which no
//! branch passes over, is more than fits memory.

ghost use Rattle.std.specs.Prelude.{◌≡◌, ◌+◌, ◌<◌, ◌^◌, ◌++◌, IfOk, length};
ghost use Rattle.flat_code.specs.Routines.Routine.{unless_code, until_code};
ghost use Rattle.flat_actions.specs.Lists.{give_code, guarded_code};

use flat_code::{FlatInstruction, Held, RightOperand};
use rv_isa::BranchOp;
use std::alloc::{AllocError, Global};

/// One list behind another.
pub fn joined(
    alloc: Global,
    first: &[FlatInstruction],
    second: &[FlatInstruction],
) -> Result<Vec<FlatInstruction>, AllocError>
    ensures { IfOk result (λ r. r.items ≡ first.now ++ second.now) }
{
    let mut list = Vec::from_slice(alloc, first)?;
    list.extend_from_slice(second)?;
    Ok(list)
}

/// A body that is passed over where a condition holds.
pub fn unless(
    alloc: Global,
    op: BranchOp,
    left: u32,
    right: RightOperand,
    body: &[FlatInstruction],
) -> Result<Vec<FlatInstruction>, AllocError>
    ensures { IfOk result (λ r. r.items ≡ unless_code op left right body.now) }
{
    let Ok(past) = u32::try_from(body.len()) else {
        return Err(AllocError);
    };
    let test = [FlatInstruction::Branch {
        op,
        left,
        right,
        past,
    }];
    joined(alloc, &test, body)
}

/// Turns of a body until a condition holds.
pub fn until(
    alloc: Global,
    op: BranchOp,
    left: u32,
    right: RightOperand,
    body: &[FlatInstruction],
) -> Result<Vec<FlatInstruction>, AllocError>
    requires { length body.now < 2 ^ 31 }
    ensures { IfOk result (λ r. r.items ≡ until_code op left right body.now) }
{
    let past = body.len() as u32 + 1;
    let test = [FlatInstruction::Branch {
        op,
        left,
        right,
        past,
    }];
    let back = [FlatInstruction::JumpBack { back: past }];
    let turn = joined(alloc, body, &back)?;
    joined(alloc, &test, turn.as_slice())
}

/// The pointer in some registers is put into others, with its tag.
pub fn give_instructions(
    alloc: Global,
    from: Held,
    into: Held,
) -> Result<Vec<FlatInstruction>, AllocError>
    ensures { IfOk result (λ r. r.items ≡ give_code from into) }
{
    let code = [
        FlatInstruction::Move {
            into: into.value,
            from: from.value,
        },
        FlatInstruction::Move {
            into: into.tag.base,
            from: from.tag.base,
        },
        FlatInstruction::Move {
            into: into.tag.bound,
            from: from.tag.bound,
        },
        FlatInstruction::Move {
            into: into.tag.key,
            from: from.tag.key,
        },
        FlatInstruction::Move {
            into: into.tag.lock,
            from: from.tag.lock,
        },
    ];
    Vec::from_slice(alloc, &code)
}

/// An act that is passed over where a size is 0, after which a pointer is given.
pub fn guarded(
    alloc: Global,
    size: u32,
    from: Held,
    into: Held,
    act: &[FlatInstruction],
) -> Result<Vec<FlatInstruction>, AllocError>
    ensures { IfOk result (λ r. r.items ≡ guarded_code size from into act.now) }
{
    let first = unless(alloc, BranchOp::Beq, size, RightOperand::Number(0), act)?;
    let last = give_instructions(alloc, from, into)?;
    joined(alloc, first.as_slice(), last.as_slice())
}
