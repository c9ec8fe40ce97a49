//! Scalars read out of contents.

ghost use Rattle.std.specs.Prelude.{◌≡◌, ◌+◌, ◌≤◌, ◌^◌, IfOk};
ghost use Rattle.flat_code.specs.Routines.Registers.{AreDistinct, AreBelow};
ghost use Rattle.flat_code.specs.Routines.Metadata.{held_registers};
ghost use Rattle.flat_actions.specs.Actions.{registers_of};
ghost use Rattle.lib_wrappers.specs.declared.accesses.held.HeldScalar.TheVariants.{Integer, Pointer};
ghost use Rattle.lib_wrappers.specs.AccessRoutines.Accessing.{load_integer_code};
ghost use Rattle.lib_wrappers.specs.AccessRoutines.Holding.{holder_in};
ghost use Rattle.lib_wrappers.specs.AreaRoutines.Reading.{IsReadPartRoutine, read_word, word_held, read_pointer_code};
ghost use Rattle.lib_wrappers.specs.AreaRoutines.Reading.{read_part_code};

use crate::accesses::{HeldScalar, load_operator};
use flat_actions::{give_instructions, joined};
use flat_code::{Entry, FlatInstruction, Held, RightOperand};
use obj_memory::IntType;
use rv_isa::{LoadOp, RegOp};
use std::alloc::{AllocError, Global};

/// Reads the scalar at the beginning of a part of contents into the registers of `into`, which may be those of the
/// part: a pointer with its entry where a word begins there, and with none elsewhere. It may write the registers from
/// `scratch` on, and shows no access, in functions of the program too. The only refusal is that memory fails.
pub fn read_part(
    alloc: Global,
    part: Held,
    into: HeldScalar,
    scratch: u32,
) -> Result<Vec<FlatInstruction>, AllocError>
    requires below { AreBelow scratch (held_registers part) }
    requires into_below { AreBelow scratch (registers_of (holder_in into)) }
    requires distinct { AreDistinct (registers_of (holder_in into)) }
    requires room { scratch + 8 ≤ 2 ^ 31 }
    ensures code { IfOk result (λ r. r.items ≡ read_part_code part into scratch) }
    ensures does { IfOk result (λ r. IsReadPartRoutine part into scratch r.items) }
{
    match into {
        HeldScalar::Integer(of, register) => read_integer(alloc, part, of, register, scratch),
        HeldScalar::Pointer(held) => read_pointer(alloc, part, held, scratch),
    }
}

fn read_integer(
    alloc: Global,
    part: Held,
    of: IntType,
    into: u32,
    scratch: u32,
) -> Result<Vec<FlatInstruction>, AllocError>
    ensures code { IfOk result (λ r. r.items ≡ load_integer_code part.value of into) }
    ensures does { IfOk result (λ r. IsReadPartRoutine part (Integer of into) scratch r.items) }
{
    integer_instructions(alloc, part.value, of, into)
}

fn integer_instructions(
    alloc: Global,
    at: u32,
    of: IntType,
    into: u32,
) -> Result<Vec<FlatInstruction>, AllocError>
    ensures { IfOk result (λ r. r.items ≡ load_integer_code at of into) }
{
    let code = [FlatInstruction::Load {
        op: load_operator(of),
        into,
        at,
        offset: 0,
    }];
    Vec::from_slice(alloc, &code)
}

fn read_pointer(
    alloc: Global,
    part: Held,
    into: Held,
    scratch: u32,
) -> Result<Vec<FlatInstruction>, AllocError>
    requires below { AreBelow scratch (held_registers part) }
    requires into_below { AreBelow scratch (held_registers into) }
    requires distinct { AreDistinct (held_registers into) }
    requires room { scratch + 8 ≤ 2 ^ 31 }
    ensures code { IfOk result (λ r. r.items ≡ read_pointer_code part into scratch) }
    ensures does { IfOk result (λ r. IsReadPartRoutine part (Pointer into) scratch r.items) }
{
    pointer_instructions(alloc, part, into, scratch)
}

fn pointer_instructions(
    alloc: Global,
    part: Held,
    into: Held,
    scratch: u32,
) -> Result<Vec<FlatInstruction>, AllocError>
    requires room { scratch + 8 ≤ 2 ^ 31 }
    ensures { IfOk result (λ r. r.items ≡ read_pointer_code part into scratch) }
{
    let held = Held {
        value: scratch,
        tag: Entry {
            base: scratch + 3,
            bound: scratch + 4,
            key: scratch + 5,
            lock: scratch + 6,
        },
    };
    let word = word_instructions(alloc, part, scratch)?;
    let give = give_instructions(alloc, held, into)?;
    joined(alloc, word.as_slice(), give.as_slice())
}

fn word_instructions(
    alloc: Global,
    part: Held,
    scratch: u32,
) -> Result<Vec<FlatInstruction>, AllocError>
    requires room { scratch + 8 ≤ 2 ^ 31 }
    ensures { IfOk result (λ r. r.items ≡ read_word part scratch) }
{
    let place = scratch + 1;
    let is_word = scratch + 2;
    let code = [
        FlatInstruction::Load {
            op: LoadOp::Ld,
            into: scratch,
            at: part.value,
            offset: 0,
        },
        FlatInstruction::Operate {
            op: RegOp::Sub,
            into: place,
            left: part.value,
            right: RightOperand::Register(part.tag.base),
        },
        // 1 where the low three bits of the offset are 0, else 0
        FlatInstruction::Operate {
            op: RegOp::Sll,
            into: is_word,
            left: place,
            right: RightOperand::Number(61),
        },
        FlatInstruction::Operate {
            op: RegOp::Sltu,
            into: is_word,
            left: is_word,
            right: RightOperand::Number(1),
        },
        FlatInstruction::Operate {
            op: RegOp::Srl,
            into: place,
            left: place,
            right: RightOperand::Number(3),
        },
        FlatInstruction::Operate {
            op: RegOp::Sll,
            into: place,
            left: place,
            right: RightOperand::Number(5),
        },
        FlatInstruction::Operate {
            op: RegOp::Add,
            into: place,
            left: place,
            right: RightOperand::Register(part.tag.bound),
        },
        FlatInstruction::Load {
            op: LoadOp::Ld,
            into: scratch + 3,
            at: place,
            offset: 0,
        },
        FlatInstruction::Load {
            op: LoadOp::Ld,
            into: scratch + 4,
            at: place,
            offset: 8,
        },
        FlatInstruction::Load {
            op: LoadOp::Ld,
            into: scratch + 5,
            at: place,
            offset: 16,
        },
        FlatInstruction::Load {
            op: LoadOp::Ld,
            into: scratch + 6,
            at: place,
            offset: 24,
        },
        // the entry, or none
        FlatInstruction::Operate {
            op: RegOp::Mul,
            into: scratch + 3,
            left: scratch + 3,
            right: RightOperand::Register(is_word),
        },
        FlatInstruction::Operate {
            op: RegOp::Mul,
            into: scratch + 4,
            left: scratch + 4,
            right: RightOperand::Register(is_word),
        },
        FlatInstruction::Operate {
            op: RegOp::Mul,
            into: scratch + 5,
            left: scratch + 5,
            right: RightOperand::Register(is_word),
        },
        FlatInstruction::Operate {
            op: RegOp::Mul,
            into: scratch + 6,
            left: scratch + 6,
            right: RightOperand::Register(is_word),
        },
    ];
    Vec::from_slice(alloc, &code)
}
