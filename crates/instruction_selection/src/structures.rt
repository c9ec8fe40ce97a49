//! Structures that are assigned, from their places or from contents, or handed over to parameters (C99 6.5.16.1,
//! 6.5.2.2 paragraph 4).

ghost use Rattle.std.specs.Prelude.{◌≡◌, ◌+◌, ◌<◌, ◌≤◌, ◌^◌, ◌++◌, length, IfOk, OnOk};
ghost use Rattle.metadata_plan.specs.OperatorLists.Operators.{operators};
ghost use Rattle.metadata_relation.specs.Blocks.{runtime_number, write_structure_code};
ghost use Rattle.metadata_relation.specs.Structures.{assign_code, copy_code, move_part, part_call_code, put_code};
ghost use Rattle.metadata_relation.specs.Structures.{store_structure_code};
ghost use Rattle.runtime_functions.specs.Library.{held_from};
ghost use Rattle.instruction_selection.specs.Contexts.{IsPrepared};
ghost use Rattle.instruction_selection.specs.Structures.{either_code};

use crate::accesses::WriteRegisters;
use crate::context::FunctionContext;
use crate::entries::put_value;
use crate::list::{append, put};
use crate::runtime_calls::{COPY_PLACE, PUT_AREA_PLACE, runtime_number};
use flat_code::{FlatInstruction, RightOperand};
use flat_operators::constant::put_constant;
use rv_isa::BranchOp;
use std::alloc::AllocError;

/// Puts what moves a structure of `size` bytes behind a list: from the address in one register to that in the first of
/// the free ones. It fails only for want of memory.
pub fn put_copy(
    code: &mut Vec<FlatInstruction>,
    context: &FunctionContext,
    from: u32,
    size: u64,
    scratch: u32,
) -> Result<(), AllocError>
    requires prepared { IsPrepared context.now }
    requires room { scratch + 16 ≤ 2 ^ 31 }
    ensures { OnOk result (code.new.items ≡ code.old.items
        ++ copy_code operators (runtime_number context.now.program.now) from size scratch) }
{
    put(
        code,
        FlatInstruction::Move {
            into: scratch + 1,
            from,
        },
    )?;
    put_constant(code, scratch + 2, size)?;
    put(
        code,
        FlatInstruction::Call {
            function: runtime_number(context, COPY_PLACE),
            first: scratch,
            into: scratch + 3,
        },
    )
}

// Puts what moves the registers of a part of contents to others behind a list.
fn put_part(code: &mut Vec<FlatInstruction>, into: u32, from: u32) -> Result<(), AllocError>
    requires into { into ≤ 2 ^ 31 }
    requires from { from ≤ 2 ^ 31 }
    ensures { OnOk result (code.new.items ≡ code.old.items ++ move_part into from) }
{
    put(code, FlatInstruction::Move { into, from })?;
    put(
        code,
        FlatInstruction::Move {
            into: into + 1,
            from: from + 1,
        },
    )?;
    put(
        code,
        FlatInstruction::Move {
            into: into + 2,
            from: from + 2,
        },
    )?;
    put(
        code,
        FlatInstruction::Constant {
            into: into + 3,
            value: 0,
        },
    )?;
    put(
        code,
        FlatInstruction::Constant {
            into: into + 4,
            value: 0,
        },
    )
}

// Puts a call of a function of the runtime, by its place, behind a list: it gets `size` bytes of a part of contents
// behind the first argument.
fn put_part_call(
    code: &mut Vec<FlatInstruction>,
    context: &FunctionContext,
    place: u32,
    size: u64,
    from: u32,
    first: u32,
) -> Result<(), AllocError>
    requires prepared { IsPrepared context.now }
    requires place { place < 64 }
    requires from { from ≤ 2 ^ 31 }
    requires room { first + 14 ≤ 2 ^ 31 }
    ensures { OnOk result (code.new.items ≡ code.old.items
        ++ part_call_code operators (runtime_number context.now.program.now place) size from first) }
{
    put_constant(code, first + 1, size)?;
    put_part(code, first + 2, from)?;
    put(
        code,
        FlatInstruction::Call {
            function: runtime_number(context, place),
            first,
            into: first + 7,
        },
    )
}

/// Puts two lists behind another one, of which the first is run where a register is 0, and else the second. It fails
/// only for want of memory.
pub fn put_either(
    code: &mut Vec<FlatInstruction>,
    register: u32,
    first: &[FlatInstruction],
    second: &[FlatInstruction],
) -> Result<(), AllocError>
    requires first { length first.now < 2 ^ 31 }
    requires second { length second.now < 2 ^ 31 }
    ensures { OnOk result (code.new.items ≡ code.old.items ++ either_code register first.now second.now) }
{
    put(
        code,
        FlatInstruction::Branch {
            op: BranchOp::Bne,
            left: register,
            right: RightOperand::Number(0),
            past: first.len() as u32 + 1,
        },
    )?;
    append(code, first)?;
    put(
        code,
        FlatInstruction::JumpForward {
            past: second.len() as u32,
        },
    )?;
    append(code, second)
}

/// A call of a function of the runtime, by its place, which gets `size` bytes of a part of contents behind the first
/// argument. It fails only for want of memory.
#[tactic(auto, using(crate::proofs::StructureLists::part_short))]
pub fn part_call(
    context: &FunctionContext,
    place: u32,
    size: u64,
    from: u32,
    first: u32,
) -> Result<Vec<FlatInstruction>, AllocError>
    requires prepared { IsPrepared context.now }
    requires place { place < 64 }
    requires from { from ≤ 2 ^ 31 }
    requires room { first + 14 ≤ 2 ^ 31 }
    ensures list { IfOk result (λ list. list.items
        ≡ part_call_code operators (runtime_number context.now.program.now place) size from first) }
    ensures few { IfOk result (λ list. length list.items < 2 ^ 31) }
{
    let mut list = Vec::new(context.alloc);
    put_part_call(&mut list, context, place, size, from, first)?;
    Ok(list)
}

// What moves a structure from one address to another.
#[tactic(auto, using(crate::proofs::StructureLists::copy_short))]
fn copy(
    context: &FunctionContext,
    from: u32,
    size: u64,
    scratch: u32,
) -> Result<Vec<FlatInstruction>, AllocError>
    requires prepared { IsPrepared context.now }
    requires room { scratch + 16 ≤ 2 ^ 31 }
    ensures list { IfOk result (λ list. list.items
        ≡ copy_code operators (runtime_number context.now.program.now) from size scratch) }
    ensures few { IfOk result (λ list. length list.items < 2 ^ 31) }
{
    let mut list = Vec::new(context.alloc);
    put_copy(&mut list, context, from, size, scratch)?;
    Ok(list)
}

// Puts what moves a structure to the address in the first of the free registers behind a list: from its place, or from
// contents, as its lock word tells.
#[tactic(auto, using(crate::proofs::StructureLists::either_put))]
fn put_assigned(
    code: &mut Vec<FlatInstruction>,
    context: &FunctionContext,
    from: u32,
    size: u64,
    scratch: u32,
) -> Result<(), AllocError>
    requires prepared { IsPrepared context.now }
    requires from { from + 5 ≤ scratch }
    requires room { scratch + 16 ≤ 2 ^ 31 }
    ensures { OnOk result (code.new.items ≡ code.old.items
        ++ assign_code operators (runtime_number context.now.program.now) size from scratch) }
{
    let part = part_call(context, PUT_AREA_PLACE, size, from, scratch)?;
    let copy = copy(context, from, size, scratch)?;
    put_either(code, from + 4, part.as_slice(), copy.as_slice())
}

/// Puts what moves a structure of `size` bytes to the address in the first of the free registers behind a list: from
/// its place alone, where the temporary that has it has no area. It fails only for want of memory.
pub fn put_moved(
    code: &mut Vec<FlatInstruction>,
    context: &FunctionContext,
    has_area: bool,
    from: u32,
    size: u64,
    scratch: u32,
) -> Result<(), AllocError>
    requires prepared { IsPrepared context.now }
    requires from { from + 5 ≤ scratch }
    requires room { scratch + 16 ≤ 2 ^ 31 }
    ensures { OnOk result (code.new.items ≡ code.old.items
        ++ put_code operators (runtime_number context.now.program.now) has_area from size scratch) }
{
    if has_area {
        put_assigned(code, context, from, size, scratch)
    } else {
        put_copy(code, context, from, size, scratch)
    }
}

/// Puts the assignment of a structure of `size` bytes behind a list, which gives its place; `has_area` tells whether the
/// temporary of its value has an area. It fails only for want of memory.
pub fn put_structure_write(
    code: &mut Vec<FlatInstruction>,
    context: &FunctionContext,
    size: u64,
    has_area: bool,
    with_entry: bool,
    registers: WriteRegisters,
) -> Result<(), AllocError>
    requires prepared { IsPrepared context.now }
    requires into { registers.into + 5 ≤ registers.scratch }
    requires pointer { registers.pointer + 5 ≤ registers.scratch }
    requires value { registers.value + 5 ≤ registers.scratch }
    requires room { registers.scratch + 16 ≤ 2 ^ 31 }
    ensures { OnOk result (code.new.items ≡ code.old.items
        ++ write_structure_code operators context.now.program.now has_area with_entry size registers.into
        registers.pointer registers.value registers.scratch) }
{
    let WriteRegisters {
        into,
        pointer,
        value,
        scratch,
    } = registers;
    put(
        code,
        FlatInstruction::Move {
            into: scratch,
            from: pointer,
        },
    )?;
    put_moved(code, context, has_area, value, size, scratch)?;
    put_value(code, with_entry, into, pointer)
}

/// Puts what moves a structure of `size` bytes from the registers of an argument to the home of its parameter behind a
/// list. It fails only for want of memory.
pub fn put_store_structure(
    code: &mut Vec<FlatInstruction>,
    context: &FunctionContext,
    size: u64,
    home: u32,
    from: u32,
    scratch: u32,
) -> Result<(), AllocError>
    requires prepared { IsPrepared context.now }
    requires from { from ≤ 2 ^ 31 }
    requires room { scratch + 14 ≤ 2 ^ 31 }
    ensures { OnOk result (code.new.items ≡ code.old.items
        ++ store_structure_code operators (runtime_number context.now.program.now) size home from scratch) }
{
    put(
        code,
        FlatInstruction::Move {
            into: scratch,
            from: home,
        },
    )?;
    put_part_call(code, context, PUT_AREA_PLACE, size, from, scratch)
}
