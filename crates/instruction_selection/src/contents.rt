//! Contents of structures in the areas of temporaries (C99 6.5.2.2 paragraph 4, 6.8.6.4 paragraph 3).

ghost use Rattle.std.specs.Prelude.{◌≡◌, ◌+◌, ◌-◌, ◌*◌, ◌<◌, ◌≤◌, ◌^◌, ◌++◌, ◌∷◌, [], length, IfOk, OnOk};
ghost use Rattle.addr_map.specs.declared.region.Region.TheVariants.{StructureValues};
ghost use Rattle.addr_map.specs.Places.{region_start};
ghost use Rattle.metadata_plan.specs.OperatorLists.Operators.{operators};
ghost use Rattle.metadata_plan.specs.Registers.{most_temporaries};
ghost use Rattle.tac_ir.specs.Structures.{structures_below};
ghost use Rattle.lib_wrappers.specs.AreaRoutines.Areas.{whole_words};
ghost use Rattle.metadata_relation.specs.Blocks.{runtime_number};
ghost use Rattle.metadata_relation.specs.Structures.{area_code, await_code, begin_area_code, bound_code};
ghost use Rattle.metadata_relation.specs.Structures.{callee_part_code, hold_area, receive_code, take_part_code};
ghost use Rattle.metadata_relation.specs.Structures.{take_place_code, take_structure_code, zero_structure_code};
ghost use Rattle.runtime_functions.specs.Library.{held_from};
ghost use Rattle.rv_isa.specs.declared.instruction.RegOp.TheVariants.{Add as add_op};
ghost use Rattle.flat_code.specs.declared.instruction.FlatInstruction.TheVariants.{Operate as Operation};
ghost use Rattle.flat_code.specs.declared.instruction.RightOperand.TheVariants.{Register as Other};
ghost use Rattle.instruction_selection.specs.Contexts.{IsPrepared};
ghost use Rattle.instruction_selection.specs.Structures.{either_code};

use crate::context::FunctionContext;
use crate::list::put;
use crate::runtime_calls::{MOVE_AREA_PLACE, TAKE_AREA_PLACE, ZERO_AREA_PLACE, runtime_number};
use crate::structures::{part_call, put_either};
use addr_map::Region;
use flat_code::{FlatInstruction, RightOperand};
use flat_operators::constant::put_constant;
use rv_isa::RegOp;
use std::alloc::AllocError;

/// The structure that is put into a temporary.
#[derive(Clone, Copy)]
pub struct AreaValue {
    /// The temporary.
    pub temporary: usize,
    /// The bytes of the structure.
    pub size: u64,
    /// Whether the temporary has an entry.
    pub with_entry: bool,
}

// Where the areas of all functions begin.
fn areas_start(context: &FunctionContext) -> u64
    ensures { result ≡ region_start context.now.map.now StructureValues }
{
    let (start, _) = context.map.region(Region::StructureValues);
    start
}

// How far the area of a temporary stands behind what the calls are charged.
fn area_offset(context: &FunctionContext, temporary: usize) -> u64
    requires prepared { IsPrepared context.now }
    requires there { temporary ≤ most_temporaries context.now.function.now.code }
    ensures { result ≡ region_start context.now.map.now StructureValues - context.now.function.now.room
        + 5 * structures_below context.now.program.now context.now.function.now.code temporary }
{
    let start = areas_start(context);
    let below = context.structures_below(temporary);
    let room = context.function.room;
    if start < room {
        5 * below
    } else {
        start - room + 5 * below
    }
}

// Puts the sum of two registers into the first of them.
fn put_sum(code: &mut Vec<FlatInstruction>, into: u32, other: u32) -> Result<(), AllocError>
    ensures { OnOk result (code.new.items ≡ code.old.items ++ Operation add_op into into (Other other) ∷ []) }
{
    put(
        code,
        FlatInstruction::Operate {
            op: RegOp::Add,
            into,
            left: into,
            right: RightOperand::Register(other),
        },
    )
}

// Puts what gets the address of the area of a temporary into a register behind a list.
fn put_area(
    code: &mut Vec<FlatInstruction>,
    context: &FunctionContext,
    temporary: usize,
    into: u32,
) -> Result<(), AllocError>
    requires prepared { IsPrepared context.now }
    requires there { temporary ≤ most_temporaries context.now.function.now.code }
    requires room { into + 4 ≤ 2 ^ 31 }
    ensures { OnOk result (code.new.items ≡ code.old.items
        ++ area_code operators context.now.map.now context.now.program.now context.now.function.now temporary into) }
{
    put(code, FlatInstruction::Charged { into })?;
    put_constant(code, into + 1, area_offset(context, temporary))?;
    put_sum(code, into, into + 1)
}

// Puts what gets the address of the entries of contents in an area into a register behind a list.
fn put_bound(
    code: &mut Vec<FlatInstruction>,
    size: u64,
    area: u32,
    into: u32,
) -> Result<(), AllocError>
    requires size { size ≤ 2 ^ 62 }
    requires room { into + 4 ≤ 2 ^ 31 }
    ensures { OnOk result (code.new.items ≡ code.old.items ++ bound_code operators size area into) }
{
    put_constant(code, into, (size + 7) / 8 * 8)?;
    put_sum(code, into, area)
}

// Puts what a call that leaves contents in the area of a temporary begins with behind a list.
fn put_begin(
    code: &mut Vec<FlatInstruction>,
    context: &FunctionContext,
    temporary: usize,
    size: u64,
    scratch: u32,
) -> Result<(), AllocError>
    requires prepared { IsPrepared context.now }
    requires there { temporary ≤ most_temporaries context.now.function.now.code }
    requires size { size ≤ 2 ^ 62 }
    requires room { scratch + 16 ≤ 2 ^ 31 }
    ensures { OnOk result (code.new.items ≡ code.old.items
        ++ begin_area_code operators context.now.map.now context.now.program.now context.now.function.now size
        temporary scratch) }
{
    put_area(code, context, temporary, scratch)?;
    put_bound(code, size, scratch, scratch + 1)?;
    put(
        code,
        FlatInstruction::Move {
            into: scratch + 2,
            from: scratch,
        },
    )
}

// Puts what gets the registers of a temporary to hold all of the contents in an area behind a list.
fn put_hold(
    code: &mut Vec<FlatInstruction>,
    with_entry: bool,
    into: u32,
    area: u32,
    bound: u32,
) -> Result<(), AllocError>
    requires { into ≤ 2 ^ 31 }
    ensures { OnOk result (code.new.items ≡ code.old.items ++ hold_area with_entry into area bound) }
{
    put(code, FlatInstruction::Move { into, from: area })?;
    if !with_entry {
        return Ok(());
    }
    put(
        code,
        FlatInstruction::Move {
            into: into + 1,
            from: area,
        },
    )?;
    put(
        code,
        FlatInstruction::Move {
            into: into + 2,
            from: bound,
        },
    )?;
    put(
        code,
        FlatInstruction::Constant {
            into: into + 3,
            value: 0,
        },
    )?;
    put(
        code,
        FlatInstruction::Constant {
            into: into + 4,
            value: 0,
        },
    )
}

/// Puts a structure of zeros in the area of a temporary behind a list. It fails only for want of memory.
pub fn put_zero_structure(
    code: &mut Vec<FlatInstruction>,
    context: &FunctionContext,
    value: AreaValue,
    into: u32,
    scratch: u32,
) -> Result<(), AllocError>
    requires prepared { IsPrepared context.now }
    requires there { value.temporary ≤ most_temporaries context.now.function.now.code }
    requires size { value.size ≤ 2 ^ 62 }
    requires into { into + 5 ≤ scratch }
    requires room { scratch + 16 ≤ 2 ^ 31 }
    ensures { OnOk result (code.new.items ≡ code.old.items
        ++ zero_structure_code operators context.now.map.now context.now.program.now context.now.function.now
        (runtime_number context.now.program.now) value.with_entry value.size value.temporary into scratch) }
{
    put_begin(code, context, value.temporary, value.size, scratch)?;
    put_constant(code, scratch + 3, value.size)?;
    put(
        code,
        FlatInstruction::Call {
            function: runtime_number(context, ZERO_AREA_PLACE),
            first: scratch + 2,
            into: scratch + 4,
        },
    )?;
    put_hold(code, value.with_entry, into, scratch, scratch + 1)
}

// Puts what takes a structure from its place to the area whose address is in the first argument behind a list.
fn put_take_place(
    code: &mut Vec<FlatInstruction>,
    context: &FunctionContext,
    size: u64,
    from: u32,
    first: u32,
) -> Result<(), AllocError>
    requires prepared { IsPrepared context.now }
    requires room { first + 14 ≤ 2 ^ 31 }
    ensures { OnOk result (code.new.items ≡ code.old.items
        ++ take_place_code operators (runtime_number context.now.program.now) size from first) }
{
    put(
        code,
        FlatInstruction::Move {
            into: first + 1,
            from,
        },
    )?;
    put_constant(code, first + 2, size)?;
    put(
        code,
        FlatInstruction::Call {
            function: runtime_number(context, TAKE_AREA_PLACE),
            first,
            into: first + 7,
        },
    )
}

// What takes a structure from its place to the area whose address is in the first argument.
#[tactic(auto, using(crate::proofs::StructureLists::place_short))]
fn take_place(
    context: &FunctionContext,
    size: u64,
    from: u32,
    first: u32,
) -> Result<Vec<FlatInstruction>, AllocError>
    requires prepared { IsPrepared context.now }
    requires room { first + 14 ≤ 2 ^ 31 }
    ensures list { IfOk result (λ list. list.items
        ≡ take_place_code operators (runtime_number context.now.program.now) size from first) }
    ensures few { IfOk result (λ list. length list.items < 2 ^ 31) }
{
    let mut list = Vec::new(context.alloc);
    put_take_place(&mut list, context, size, from, first)?;
    Ok(list)
}

// Puts what takes a structure, from its place or from contents, to the area whose address is in the first argument
// behind a list.
#[tactic(auto, using(crate::proofs::StructureLists::either_put))]
fn put_taken(
    code: &mut Vec<FlatInstruction>,
    context: &FunctionContext,
    size: u64,
    from: u32,
    first: u32,
) -> Result<(), AllocError>
    requires prepared { IsPrepared context.now }
    requires from { from + 5 ≤ first }
    requires room { first + 14 ≤ 2 ^ 31 }
    ensures { OnOk result (code.new.items ≡ code.old.items
        ++ either_code (held_from from).tag.lock
        (take_part_code operators (runtime_number context.now.program.now) size from first)
        (take_place_code operators (runtime_number context.now.program.now) size from first)) }
{
    let part = part_call(context, MOVE_AREA_PLACE, size, from, first)?;
    let place = take_place(context, size, from, first)?;
    put_either(code, from + 4, part.as_slice(), place.as_slice())
}

/// Puts the contents of a structure taken to the area of a temporary behind a list. It fails only for want of memory.
#[tactic(auto, using(crate::proofs::StructureLists::taken_list))]
pub fn put_take(
    code: &mut Vec<FlatInstruction>,
    context: &FunctionContext,
    value: AreaValue,
    into: u32,
    from: u32,
    scratch: u32,
) -> Result<(), AllocError>
    requires prepared { IsPrepared context.now }
    requires there { value.temporary ≤ most_temporaries context.now.function.now.code }
    requires size { value.size ≤ 2 ^ 62 }
    requires into { into + 5 ≤ scratch }
    requires from { from + 5 ≤ scratch }
    requires room { scratch + 16 ≤ 2 ^ 31 }
    ensures { OnOk result (code.new.items ≡ code.old.items
        ++ take_structure_code operators context.now.map.now context.now.program.now context.now.function.now
        (runtime_number context.now.program.now) value.with_entry value.size value.temporary into from scratch) }
{
    put_begin(code, context, value.temporary, value.size, scratch)?;
    put_taken(code, context, value.size, from, scratch + 2)?;
    put_hold(code, value.with_entry, into, scratch, scratch + 1)
}

// Puts what gets registers the part that is all of a result of `size` bytes behind a list: it stands where the areas of
// the function begin that is called next.
fn put_callee_part(
    code: &mut Vec<FlatInstruction>,
    context: &FunctionContext,
    size: u64,
    into: u32,
) -> Result<(), AllocError>
    requires size { size ≤ 2 ^ 62 }
    requires room { into + 8 ≤ 2 ^ 31 }
    ensures { OnOk result (code.new.items ≡ code.old.items
        ++ callee_part_code operators context.now.map.now size into) }
{
    put(code, FlatInstruction::Charged { into })?;
    put_constant(code, into + 1, areas_start(context))?;
    put_sum(code, into, into + 1)?;
    put(
        code,
        FlatInstruction::Move {
            into: into + 1,
            from: into,
        },
    )?;
    put_bound(code, size, into, into + 2)?;
    put(
        code,
        FlatInstruction::Constant {
            into: into + 3,
            value: 0,
        },
    )?;
    put(
        code,
        FlatInstruction::Constant {
            into: into + 4,
            value: 0,
        },
    )
}

/// Puts what a call begins with that gives a structure behind a list: registers get where the structure is to go, and
/// which part it will be. It fails only for want of memory.
pub fn put_await(
    code: &mut Vec<FlatInstruction>,
    context: &FunctionContext,
    temporary: usize,
    size: u64,
    scratch: u32,
) -> Result<(), AllocError>
    requires prepared { IsPrepared context.now }
    requires there { temporary ≤ most_temporaries context.now.function.now.code }
    requires size { size ≤ 2 ^ 62 }
    requires room { scratch + 16 ≤ 2 ^ 31 }
    ensures { OnOk result (code.new.items ≡ code.old.items
        ++ await_code operators context.now.map.now context.now.program.now context.now.function.now size temporary
        scratch) }
{
    put_begin(code, context, temporary, size, scratch)?;
    put_constant(code, scratch + 3, size)?;
    put_callee_part(code, context, size, scratch + 4)
}

/// Puts what moves the structure that a call gave to the area of its temporary behind a list. It fails only for want of
/// memory.
pub fn put_receive(
    code: &mut Vec<FlatInstruction>,
    context: &FunctionContext,
    with_entry: bool,
    into: u32,
    scratch: u32,
) -> Result<(), AllocError>
    requires prepared { IsPrepared context.now }
    requires into { into ≤ 2 ^ 31 }
    requires room { scratch + 16 ≤ 2 ^ 31 }
    ensures { OnOk result (code.new.items ≡ code.old.items
        ++ receive_code (runtime_number context.now.program.now) with_entry into scratch) }
{
    put(
        code,
        FlatInstruction::Call {
            function: runtime_number(context, MOVE_AREA_PLACE),
            first: scratch + 2,
            into: scratch + 9,
        },
    )?;
    put_hold(code, with_entry, into, scratch, scratch + 1)
}
