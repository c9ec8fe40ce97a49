//! Blocks whose objects are made and die (C99 6.2.4 paragraph 5, 6.8.2), and the end of the object stack.

ghost use Rattle.std.specs.Prelude.{◌≡◌, ◌+◌, ◌<◌, ◌≤◌, ◌^◌, ◌++◌, true, length, map, Some, slice_get};
ghost use Rattle.std.specs.Prelude.{if◌then◌else◌, OnOk, IfOk};
ghost use Rattle.c_tree.specs.Blocks.{closed, is_among, opened};
ghost use Rattle.tac_ir.specs.Meaning.{if_there, objects_in};
ghost use Rattle.c_tree.specs.Kinds.{size_of_kind};
ghost use Rattle.lib_wrappers.specs.AllocatingRoutines.Entering.{block_bytes};
ghost use Rattle.metadata_plan.specs.OperatorLists.Operators.{operators};
ghost use Rattle.metadata_relation.specs.InlineLists.{inline_lists};
ghost use Rattle.metadata_plan.specs.Registers.{all_variables};
ghost use Rattle.metadata_relation.specs.Registers.{first_free, first_object, top_register};
ghost use Rattle.metadata_relation.specs.Blocks.{enter_code, leave_code, place_home, place_homes};
ghost use Rattle.metadata_relation.specs.Blocks.{read_top, write_top, zero_code};
ghost use Rattle.c_tree.specs.Valid.{at_number};
ghost use Rattle.source_meaning.specs.Blocks.{has_objects};
ghost use Rattle.instruction_selection.specs.Blocks.{AreObjectsAmong};
ghost use Rattle.instruction_selection.specs.Contexts.{HasRegisters, IsPrepared};

use crate::context::FunctionContext;
use crate::entries::entry_from;
use crate::list::{append, put};
use crate::numbers::{number_operand, put_number};
use crate::runtime_calls::{ENTER_PLACE, ENTER_STATUSES, ZERO_PLACE, put_status, runtime_number};
use crate::variables::kind_of;
use addr_map::laws::sizes_are_in_range;
use addr_map::{AddrMap, Region};
use c_tree::{Kind, Variable};
use flat_code::{Entry, FlatInstruction};
use flat_operators::constant::put_constant;
use lib_wrappers::allocating::leave;
use rv_isa::{LoadOp, RegOp, StoreOp};
use sb_base::Line;
use shadow_space::ShadowForm;
use static_data::pointers::{rounded, size_of};
use std::alloc::{AllocError, Global};
use tac_ir::CodeFunction;

// A variable whose block is not entered.
const NO_VARIABLE: Variable = Variable {
    kind: Kind::Void,
    is_object: false,
};

/// Puts what reads the end of the object stack behind a list. It fails only for want of memory.
pub fn put_read_top(
    code: &mut Vec<FlatInstruction>,
    map: &AddrMap,
    into: u32,
) -> Result<(), AllocError>
    ensures { OnOk result (code.new.items ≡ code.old.items ++ read_top map.now into) }
{
    let (value, _) = map.region(Region::Cells);
    put(code, FlatInstruction::Constant { into, value })?;
    put(
        code,
        FlatInstruction::Load {
            op: LoadOp::Ld,
            into,
            at: into,
            offset: 0,
        },
    )
}

/// Puts what sets the end of the object stack behind a list. It fails only for want of memory.
pub fn put_write_top(
    code: &mut Vec<FlatInstruction>,
    map: &AddrMap,
    from: u32,
    scratch: u32,
) -> Result<(), AllocError>
    ensures { OnOk result (code.new.items ≡ code.old.items ++ write_top map.now from scratch) }
{
    let (value, _) = map.region(Region::Cells);
    put(
        code,
        FlatInstruction::Constant {
            into: scratch,
            value,
        },
    )?;
    put(
        code,
        FlatInstruction::Store {
            op: StoreOp::Sd,
            at: scratch,
            offset: 0,
            from,
        },
    )
}

/// The registers of what the objects of a block share.
#[derive(Clone, Copy)]
pub struct BlockRegisters {
    /// Where the first object stands.
    pub first: u32,
    /// Their key.
    pub key: u32,
    /// Their lock word.
    pub lock: u32,
    /// The first register that is free.
    pub scratch: u32,
}

// Puts the home of an object of so many bytes, which begins so many bytes behind the first of its block.
fn put_placed_home(
    code: &mut Vec<FlatInstruction>,
    home: Entry,
    offset: u64,
    size: u64,
    block: BlockRegisters,
) -> Result<(), AllocError>
    requires { block.scratch < 2 ^ 31 }
    ensures { OnOk result (code.new.items ≡ code.old.items
        ++ place_home operators home offset size block.first block.key block.lock block.scratch) }
{
    let scratch = block.scratch;
    put_number(code, offset, scratch, scratch + 1)?;
    put(
        code,
        FlatInstruction::Operate {
            op: RegOp::Add,
            into: home.base,
            left: block.first,
            right: number_operand(offset, scratch),
        },
    )?;
    put_number(code, size, scratch, scratch + 1)?;
    put(
        code,
        FlatInstruction::Operate {
            op: RegOp::Add,
            into: home.bound,
            left: home.base,
            right: number_operand(size, scratch),
        },
    )?;
    put(
        code,
        FlatInstruction::Move {
            into: home.key,
            from: block.key,
        },
    )?;
    put(
        code,
        FlatInstruction::Move {
            into: home.lock,
            from: block.lock,
        },
    )
}

// Puts the homes of the objects among all variables of a function, each at a multiple of 16 behind those before.
fn put_homes(
    code: &mut Vec<FlatInstruction>,
    context: &FunctionContext,
    variables: &[Variable],
    block: BlockRegisters,
) -> Result<(), AllocError>
    requires registers { HasRegisters context.now }
    requires small { block_bytes variables.now ≤ 2 ^ 62 }
    requires room { block.scratch < 2 ^ 31 }
    ensures { OnOk result (code.new.items ≡ code.old.items ++ place_homes operators context.now.function.now 0
        variables.now 0 block.first block.key block.lock block.scratch) }
{
    let mut offset = 0;
    for i in 0..variables.len() {
        let variable = variables[i];
        if variable.is_object {
            let start = rounded(offset);
            let size = size_of(variable.kind);
            let home = entry_from(context.home(i));
            put_placed_home(code, home, start, size, block)?;
            offset = start + size;
        }
    }
    Ok(())
}

/// The bytes from the first object of a block to the end of its last.
pub fn block_bytes(variables: &[Variable]) -> u64
    requires { block_bytes variables.now ≤ 2 ^ 62 }
    ensures { result ≡ block_bytes variables.now }
{
    let mut end = 0;
    for i in 0..variables.len() {
        let variable = variables[i];
        if variable.is_object {
            end = rounded(end) + size_of(variable.kind);
        }
    }
    end
}

/// Whether a variable is an object.
pub fn has_objects(variables: &[Variable]) -> bool
    ensures { result ≡ has_objects variables.now }
{
    for variable in variables {
        if variable.is_object {
            return true;
        }
    }
    false
}

// The number of the first variable that is an object, and the count of all where there is none.
fn first_object(variables: &[Variable]) -> usize
    ensures { result ≡ first_object variables.now }
{
    for i in 0..variables.len() {
        if variables[i].is_object {
            return i;
        }
    }
    variables.len()
}

// The register that keeps the end of the object stack from before a block.
fn top_register(context: &FunctionContext, variables: &[Variable]) -> u32
    requires { HasRegisters context.now }
    ensures { result ≡ top_register context.now.function.now variables.now }
{
    let _room = context.free();
    context.home(first_object(variables)) + 4
}

/// Puts what makes the objects of a block behind a list. The end of the object stack from before is kept in the home of
/// the first. It fails only for want of memory.
pub fn put_enter(
    code: &mut Vec<FlatInstruction>,
    context: &FunctionContext,
    variables: &[Variable],
    line: Line,
) -> Result<(), AllocError>
    requires prepared { IsPrepared context.now }
    requires small { block_bytes variables.now ≤ 2 ^ 62 }
    ensures { OnOk result (code.new.items ≡ code.old.items ++ enter_code operators context.now.map.now
        context.now.program.now context.now.function.now variables.now line) }
{
    let free = context.free();
    let top = top_register(context, variables);
    put_read_top(code, context.map, top)?;
    put(
        code,
        FlatInstruction::Move {
            into: free,
            from: top,
        },
    )?;
    put_constant(code, free + 1, block_bytes(variables))?;
    put(
        code,
        FlatInstruction::Call {
            function: runtime_number(context, ENTER_PLACE),
            first: free,
            into: free + 2,
        },
    )?;
    put_status(code, context.alloc, free + 2, line, &ENTER_STATUSES)?;
    let block = BlockRegisters {
        first: free + 3,
        key: free + 5,
        lock: free + 6,
        scratch: free + 7,
    };
    put_homes(code, context, variables, block)?;
    put_write_top(code, context.map, free + 4, free + 7)
}

/// Puts what ends the life of the objects of a block behind a list, and gives the object stack back up to an end. It
/// fails only for want of memory.
#[tactic(auto, using(crate::proofs::BlockObjects::lock_below))]
pub fn put_leave<S: ShadowForm>(
    code: &mut Vec<FlatInstruction>,
    context: &FunctionContext,
    variables: &[Variable],
) -> Result<(), AllocError>
    requires prepared { IsPrepared context.now }
    requires some { has_objects variables.now ≡ true }
    requires among { AreObjectsAmong (all_variables context.now.function.now) variables.now }
    ensures { OnOk result (code.new.items ≡ code.old.items
        ++ leave_code (inline_lists S.entry_read S.entry_write context.now.map.now) context.now.map.now
        context.now.function.now variables.now) }
{
    sizes_are_in_range(context.map);
    let free = context.free();
    let lock = entry_from(context.home(first_object(variables))).lock;
    let list = leave::<S>(context.alloc, context.map, lock, free)?;
    append(code, &list)?;
    put_write_top(code, context.map, top_register(context, variables), free)
}

/// Puts what makes all bytes of the object of a variable zero behind a list. It fails only for want of memory.
pub fn put_zero_object(
    code: &mut Vec<FlatInstruction>,
    context: &FunctionContext,
    variable: usize,
) -> Result<(), AllocError>
    requires { IsPrepared context.now }
    ensures { OnOk result (code.new.items ≡ code.old.items ++ zero_code operators context.now.program.now
        context.now.function.now variable
        (size_of_kind (at_number (all_variables context.now.function.now) variable).kind)
        (first_free context.now.function.now)) }
{
    let free = context.free();
    let from = context.home(variable);
    let size = size_of(kind_of(context.function, variable));
    put(code, FlatInstruction::Move { into: free, from })?;
    put_constant(code, free + 1, size)?;
    put(
        code,
        FlatInstruction::Call {
            function: runtime_number(context, ZERO_PLACE),
            first: free,
            into: free + 2,
        },
    )
}

// Whether a number is one of some.
fn is_among(numbers: &[usize], number: usize) -> bool
    ensures { result ≡ is_among numbers.now number }
{
    for one in numbers {
        if *one == number {
            return true;
        }
    }
    false
}

// A variable, which is entered only where that is so.
fn opened(variable: Variable, is_entered: bool) -> Variable
    ensures { result ≡ (if is_entered then variable else closed variable) }
{
    if variable.is_object && !is_entered {
        NO_VARIABLE
    } else {
        variable
    }
}

// Puts variables with numbers from one on behind a list, of which those objects alone are entered that have some
// numbers.
fn put_opened(
    list: &mut Vec<Variable>,
    numbers: &[usize],
    first: usize,
    variables: &[Variable],
) -> Result<(), AllocError>
    requires { first + length variables.now < 2 ^ 64 }
    ensures { OnOk result (list.new.items ≡ list.old.items
        ++ opened numbers.now first variables.now (map closed variables.now)) }
{
    for i in 0..variables.len() {
        let variable = variables[i];
        list.push(opened(variable, is_among(numbers, first + i)))?;
    }
    Ok(())
}

// The numbers of the variables that a block declares.
fn numbers_of(function: &CodeFunction, block: usize) -> &[usize]
    ensures { result.now ≡ if_there (slice_get function.now.blocks block) }
{
    match function.blocks.as_slice().get(block) {
        Some(numbers) => numbers.as_slice(),
        None => &[],
    }
}

/// All variables of a function, of which those alone are objects that one of its blocks declares. It fails only for
/// want of memory.
#[tactic(auto, using(crate::proofs::BlockObjects::block_list))]
pub fn block_objects(
    alloc: Global,
    function: &CodeFunction,
    block: usize,
) -> Result<Vec<Variable>, AllocError>
    requires { length (all_variables function.now) < 2 ^ 64 }
    ensures { IfOk result (λ list. list.items ≡ objects_in (Some function.now) block) }
{
    let numbers = numbers_of(function, block);
    let parameters = function.parameters.as_slice();
    let mut list = Vec::new(alloc);
    put_opened(&mut list, numbers, 0, parameters)?;
    put_opened(
        &mut list,
        numbers,
        parameters.len(),
        function.variables.as_slice(),
    )?;
    Ok(list)
}
