//! Pointers to objects that are named, and to functions (C99 6.3.2.1).

ghost use Rattle.std.specs.Prelude.{◌≡◌, ◌+◌, ◌<◌, ◌≤◌, ◌^◌, ◌++◌, OnOk};
ghost use Rattle.addr_map.specs.Places.{function_address};
ghost use Rattle.metadata_plan.specs.OperatorLists.Operators.{operators};
ghost use Rattle.metadata_relation.specs.Registers.{entry_from};
ghost use Rattle.metadata_relation.specs.Blocks.{entry_constants, entry_constants_if, function_code, home_code};
ghost use Rattle.metadata_relation.specs.Blocks.{move_entry_if};
ghost use Rattle.metadata_plan.specs.Registers.{most_temporaries};
ghost use Rattle.instruction_selection.specs.Contexts.{HasRegisters};

use crate::context::FunctionContext;
use crate::entries::{entry_from, held_from, put_entry_if};
use crate::list::put;
use addr_map::function_address;
use flat_code::{Entry, FlatInstruction};
use flat_operators::constant::put_constant;
use std::alloc::AllocError;

/// The numbers of an entry.
#[derive(Clone, Copy)]
pub struct EntryNumbers {
    /// The first address that the pointer may access.
    pub base: u64,
    /// One past the last.
    pub bound: u64,
    /// The key of the object.
    pub key: u64,
    /// The address of the lock word.
    pub lock: u64,
}

// Puts the numbers of an entry into registers behind a list.
fn put_numbers(
    code: &mut Vec<FlatInstruction>,
    into: Entry,
    numbers: EntryNumbers,
    scratch: u32,
) -> Result<(), AllocError>
    ensures { OnOk result (code.new.items ≡ code.old.items
        ++ entry_constants operators into numbers.base numbers.bound numbers.key numbers.lock scratch) }
{
    put_constant(code, into.base, numbers.base)?;
    put_constant(code, into.bound, numbers.bound)?;
    put_constant(code, into.key, numbers.key)?;
    put_constant(code, into.lock, numbers.lock)
}

/// Puts the numbers of an entry into registers behind a list, where it is kept. It fails only for want of memory.
#[tactic(auto, using(crate::proofs::Lists::nothing_behind))]
pub fn put_numbers_if(
    code: &mut Vec<FlatInstruction>,
    with_entry: bool,
    into: Entry,
    numbers: EntryNumbers,
    scratch: u32,
) -> Result<(), AllocError>
    ensures { OnOk result (code.new.items ≡ code.old.items ++ entry_constants_if operators with_entry into
        numbers.base numbers.bound numbers.key numbers.lock scratch) }
{
    if with_entry {
        put_numbers(code, into, numbers, scratch)
    } else {
        Ok(())
    }
}

/// Puts the pointer to the object of a variable behind a list. It fails only for want of memory.
pub fn put_home(
    code: &mut Vec<FlatInstruction>,
    context: &FunctionContext,
    with_entry: bool,
    into: u32,
    variable: usize,
) -> Result<(), AllocError>
    requires registers { HasRegisters context.now }
    requires into { into ≤ 2 ^ 31 }
    ensures { OnOk result (code.new.items ≡ code.old.items
        ++ home_code context.now.function.now with_entry into variable) }
{
    let from = context.home(variable);
    put(code, FlatInstruction::Move { into, from })?;
    put_entry_if(code, with_entry, held_from(into).tag, entry_from(from))
}

/// Puts the pointer to a function, by its number, whose type has a number, behind a list. It fails only for want of
/// memory.
pub fn put_function(
    code: &mut Vec<FlatInstruction>,
    type_number: u64,
    function: usize,
    with_entry: bool,
    into: u32,
    scratch: u32,
) -> Result<(), AllocError>
    requires kind { type_number < 2 ^ 63 }
    requires function { function ≤ 4096 }
    requires into { into ≤ 2 ^ 31 }
    ensures { OnOk result (code.new.items ≡ code.old.items
        ++ function_code operators type_number function with_entry into scratch) }
{
    let address = function_address(function);
    put_constant(code, into, address)?;
    let numbers = EntryNumbers {
        base: address,
        bound: address,
        key: (1 << 63) + type_number,
        lock: 0,
    };
    put_numbers_if(code, with_entry, held_from(into).tag, numbers, scratch)
}
