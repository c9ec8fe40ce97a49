//! The function with which a run begins.

ghost use Rattle.std.specs.Prelude.{◌≡◌, ◌+◌, ◌<◌, ◌≤◌, ◌^◌, ◌++◌, ◌∷◌, [], IfOk, OnOk, length, Some, slice_get};
ghost use Rattle.flat_code.specs.declared.instruction.FlatInstruction.TheVariants.{Constant as Number, Store as Stored};
ghost use Rattle.lib_wrappers.specs.AllocatingRoutines.Entering.{block_bytes};
ghost use Rattle.tac_ir.specs.Meaning.{function_in};
ghost use Rattle.rv_isa.specs.declared.instruction.StoreOp.TheVariants.{Sd};
ghost use Rattle.metadata_relation.specs.Blocks.{before_main, entry_code, main_tests, objects_of_body, start_code};
ghost use Rattle.metadata_relation.specs.Laid.{entry_of};
ghost use Rattle.program_expansion.specs.Limits.{AreWithinLimits};

use crate::list::put;
use addr_map::{AddrMap, Region};
use flat_code::{FlatFunction, FlatInstruction};
use instruction_selection::call_tests::{put_call_tests, put_object_tests};
use instruction_selection::calls::body_objects;
use rv_isa::StoreOp;
use std::alloc::{AllocError, Global};
use tac_ir::{CodeFunction, Tac};
use tree_containers::Items;

// Puts what stores a word at an address behind a list.
fn put_word(code: &mut Vec<FlatInstruction>, address: u64, word: u64) -> Result<(), AllocError>
    ensures { OnOk result (code.new.items ≡ code.old.items
        ++ Number 0 address ∷ Number 1 word ∷ Stored Sd 0 0 1 ∷ []) }
{
    put(
        code,
        FlatInstruction::Constant {
            into: 0,
            value: address,
        },
    )?;
    put(
        code,
        FlatInstruction::Constant {
            into: 1,
            value: word,
        },
    )?;
    put(
        code,
        FlatInstruction::Store {
            op: StoreOp::Sd,
            at: 0,
            offset: 0,
            from: 1,
        },
    )
}

// Puts what stores the global lock word and the end of the object stack behind a list.
fn put_start(code: &mut Vec<FlatInstruction>, map: &AddrMap) -> Result<(), AllocError>
    ensures { OnOk result (code.new.items ≡ code.old.items ++ start_code map.now) }
{
    let (locks, _) = map.region(Region::Locks);
    let (cells, _) = map.region(Region::Cells);
    let (stack, _) = map.region(Region::Stack);
    put_word(code, locks, 1)?;
    put_word(code, cells, stack)
}

// Puts the tests of the call of `main` behind a list.
fn put_main_tests(
    code: &mut Vec<FlatInstruction>,
    alloc: Global,
    map: &AddrMap,
    main: &CodeFunction,
) -> Result<(), AllocError>
    requires { block_bytes (objects_of_body main.now) ≤ 2 ^ 62 }
    ensures { OnOk result (code.new.items ≡ code.old.items ++ main_tests map.now (Some main.now)) }
{
    let objects = body_objects(alloc, main)?;
    put_call_tests(code, map, main.room, main.line, 0)?;
    put_object_tests(code, alloc, map, &objects, main.line, 0)
}

// Puts what stands before the call of `main` behind a list.
fn put_before_main(
    code: &mut Vec<FlatInstruction>,
    alloc: Global,
    map: &AddrMap,
    program: &Tac,
    main: &CodeFunction,
) -> Result<(), AllocError>
    requires main { function_in program.now program.now.main ≡ Some main.now }
    requires bytes { block_bytes (objects_of_body main.now) ≤ 2 ^ 62 }
    ensures { OnOk result (code.new.items ≡ code.old.items ++ before_main map.now program.now) }
{
    let _program = program;
    put(code, FlatInstruction::Turn)?;
    put(code, FlatInstruction::Turn)?;
    put(code, FlatInstruction::Turn)?;
    put_start(code, map)?;
    put_main_tests(code, alloc, map, main)
}

// `main`.
fn main_of(program: &Tac) -> &CodeFunction
    requires { program.now.main < length program.now.functions }
    ensures { slice_get program.now.functions program.now.main ≡ Some result.now }
{
    &program.functions.as_slice()[program.main]
}

// Puts what a run begins with behind a list.
fn put_entry(
    code: &mut Vec<FlatInstruction>,
    alloc: Global,
    map: &AddrMap,
    program: &Tac,
) -> Result<(), AllocError>
    requires { AreWithinLimits program.now }
    ensures { OnOk result (code.new.items ≡ code.old.items ++ entry_code map.now program.now) }
{
    put_before_main(code, alloc, map, program, main_of(program))?;
    put(
        code,
        FlatInstruction::Call {
            function: program.main as u32,
            first: 0,
            into: 0,
        },
    )?;
    put(code, FlatInstruction::Exit { status: 0 })
}

/// The function with which a run begins. It fails only for want of memory.
pub fn entry_function(
    alloc: Global,
    map: &AddrMap,
    program: &Tac,
) -> Result<FlatFunction, AllocError>
    requires { AreWithinLimits program.now }
    ensures { IfOk result (λ f. f ≡ entry_of map.now program.now) }
{
    let mut homes = Vec::new(alloc);
    homes.push(0)?;
    homes.push(1)?;
    let mut body = Vec::new(alloc);
    put_entry(&mut body, alloc, map, program)?;
    Ok(FlatFunction {
        parameters: 0,
        results: 0,
        room: 32,
        is_runtime: true,
        homes: Items::from_vec(homes),
        body: Items::from_vec(body),
    })
}
