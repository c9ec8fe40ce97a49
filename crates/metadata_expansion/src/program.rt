//! Functions and programs.

ghost use Rattle.std.specs.Prelude.{◌≡◌, ◌+◌, ◌<◌, ◌^◌, ◌++◌, length, OnOk, IfOk};
ghost use Rattle.tac_ir.specs.Meaning.{function_in, line_in};
ghost use Rattle.metadata_plan.specs.Blocks.{entry_code};
ghost use Rattle.metadata_plan.specs.Laid.{entry_of, function_of, functions_of, program_of};
ghost use Rattle.metadata_expansion.specs.Homes.{homes};
ghost use Rattle.metadata_expansion.specs.Numbers.{AreAllSmall, AreSmall};
ghost use Rattle.metadata_plan.specs.OperatorLists.Operators.{operators};

use crate::body::put_body;
use crate::calls::{put_tests, room_of};
use crate::context::FunctionContext;
use crate::homes::homes;
use crate::list::{push, put};
use crate::registers::{Registers, words_in};
use addr_map::AddrMap;
use flat_code::{FlatFunction, FlatInstruction, FlatProgram};
use sb_base::Line;
use std::alloc::{AllocError, Global};
use tac_ir::{CodeFunction, Tac};
use tree_containers::Items;

// The expansion of a function.
fn expand_function(
    alloc: Global,
    map: &AddrMap,
    program: &Tac,
    function: &CodeFunction,
) -> Result<FlatFunction, AllocError>
    requires { AreSmall map.now program.now function.now }
    ensures { IfOk result
        (λ f. f ≡ function_of operators map.now program.now function.now (homes function.now)) }
{
    let registers = Registers::new(alloc, function)?;
    let homes = homes(alloc, function, &registers)?;
    let context = FunctionContext {
        map,
        program,
        function,
        registers: &registers,
    };
    let mut body = Vec::new(alloc);
    put_body(&mut body, alloc, &context, function)?;
    Ok(FlatFunction {
        parameters: words_in(function.parameters.as_slice()),
        results: 1,
        room: function.room,
        is_runtime: false,
        homes: Items::from_vec(homes),
        body: Items::from_vec(body),
    })
}

// The line of the name of a function by its number.
fn line_of(program: &Tac, number: usize) -> Line
    requires { number < length program.now.functions }
    ensures { result ≡ line_in (function_in program.now number) }
{
    program.functions.as_slice()[number].line
}

// Puts what a run begins with behind a list: a call of `main`, whose result is the status.
fn put_entry(
    code: &mut Vec<FlatInstruction>,
    map: &AddrMap,
    program: &Tac,
) -> Result<(), AllocError>
    requires main { program.now.main < length program.now.functions }
    requires small { program.now.main < 2 ^ 32 }
    ensures { OnOk result (code.new.items ≡ code.old.items ++ entry_code map.now program.now) }
{
    let main = program.main;
    put(code, FlatInstruction::Turn)?;
    put(code, FlatInstruction::Turn)?;
    put_tests(code, map, room_of(program, main), line_of(program, main), 0)?;
    put(
        code,
        FlatInstruction::Call {
            function: main as u32,
            first: 0,
            into: 0,
        },
    )?;
    put(code, FlatInstruction::Exit { status: 0 })
}

// The function with which a run begins.
fn entry_function(alloc: Global, map: &AddrMap, program: &Tac) -> Result<FlatFunction, AllocError>
    requires main { program.now.main < length program.now.functions }
    requires small { program.now.main < 2 ^ 32 }
    ensures { IfOk result (λ f. f ≡ entry_of map.now program.now) }
{
    let mut homes = Vec::new(alloc);
    homes.push(0)?;
    let mut body = Vec::new(alloc);
    put_entry(&mut body, map, program)?;
    Ok(FlatFunction {
        parameters: 0,
        results: 0,
        room: 16,
        is_runtime: true,
        homes: Items::from_vec(homes),
        body: Items::from_vec(body),
    })
}

// Puts the expansions of all functions behind a list.
fn put_functions(
    list: &mut Vec<FlatFunction>,
    alloc: Global,
    map: &AddrMap,
    program: &Tac,
) -> Result<(), AllocError>
    requires { AreAllSmall map.now program.now }
    ensures { OnOk result (list.new.items ≡ list.old.items
        ++ functions_of operators map.now program.now homes program.now.functions) }
{
    for function in program.functions.as_slice() {
        push(list, expand_function(alloc, map, program, function)?)?;
    }
    Ok(())
}

/// The expansion of a program in three-address code that has integers alone: its functions with their numbers, and
/// behind them the one with which a run begins. Whether its numbers fit tells `fits`. It fails only for want of memory.
pub fn expand(alloc: Global, map: &AddrMap, program: &Tac) -> Result<FlatProgram, AllocError>
    requires { AreAllSmall map.now program.now }
    ensures { IfOk result (λ p. p ≡ program_of operators map.now program.now homes) }
{
    let mut functions = Vec::new(alloc);
    put_functions(&mut functions, alloc, map, program)?;
    push(&mut functions, entry_function(alloc, map, program)?)?;
    Ok(FlatProgram {
        functions: Items::from_vec(functions),
        entry: program.functions.as_slice().len() as u32,
    })
}
