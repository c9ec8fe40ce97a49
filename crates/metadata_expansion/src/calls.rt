//! Calls, and what stands before them.

ghost use Rattle.std.specs.Prelude.{◌≡◌, ◌+◌, ◌*◌, ◌<◌, ◌≤◌, ◌^◌, ◌++◌, ◌∷◌, []};
ghost use Rattle.std.specs.Prelude.{if◌then◌else◌, OnOk};
ghost use Rattle.sb_base.specs.declared.ending.Ending.TheVariants.{Abort};
ghost use Rattle.tac_ir.specs.Meaning.{function_in};
ghost use Rattle.flat_code.specs.declared.instruction.FlatInstruction.TheVariants.{End};
ghost use Rattle.metadata_plan.specs.Registers.{most_temporaries};
ghost use Rattle.metadata_plan.specs.Part.{takes};
ghost use Rattle.metadata_plan.specs.Blocks.{argument_moves, call_code, call_tests, room_in};
ghost use Rattle.metadata_expansion.specs.Homes.{free_count};
ghost use Rattle.metadata_expansion.specs.Contexts.{HasRegisters};

use crate::context::FunctionContext;
use crate::list::put;
use addr_map::AddrMap;
use flat_code::{FlatInstruction, RightOperand};
use rv_isa::BranchOp;
use sb_base::{Ending, Line};
use std::alloc::AllocError;
use tac_ir::Tac;

/// The activation record's bytes of a function by its number.
pub fn room_of(program: &Tac, function: usize) -> u64
    ensures { result ≡ room_in (function_in program.now function) }
{
    match program.functions.as_slice().get(function) {
        Some(called) => called.room,
        None => 0,
    }
}

/// Puts what begins a call of a function with an activation record of `room` bytes behind a list: its turn, and the
/// test of the charge, at a line.
pub fn put_tests(
    code: &mut Vec<FlatInstruction>,
    map: &AddrMap,
    room: u64,
    line: Line,
    scratch: u32,
) -> Result<(), AllocError>
    ensures { OnOk result (code.new.items ≡ code.old.items ++ call_tests map.now room line scratch) }
{
    let most = (map.budgets().calls() + 1).saturating_sub(room);
    put(code, FlatInstruction::Turn)?;
    put(code, FlatInstruction::Charged { into: scratch })?;
    put(
        code,
        FlatInstruction::Branch {
            op: BranchOp::Bltu,
            left: scratch,
            right: RightOperand::Number(most),
            past: 1,
        },
    )?;
    put(code, FlatInstruction::End(Ending::Stack(line)))
}

/// Puts what brings so many arguments, from a temporary on, to the registers behind those of the temporaries.
pub fn put_arguments(
    code: &mut Vec<FlatInstruction>,
    context: &FunctionContext,
    first: usize,
    count: usize,
) -> Result<(), AllocError>
    requires registers { HasRegisters context.now }
    requires temporaries { first + count ≤ most_temporaries context.now.function.now.code }
    requires arguments { count ≤ free_count context.now.function.now }
    ensures { OnOk result (code.new.items ≡ code.old.items
        ++ argument_moves context.now.function.now context.now.registers.now.free first count) }
{
    for i in 0..count {
        let into = context.registers.free + i as u32;
        let from = context.temporary(first + i);
        put(code, FlatInstruction::Move { into, from })?;
    }
    Ok(())
}

// Whether the function with a number takes so many arguments.
fn takes(program: &Tac, function: usize, count: usize) -> bool
    ensures { result ≡ takes (function_in program.now function) count }
{
    match program.functions.as_slice().get(function) {
        Some(called) => called.parameters.as_slice().len() == count,
        None => false,
    }
}

/// Puts a call of a function of the program behind a list; where that takes another number of arguments, what ends the
/// run.
pub fn put_call(
    code: &mut Vec<FlatInstruction>,
    context: &FunctionContext,
    called: usize,
    line: Line,
    first: usize,
    count: usize,
) -> Result<(), AllocError>
    requires registers { HasRegisters context.now }
    requires into { first < most_temporaries context.now.function.now.code }
    requires temporaries { first + count ≤ most_temporaries context.now.function.now.code }
    requires arguments { count ≤ free_count context.now.function.now }
    requires callee { called < 2 ^ 32 }
    ensures { OnOk result (code.new.items ≡ code.old.items
        ++ (if takes (function_in context.now.program.now called) count
        then call_code context.now.map.now context.now.program.now context.now.function.now called line first count
        else End (Abort line) ∷ [])) }
{
    let FunctionContext { map, program, .. } = *context;
    if !takes(program, called, count) {
        return put(code, FlatInstruction::End(Ending::Abort(line)));
    }
    let free = context.registers.free;
    put_tests(code, map, room_of(program, called), line, free)?;
    put_arguments(code, context, first, count)?;
    let into = context.temporary(first);
    put(
        code,
        FlatInstruction::Call {
            function: called as u32,
            first: free,
            into,
        },
    )
}
