//! A routine made a function.

ghost use Rattle.std.specs.Prelude.{◌≡◌, suc, ◌+◌, ◌-◌, ◌*◌, ◌<◌, ◌≤◌, ◌^◌, [], ◌∷◌, ◌++◌};
ghost use Rattle.std.specs.Prelude.{IfOk, OnOk, length};
ghost use Rattle.flat_code.specs.declared.instruction.FlatInstruction.TheVariants.{Constant, Return};
ghost use Rattle.runtime_functions.specs.Status.{return_status};
ghost use Rattle.runtime_functions.specs.Functions.{IsRuntimeFunction, function_body, own_homes, stub_place};
ghost use Rattle.runtime_functions.specs.Functions.{cleared_registers, stubs, with_status, with_stub, with_stubs};
ghost use Rattle.runtime_functions.specs.Functions.{with_zeros, zeros};

use crate::list::put;
use crate::status::ReturnStatus;
use flat_code::{FlatFunction, FlatInstruction};
use sb_base::Ending;
use std::alloc::{AllocError, Global};
use tree_containers::Items;

/// What a function of the runtime has at hand.
#[derive(Clone, Copy)]
pub struct RuntimeFrame {
    /// How many arguments it takes: they are its first registers. The next holds the status.
    pub parameters: u32,
    /// How many results its routine gives, in the registers behind the status.
    pub results: u32,
    /// How many registers it has in all.
    pub registers: u32,
}

// How many registers are made 0: the status, at most five results, and two of the routine's own.
const CLEARED: u32 = 8;

// An ending at a place of a routine of so many becomes a jump to its stub, if it has one.
fn ended(ending: Ending, place: u32, length: u32) -> FlatInstruction
    requires inside { place < length }
    requires room { length < 2 ^ 31 }
    ensures { result ≡ with_status length place ending (return_status ending) }
{
    match ReturnStatus::of(&ending) {
        None => FlatInstruction::End(ending),
        Some(status) => FlatInstruction::JumpForward {
            past: past_to(status, place, length),
        },
    }
}

// An instruction at a place of a routine of so many.
fn with_stub(instruction: &FlatInstruction, place: u32, length: u32) -> FlatInstruction
    requires inside { place < length }
    requires room { length < 2 ^ 31 }
    ensures { result ≡ with_stub length place instruction.now }
{
    match *instruction {
        FlatInstruction::End(ending) => ended(ending, place, length),
        other => other,
    }
}

// How many instructions a jump to the stub of a status passes over.
fn past_to(status: ReturnStatus, place: u32, length: u32) -> u32
    requires inside { place < length }
    requires room { length < 2 ^ 31 }
    ensures { result ≡ stub_place length status - suc place }
{
    length + 1 + 2 * status.number().saturating_sub(1) - (place + 1)
}

// Puts a routine with jumps to its stubs behind a list.
fn put_with_stubs(
    code: &mut Vec<FlatInstruction>,
    routine: &[FlatInstruction],
) -> Result<(), AllocError>
    requires { length routine.now < 2 ^ 31 }
    ensures { OnOk result (code.new.items ≡ code.old.items ++ with_stubs (length routine.now) 0 routine.now) }
{
    let length = routine.len() as u32;
    let mut place = 0;
    for instruction in routine {
        put(code, with_stub(instruction, place, length))?;
        place += 1;
    }
    Ok(())
}

// Puts the instructions that make the registers from one on 0 behind a list.
fn put_zeros(code: &mut Vec<FlatInstruction>, first: u32) -> Result<(), AllocError>
    requires { first ≤ 254 }
    ensures { OnOk result (code.new.items ≡ code.old.items ++ zeros first cleared_registers) }
{
    for number in 0..CLEARED {
        put(
            code,
            FlatInstruction::Constant {
                into: first + number,
                value: 0,
            },
        )?;
    }
    Ok(())
}

// A routine behind the registers from one on that are made 0.
fn with_zeros(
    alloc: Global,
    routine: &[FlatInstruction],
    status: u32,
) -> Result<Vec<FlatInstruction>, AllocError>
    requires { status ≤ 254 }
    ensures { IfOk result (λ r. r.items ≡ with_zeros routine.now status) }
{
    let mut code = Vec::new(alloc);
    put_zeros(&mut code, status)?;
    code.extend_from_slice(routine)?;
    Ok(code)
}

// Puts the stub of a status behind a list.
fn put_stub(code: &mut Vec<FlatInstruction>, status: u32, number: u64) -> Result<(), AllocError>
    ensures { OnOk result (code.new.items ≡ code.old.items ++ Constant status number ∷ Return status ∷ []) }
{
    put(
        code,
        FlatInstruction::Constant {
            into: status,
            value: number,
        },
    )?;
    put(code, FlatInstruction::Return { from: status })
}

// Puts the return of a routine that went on, and the stubs, behind a list.
fn put_stubs(code: &mut Vec<FlatInstruction>, status: u32) -> Result<(), AllocError>
    ensures { OnOk result (code.new.items ≡ code.old.items ++ Return status ∷ stubs status 1 8) }
{
    put(code, FlatInstruction::Return { from: status })?;
    put_stub(code, status, 1)?;
    put_stub(code, status, 2)?;
    put_stub(code, status, 3)?;
    put_stub(code, status, 4)?;
    put_stub(code, status, 5)?;
    put_stub(code, status, 6)?;
    put_stub(code, status, 7)?;
    put_stub(code, status, 8)?;
    Ok(())
}

// The homes of so many registers, one behind the other.
fn homes(alloc: Global, registers: u32) -> Result<Vec<u32>, AllocError>
    ensures { IfOk result (λ r. r.items ≡ own_homes registers) }
{
    let mut homes = Vec::new(alloc);
    for register in 0..registers {
        put(&mut homes, register)?;
    }
    Ok(homes)
}

/// A routine as a function of the runtime, whose arguments, status and results are consecutive registers. The routine
/// takes its arguments in the first registers, leaves the next alone, and gives its results in those behind it. The
/// function makes the eight registers from the status on 0 first. The only refusal is that memory fails.
pub fn runtime_function(
    alloc: Global,
    routine: &[FlatInstruction],
    frame: RuntimeFrame,
) -> Result<FlatFunction, AllocError>
    requires routine { length routine.now + cleared_registers < 2 ^ 31 }
    requires registers { frame.registers ≤ 254 }
    requires results { frame.parameters + 1 + frame.results ≤ frame.registers }
    requires cleared { frame.parameters + cleared_registers ≤ frame.registers }
    ensures function { IfOk result (λ f. IsRuntimeFunction routine.now frame.parameters frame.results f) }
    ensures record { IfOk result (λ f. f.room ≡ 16 + 8 * frame.registers) }
    ensures homes { IfOk result (λ f. f.homes ≡ own_homes frame.registers) }
{
    let whole = with_zeros(alloc, routine, frame.parameters)?;
    let mut body = Vec::new(alloc);
    put_with_stubs(&mut body, &whole)?;
    put_stubs(&mut body, frame.parameters)?;
    let homes = homes(alloc, frame.registers)?;
    Ok(FlatFunction {
        parameters: frame.parameters,
        results: frame.results + 1,
        room: u64::from(16 + 8 * frame.registers),
        is_runtime: true,
        homes: Items::from_vec(homes),
        body: Items::from_vec(body),
    })
}
