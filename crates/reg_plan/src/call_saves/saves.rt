//! Tables of what the calls of a function save.

ghost use Rattle.std.specs.Prelude.{◌≡◌, ◌<◌, ℕ, [], IfOk, length, slice_get, true, if◌then◌else◌};
ghost use Rattle.flat_code.specs.Calls.{function_in};
ghost use Rattle.flat_code.specs.Meaning.{body_of};
ghost use Rattle.reg_plan.specs.Saves.Saves.{is_call, is_call_at, items_of, calls_before, saved_below, row_at};
ghost use Rattle.reg_plan.specs.Saves.Saves.{HasSaves, Counts};

use crate::FunctionPlan;
use crate::call_saves::rows::put_register;
use flat_code::{FlatFunction, FlatInstruction, FlatProgram};
use std::alloc::{AllocError, Global};

/// What each call of a function saves under its plan: the virtual registers that are kept in registers of the machine
/// and are live behind it, ascending.
#[derive(Drop)]
pub struct CallSaves {
    /// How many calls stand before each instruction, and before the end.
    before: Vec<usize>,
    /// The virtual registers, for each call.
    rows: Vec<Vec<u64>>,
}

impl CallSaves {
    /// What the call at a place saves; none where no row is there.
    pub fn at(&self, place: u64) -> &[u64]
        ensures { result.now ≡ row_at self.now place }
    {
        match self.before.get(place as usize) {
            Some(number) => row(&self.rows, *number),
            None => &[],
        }
    }
}

// A row; none where it is not there.
fn row(rows: &[Vec<u64>], number: usize) -> &[u64]
    ensures { result.now ≡ items_of (slice_get rows.now number) }
{
    match rows.get(number) {
        Some(row) => row.as_slice(),
        None => &[],
    }
}

// 1 for a call, and 0 for any other instruction.
fn counted(instruction: &FlatInstruction) -> usize
    ensures { result ≡ (if is_call instruction.now then 1 else 0) }
{
    match *instruction {
        FlatInstruction::Call { .. } | FlatInstruction::CallAddress { .. } => 1,
        _ => 0,
    }
}

// How many calls stand before each place of a function.
fn calls_before(alloc: Global, body: &[FlatInstruction]) -> Result<Vec<usize>, AllocError>
    ensures { IfOk result (λ before. Counts before.items body.now) }
{
    let mut before = vec![in alloc; 0]?;
    let mut count = 0usize;
    for place in 0..body.len() {
        count += counted(&body[place]);
        before.push(count)?;
    }
    Ok(before)
}

// So many empty rows.
fn empty_rows(alloc: Global, count: usize) -> Result<Vec<Vec<u64>>, AllocError>
    ensures size { IfOk result (λ rows. length rows.items ≡ count) }
    ensures empty { IfOk result (λ rows. (k : ℕ) → items_of (slice_get rows.items k) ≡ []) }
{
    let mut rows = Vec::new(alloc);
    for _ in 0..count {
        rows.push(Vec::new(alloc))?;
    }
    Ok(rows)
}

// The rows of all calls.
fn rows_of(
    alloc: Global,
    before: &[usize],
    function: &FlatFunction,
    plan: &FunctionPlan,
) -> Result<Vec<Vec<u64>>, AllocError>
    requires { Counts before.now function.now.body }
    ensures { IfOk result (λ rows. (pc : ℕ) → is_call_at function.now.body pc ≡ true
        → items_of (slice_get rows.items (calls_before function.now.body pc))
        ≡ saved_below function.now plan.now pc (length plan.now.live.items)) }
{
    let mut rows = empty_rows(alloc, before[function.body.as_slice().len()])?;
    for register in 0..plan.live.len() {
        put_register(&mut rows, before, function, plan, register)?;
    }
    Ok(rows)
}

/// What the calls of the function with a number save under its plan. It takes time for the instructions, the live
/// ranges' intervals, and what is saved.
pub fn call_saves(
    alloc: Global,
    program: &FlatProgram,
    plans: &[FunctionPlan],
    number: u32,
) -> Result<CallSaves, AllocError>
    requires function { number < length program.now.functions }
    requires plan { number < length plans.now }
    ensures { IfOk result
        (λ table. HasSaves table program.now plans.now number (body_of (function_in program.now number))) }
{
    let function = &program.functions.as_slice()[number as usize];
    let plan = &plans[number as usize];
    let before = calls_before(alloc, function.body.as_slice())?;
    let rows = rows_of(alloc, &before, function, plan)?;
    Ok(CallSaves { before, rows })
}
