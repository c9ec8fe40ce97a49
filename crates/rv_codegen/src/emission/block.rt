//! The instructions that stand for an instruction of flat code.

ghost use Rattle.std.specs.Prelude.{◌≡◌, ◌+◌, ◌-◌, ◌*◌, ◌<◌, ◌^◌, ◌++◌, [], true, false, length, Some, OnOk};
ghost use Rattle.std.specs.Prelude.{if◌then◌else◌};
ghost use Rattle.reg_plan.specs.Effects.{makes_only};
ghost use Rattle.reg_plan.specs.Order.{IsLookup, IsLookupAt};
ghost use Rattle.reg_plan.specs.Saves.Saves.{is_call, saved_below, saved_at};
ghost use Rattle.addr_map.specs.Places.{region_start};
ghost use Rattle.addr_map.specs.declared.region.Region.TheVariants.{Calls};
ghost use Rattle.flat_code.specs.Calls.{function_in, room_if};
ghost use Rattle.flat_code.specs.Meaning.{parameters_of, results_of};
ghost use Rattle.machine_laws.specs.Blocks.Blocks.{local_block, used, used_right};
ghost use Rattle.machine_laws.specs.Blocks.Places.{location, frame_register, left_scratch};
ghost use Rattle.machine_laws.specs.Following.Code.{block, keeping, is_unneeded};
ghost use Rattle.machine_laws.specs.Calls.Calls.{entry_block};
ghost use Rattle.machine_laws.specs.Calls.Table.{source_count};
ghost use Rattle.rv_codegen.specs.EmittedCode.Kept.{block_of, kept_by};

use crate::emission::calls::{
    Arguments, CallSite, Results, is_live, put_call, put_call_address, put_entry_of, put_return,
};
use crate::emission::endings::put_end;
use crate::emission::local::{
    put_charged, put_exit, put_get, put_load, put_move, put_nothing, put_number, put_operate,
    put_operate32, put_put, put_store,
};
use crate::emission::table::{row_address, tails_address};
use crate::emission::values::{self, put_operands};
use addr_map::{AddrMap, Region};
use flat_code::{FlatFunction, FlatInstruction, FlatProgram, RightOperand};
use reg_plan::effects::makes_only;
use reg_plan::{FunctionPlan, LiveLookup};
use rv_isa::{Instr, Reg};
use std::alloc::AllocError;

/// A function of a program, by its number, under the plans of all functions. Before the start stand the entries of
/// `sources` functions.
#[derive(Clone, Copy)]
pub struct PlannedFunction<'a> {
    pub program: &'a FlatProgram,
    pub plans: &'a [FunctionPlan],
    pub sources: u32,
    pub number: u32,
}

/// An instruction of a function at its place, the virtual registers that it saves where it is a call, and how the
/// function's plan is looked up.
#[derive(Clone, Copy)]
pub struct PlacedInstruction<'a> {
    pub place: u32,
    pub instruction: &'a FlatInstruction,
    pub saved: &'a [u64],
    pub live: LiveLookup,
}

// How many arguments a function takes; 0 where there is no such function.
fn parameters(program: &FlatProgram, function: u32) -> u32
    ensures { result ≡ parameters_of (function_in program.now function) }
{
    match program.functions.as_slice().get(function as usize) {
        Some(callee) => callee.parameters,
        None => 0,
    }
}

// How many results it gives.
fn results(program: &FlatProgram, function: u32) -> u32
    ensures { result ≡ results_of (function_in program.now function) }
{
    match program.functions.as_slice().get(function as usize) {
        Some(callee) => callee.results,
        None => 0,
    }
}

// Where the first activation record of the program begins, less twice what a function is charged.
fn charged_from(map: &AddrMap, function: &FlatFunction) -> u64
    ensures { result ≡ region_start map.now Calls - 2 * room_if false (Some function.now) }
{
    let begin = map.region(Region::Calls).0;
    if function.is_runtime {
        begin
    } else {
        begin
            .saturating_sub(function.room)
            .saturating_sub(function.room)
    }
}

// Puts the instructions that stand for one that stays in its function.
#[tactic(auto, using(crate::proofs::EmittedCode::Lists::nothing_behind))]
fn put_local(
    code: &mut Vec<Instr>,
    function: &FlatFunction,
    plan: &FunctionPlan,
    begin: u64,
    instruction: &FlatInstruction,
) -> Result<(), AllocError>
    ensures { OnOk result
        (code.new.items ≡ code.old.items
        ++ local_block (location function.now plan.now) (frame_register function.now) begin instruction.now) }
{
    match *instruction {
        FlatInstruction::Constant { into, value } => put_number(code, function, plan, into, value),
        FlatInstruction::Move { into, from } => put_move(code, function, plan, into, from),
        FlatInstruction::Operate {
            op,
            into,
            left,
            right,
        } => put_operate(code, function, plan, op, into, left, right),
        FlatInstruction::Operate32 {
            op,
            into,
            left,
            right,
        } => put_operate32(code, function, plan, op, into, left, right),
        FlatInstruction::Load {
            op,
            into,
            at,
            offset,
        } => put_load(code, function, plan, op, into, at, offset),
        FlatInstruction::Store {
            op,
            at,
            offset,
            from,
        } => put_store(code, function, plan, op, at, offset, from),
        FlatInstruction::Branch { left, right, .. } => {
            put_operands(code, function, plan, left, right)
        }
        FlatInstruction::Turn => put_nothing(code),
        FlatInstruction::Get { into } => put_get(code, function, plan, into),
        FlatInstruction::Put { from } => put_put(code, function, plan, from),
        FlatInstruction::Exit { status } => put_exit(code, function, plan, status),
        FlatInstruction::Charged { into } => put_charged(code, function, plan, into, begin),
        _ => Ok(()),
    }
}

// Whether all that an instruction changes is a value that is not needed behind it.
fn is_unneeded(function: &FlatFunction, plan: &FunctionPlan, placed: &PlacedInstruction) -> bool
    requires { IsLookup placed.now.live plan.now }
    ensures { result
        ≡ is_unneeded (kept_by function.now plan.now) placed.now.place (makes_only placed.now.instruction.now) }
{
    match makes_only(placed.instruction) {
        Some(register) => !is_live(
            function,
            plan,
            placed.live,
            u64::from(placed.place) + 1,
            u64::from(register),
        ),
        None => false,
    }
}

// Puts the instructions that stand for one that stays in its function, unless its value is not needed.
#[tactic(auto, using(crate::proofs::EmittedCode::Lists::nothing_behind))]
fn put_needed(
    code: &mut Vec<Instr>,
    function: &FlatFunction,
    plan: &FunctionPlan,
    begin: u64,
    placed: &PlacedInstruction,
) -> Result<(), AllocError>
    requires { IsLookup placed.now.live plan.now }
    ensures { OnOk result
        (code.new.items ≡ code.old.items
        ++ (if is_unneeded (kept_by function.now plan.now) placed.now.place (makes_only placed.now.instruction.now)
        then []
        else local_block (location function.now plan.now) (frame_register function.now) begin
        placed.now.instruction.now)) }
{
    if is_unneeded(function, plan, placed) {
        return Ok(());
    }
    put_local(code, function, plan, begin, placed.instruction)
}

// Puts the instructions that stand for one of a function under its plan.
fn put_block_in(
    code: &mut Vec<Instr>,
    program: &FlatProgram,
    sources: u32,
    function: &FlatFunction,
    plan: &FunctionPlan,
    begin: u64,
    placed: &PlacedInstruction,
) -> Result<(), AllocError>
    requires sources { sources ≡ source_count program.now }
    requires saved { is_call placed.now.instruction.now ≡ true
        → placed.now.saved.now ≡ saved_below function.now plan.now placed.now.place (length plan.now.live.items) }
    requires live { IsLookup placed.now.live plan.now }
    ensures { OnOk result
        (code.new.items ≡ code.old.items
        ++ block_of program.now function.now plan.now begin placed.now.place placed.now.instruction.now) }
{
    match *placed.instruction {
        FlatInstruction::Call {
            function: callee,
            first,
            into,
        } => {
            let site = CallSite {
                place: u64::from(placed.place),
                arguments: Arguments {
                    first,
                    count: parameters(program, callee),
                },
                results: Results {
                    into,
                    count: results(program, callee),
                },
                saved: placed.saved,
                live: placed.live,
            };
            put_call(
                code,
                function,
                plan,
                &site,
                row_address(program, sources, callee),
            )
        }
        FlatInstruction::CallAddress {
            at,
            first,
            count,
            into,
            results,
        } => {
            let site = CallSite {
                place: u64::from(placed.place),
                arguments: Arguments { first, count },
                results: Results {
                    into,
                    count: results,
                },
                saved: placed.saved,
                live: placed.live,
            };
            put_call_address(code, function, plan, &site, at)
        }
        FlatInstruction::Return { from } => put_return(code, function, plan, from),
        FlatInstruction::End(ending) => put_end(code, tails_address(sources), &ending),
        _ => put_needed(code, function, plan, begin, placed),
    }
}

/// Puts the instructions that stand for an instruction of a function, but for its jump or branch, behind a list.
#[tactic(auto, unfolding(machine_laws::specs::Following::Code::block, machine_laws::specs::Following::Code::keeping, reg_plan::specs::Saves::Saves::saved_at))]
pub fn put_block(
    code: &mut Vec<Instr>,
    map: &AddrMap,
    planned: &PlannedFunction,
    placed: &PlacedInstruction,
) -> Result<(), AllocError>
    requires function { planned.now.number < length planned.now.program.now.functions }
    requires plan { planned.now.number < length planned.now.plans.now }
    requires sources { planned.now.sources ≡ source_count planned.now.program.now }
    requires saved { is_call placed.now.instruction.now ≡ true → placed.now.saved.now
        ≡ saved_at planned.now.program.now planned.now.plans.now planned.now.number placed.now.place }
    requires live { IsLookupAt placed.now.live planned.now.plans.now planned.now.number }
    ensures { OnOk result
        (code.new.items ≡ code.old.items
        ++ block map.now planned.now.program.now planned.now.plans.now planned.now.number placed.now.place
        placed.now.instruction.now) }
{
    let function = &planned.program.functions.as_slice()[planned.number as usize];
    let plan = &planned.plans[planned.number as usize];
    let begin = charged_from(map, function);
    put_block_in(
        code,
        planned.program,
        planned.sources,
        function,
        plan,
        begin,
        placed,
    )
}

/// Puts the first instructions of a function, before those of its body: its return address and its arguments are
/// kept.
#[tactic(auto, unfolding(machine_laws::specs::Following::Code::keeping))]
pub fn put_entry(
    code: &mut Vec<Instr>,
    program: &FlatProgram,
    plans: &[FunctionPlan],
    number: u32,
) -> Result<(), AllocError>
    requires function { number < length program.now.functions }
    requires plan { number < length plans.now }
    ensures { OnOk result
        (code.new.items ≡ code.old.items
        ++ entry_block (keeping program.now plans.now number) (parameters_of (function_in program.now number))) }
{
    let function = &program.functions.as_slice()[number as usize];
    put_entry_of(code, function, &plans[number as usize])
}

/// The register in which the left operand of a branch is found, behind its instructions.
#[tactic(auto, unfolding(machine_laws::specs::Following::Code::keeping))]
pub fn left_register(
    program: &FlatProgram,
    plans: &[FunctionPlan],
    number: u32,
    operand: u32,
) -> Reg
    requires function { number < length program.now.functions }
    requires plan { number < length plans.now }
    ensures { result ≡ used ((keeping program.now plans.now number).place operand) left_scratch }
{
    let function = &program.functions.as_slice()[number as usize];
    values::used(
        function,
        &plans[number as usize],
        u64::from(operand),
        values::left_scratch(),
    )
}

/// The register in which its right operand is found.
#[tactic(auto, unfolding(machine_laws::specs::Following::Code::keeping))]
pub fn right_register(
    program: &FlatProgram,
    plans: &[FunctionPlan],
    number: u32,
    operand: RightOperand,
) -> Reg
    requires function { number < length program.now.functions }
    requires plan { number < length plans.now }
    ensures { result ≡ used_right (keeping program.now plans.now number).place operand }
{
    let function = &program.functions.as_slice()[number as usize];
    values::used_right(function, &plans[number as usize], operand)
}
