//! Calls and returns: arguments and results go through their words, and what is wanted behind a call waits in its
//! home.

ghost use Rattle.std.specs.Prelude.{◌≡◌, ◌+◌, ◌*◌, ◌%◌, ◌<◌, ◌≤◌, ◌^◌, ◌++◌, ◌∷◌, []};
ghost use Rattle.std.specs.Prelude.{if◌then◌else◌, OnOk, length};
ghost use Rattle.flat_code.specs.Calls.{record_bytes};
ghost use Rattle.reg_plan.specs.Effects.{is_among, many};
ghost use Rattle.reg_plan.specs.Order.{IsLookup};
ghost use Rattle.reg_plan.specs.Saves.Saves.{saved_below};
ghost use Rattle.rv_isa.specs.declared.instruction.ImmOp.TheVariants.{Addi};
ghost use Rattle.rv_isa.specs.declared.instruction.Instr.TheVariants.{Jalr, Op, OpImm};
ghost use Rattle.machine_laws.specs.Blocks.Blocks.{constant, used, keep, load_at, store_at, fetch};
ghost use Rattle.machine_laws.specs.Blocks.Places.{location, frame_register, argument_words, left_scratch};
ghost use Rattle.machine_laws.specs.Blocks.Places.{right_scratch};
ghost use Rattle.machine_laws.specs.Blocks.Places.{callee_scratch};
ghost use Rattle.machine_laws.specs.Calls.Calls.{give, take, save, restore, back_block, entry_block, return_block};
ghost use Rattle.machine_laws.specs.Calls.Calls.{advance, retreat};
ghost use Rattle.machine_laws.specs.Following.Code.{wanted};
ghost use Rattle.rv_codegen.specs.EmittedCode.Kept.{kept_by, call_of};
ghost use Rattle.rv_codegen.specs.EmittedCode.Saving.{save_unless, restore_unless};

use crate::emission::constants::{addi, put_constant, put_load_at, put_store_at};
use crate::emission::values::{
    frame_register, left_scratch, put_fetch, put_keep, put_restore, put_save, right_scratch, used,
};
use flat_code::FlatFunction;
use reg_plan::{FunctionPlan, LiveLookup, record_bytes};
use rv_isa::{Imm12, Instr, Reg, RegOp};
use std::alloc::AllocError;

// The register of the first address of the words of arguments.
pub(crate) fn argument_words() -> Reg
    ensures { result ≡ argument_words }
{
    Reg::new(3)
}

/// Whether a virtual register is live before an instruction of the function.
pub(crate) fn is_live(
    function: &FlatFunction,
    plan: &FunctionPlan,
    live: LiveLookup,
    place: u64,
    register: u64,
) -> bool
    requires { IsLookup live plan.now }
    ensures { result ≡ (kept_by function.now plan.now).live place register }
{
    place < function.body.as_slice().len() as u64 && live.is_live(plan, place, register)
}

// Puts what brings one value to its word of arguments.
fn put_give_one(
    code: &mut Vec<Instr>,
    function: &FlatFunction,
    plan: &FunctionPlan,
    register: u64,
    word: u64,
) -> Result<(), AllocError>
    requires { word < 2 ^ 32 }
    ensures { OnOk result
        (code.new.items ≡ code.old.items
        ++ (fetch (location function.now plan.now register) (frame_register function.now) left_scratch
        ++ store_at (used (location function.now plan.now register) left_scratch) argument_words (8 * word))) }
{
    put_fetch(code, function, plan, register, left_scratch())?;
    let from = used(function, plan, register, left_scratch());
    put_store_at(code, from, argument_words(), 8 * word)
}

// Puts what brings so many values, from one on, to the words of arguments.
#[tactic(auto, unfolding(machine_laws::specs::Calls::Calls::give))]
fn put_give(
    code: &mut Vec<Instr>,
    function: &FlatFunction,
    plan: &FunctionPlan,
    first: u32,
    count: u32,
) -> Result<(), AllocError>
    ensures { OnOk result (code.new.items ≡ code.old.items ++ give (kept_by function.now plan.now) first count) }
{
    for word in 0..count {
        let register = u64::from(first) + u64::from(word);
        put_give_one(code, function, plan, register, u64::from(word))?;
    }
    Ok(())
}

// Puts what brings one value from its word of arguments to its place.
fn put_take_one(
    code: &mut Vec<Instr>,
    function: &FlatFunction,
    plan: &FunctionPlan,
    register: u64,
    word: u64,
) -> Result<(), AllocError>
    requires { word < 2 ^ 32 }
    ensures { OnOk result
        (code.new.items ≡ code.old.items
        ++ (load_at (used (location function.now plan.now register) left_scratch) argument_words (8 * word)
        ++ keep (location function.now plan.now register) (frame_register function.now) left_scratch)) }
{
    let into = used(function, plan, register, left_scratch());
    put_load_at(code, into, argument_words(), 8 * word)?;
    put_keep(code, function, plan, register, left_scratch())
}

// Puts it where the value is live before an instruction.
#[tactic(auto, using(crate::proofs::EmittedCode::Lists::nothing_behind))]
fn put_take_if_live(
    code: &mut Vec<Instr>,
    function: &FlatFunction,
    plan: &FunctionPlan,
    live: LiveLookup,
    place: u64,
    register: u64,
    word: u64,
) -> Result<(), AllocError>
    requires word { word < 2 ^ 32 }
    requires live { IsLookup live plan.now }
    ensures { OnOk result
        (code.new.items ≡ code.old.items
        ++ (if (kept_by function.now plan.now).live place register
        then load_at (used (location function.now plan.now register) left_scratch) argument_words (8 * word)
        ++ keep (location function.now plan.now register) (frame_register function.now) left_scratch
        else [])) }
{
    if is_live(function, plan, live, place, register) {
        return put_take_one(code, function, plan, register, word);
    }
    Ok(())
}

// Puts what brings those of so many values, from one on, that are live before an instruction from the words of
// arguments.
#[tactic(auto, unfolding(machine_laws::specs::Calls::Calls::take))]
fn put_take(
    code: &mut Vec<Instr>,
    function: &FlatFunction,
    plan: &FunctionPlan,
    live: LiveLookup,
    place: u64,
    first: u32,
    count: u32,
) -> Result<(), AllocError>
    requires { IsLookup live plan.now }
    ensures { OnOk result (code.new.items ≡ code.old.items ++ take (kept_by function.now plan.now) place first count) }
{
    for word in 0..count {
        let register = u64::from(first) + u64::from(word);
        put_take_if_live(code, function, plan, live, place, register, u64::from(word))?;
    }
    Ok(())
}

// Where the results of a call go: so many virtual registers, from one on.
#[derive(Clone, Copy)]
pub(crate) struct Results {
    pub into: u32,
    pub count: u32,
}

// The arguments of a call: the values of so many virtual registers, from one on.
#[derive(Clone, Copy)]
pub(crate) struct Arguments {
    pub first: u32,
    pub count: u32,
}

// Where a function is called: the place of the call, its arguments and results, the virtual registers that it saves,
// and how the caller's plan is looked up.
#[derive(Clone, Copy)]
pub(crate) struct CallSite<'a> {
    pub place: u64,
    pub arguments: Arguments,
    pub results: Results,
    pub saved: &'a [u64],
    pub live: LiveLookup,
}

// The register for the address of a function that is called.
pub(crate) fn callee_scratch() -> Reg
    ensures { result ≡ callee_scratch }
{
    Reg::new(28)
}

// Whether a virtual register is one of the results of a call.
fn is_result(results: Results, register: u64) -> bool
    ensures { result ≡ is_among (many results.into results.count) register }
{
    let first = u64::from(results.into);
    first <= register && register < first + u64::from(results.count)
}

// Puts what brings a value to its home, unless it is a result of a call.
#[tactic(auto, using(crate::proofs::EmittedCode::Lists::nothing_behind))]
fn put_save_unless_result(
    code: &mut Vec<Instr>,
    function: &FlatFunction,
    plan: &FunctionPlan,
    results: Results,
    register: u64,
) -> Result<(), AllocError>
    ensures { OnOk result
        (code.new.items ≡ code.old.items
        ++ save_unless (kept_by function.now plan.now) results.into results.count register) }
{
    if is_result(results, register) {
        return Ok(());
    }
    put_save(code, function, plan, register)
}

// Puts what brings it back from there.
#[tactic(auto, using(crate::proofs::EmittedCode::Lists::nothing_behind))]
fn put_restore_unless_result(
    code: &mut Vec<Instr>,
    function: &FlatFunction,
    plan: &FunctionPlan,
    results: Results,
    register: u64,
) -> Result<(), AllocError>
    ensures { OnOk result
        (code.new.items ≡ code.old.items
        ++ restore_unless (kept_by function.now plan.now) results.into results.count register) }
{
    if is_result(results, register) {
        return Ok(());
    }
    put_restore(code, function, plan, register)
}

// Puts what brings all values that are wanted behind a call to their homes, of which those in registers are given.
fn put_saves(
    code: &mut Vec<Instr>,
    function: &FlatFunction,
    plan: &FunctionPlan,
    place: u64,
    results: Results,
    saved: &[u64],
) -> Result<(), AllocError>
    requires { saved.now ≡ saved_below function.now plan.now place (length plan.now.live.items) }
    ensures { OnOk result
        (code.new.items ≡ code.old.items
        ++ save (kept_by function.now plan.now)
        (wanted (kept_by function.now plan.now) place results.into results.count)
        (kept_by function.now plan.now).count) }
{
    for register in saved {
        put_save_unless_result(code, function, plan, results, *register)?;
    }
    Ok(())
}

// Puts what brings them back.
fn put_restores(
    code: &mut Vec<Instr>,
    function: &FlatFunction,
    plan: &FunctionPlan,
    place: u64,
    results: Results,
    saved: &[u64],
) -> Result<(), AllocError>
    requires { saved.now ≡ saved_below function.now plan.now place (length plan.now.live.items) }
    ensures { OnOk result
        (code.new.items ≡ code.old.items
        ++ restore (kept_by function.now plan.now)
        (wanted (kept_by function.now plan.now) place results.into results.count)
        (kept_by function.now plan.now).count) }
{
    for register in saved {
        put_restore_unless_result(code, function, plan, results, *register)?;
    }
    Ok(())
}

// Puts what adds the low twelve bits of a number, with their sign, to the register of the activation record.
fn put_near_move(
    code: &mut Vec<Instr>,
    function: &FlatFunction,
    number: u64,
) -> Result<(), AllocError>
    ensures { OnOk result
        (code.new.items ≡ code.old.items
        ++ OpImm Addi (frame_register function.now) (frame_register function.now) (number % 2 ^ 12) ∷ []) }
{
    let base = frame_register(function);
    code.push(addi(base, base, number % 0x1000))?;
    Ok(())
}

// Puts what adds the bytes of the activation record of a function to the register of that record, or subtracts them, by
// two instructions or more.
fn put_far_move(code: &mut Vec<Instr>, function: &FlatFunction, op: RegOp) -> Result<(), AllocError>
    ensures { OnOk result
        (code.new.items ≡ code.old.items
        ++ (constant right_scratch (record_bytes function.now)
        ++ Op op (frame_register function.now) (frame_register function.now) right_scratch ∷ [])) }
{
    put_constant(code, right_scratch(), record_bytes(function))?;
    let base = frame_register(function);
    code.push(Instr::Op {
        op,
        rd: base,
        rs1: base,
        rs2: right_scratch(),
    })?;
    Ok(())
}

// Puts what moves the register of the activation record behind that of the function.
#[tactic(auto, unfolding(machine_laws::specs::Calls::Calls::advance))]
fn put_advance(
    code: &mut Vec<Instr>,
    function: &FlatFunction,
    plan: &FunctionPlan,
) -> Result<(), AllocError>
    ensures { OnOk result (code.new.items ≡ code.old.items ++ advance (kept_by function.now plan.now)) }
{
    let bytes = record_bytes(function);
    if bytes < 0x800 {
        return put_near_move(code, function, bytes as u64);
    }
    put_far_move(code, function, RegOp::Add)
}

// Puts what moves it back.
#[tactic(auto, unfolding(machine_laws::specs::Calls::Calls::retreat))]
fn put_retreat(
    code: &mut Vec<Instr>,
    function: &FlatFunction,
    plan: &FunctionPlan,
) -> Result<(), AllocError>
    ensures { OnOk result (code.new.items ≡ code.old.items ++ retreat (kept_by function.now plan.now)) }
{
    let bytes = record_bytes(function);
    if bytes < 0x800 {
        return put_near_move(code, function, 0x1000 - bytes as u64);
    }
    put_far_move(code, function, RegOp::Sub)
}

// JALR without an offset.
pub(crate) fn jump_to(link: Reg, target: Reg) -> Instr
    ensures { result ≡ Jalr link target 0 }
{
    Instr::Jalr {
        rd: link,
        rs1: target,
        imm: Imm12::new(0),
    }
}

// Puts what stands before a callee's address is found: what is wanted is saved, and the arguments are handed over.
fn put_hand_over(
    code: &mut Vec<Instr>,
    function: &FlatFunction,
    plan: &FunctionPlan,
    site: &CallSite,
) -> Result<(), AllocError>
    requires place { site.now.place < 2 ^ 63 }
    requires saved { site.now.saved.now
        ≡ saved_below function.now plan.now site.now.place (length plan.now.live.items) }
    ensures { OnOk result
        (code.new.items ≡ code.old.items
        ++ (save (kept_by function.now plan.now)
        (wanted (kept_by function.now plan.now) site.now.place site.now.results.into site.now.results.count)
        (kept_by function.now plan.now).count
        ++ give (kept_by function.now plan.now) site.now.arguments.first site.now.arguments.count)) }
{
    put_saves(code, function, plan, site.place, site.results, site.saved)?;
    put_give(
        code,
        function,
        plan,
        site.arguments.first,
        site.arguments.count,
    )
}

// Puts what stands behind that: the next activation record begins, and the callee is jumped to.
fn put_jump(
    code: &mut Vec<Instr>,
    function: &FlatFunction,
    plan: &FunctionPlan,
    target: Reg,
) -> Result<(), AllocError>
    ensures { OnOk result
        (code.new.items ≡ code.old.items ++ (advance (kept_by function.now plan.now) ++ Jalr 1 target 0 ∷ [])) }
{
    put_advance(code, function, plan)?;
    code.push(jump_to(Reg::RA, target))?;
    Ok(())
}

// Puts where the callee comes back to.
fn put_back(
    code: &mut Vec<Instr>,
    function: &FlatFunction,
    plan: &FunctionPlan,
    site: &CallSite,
) -> Result<(), AllocError>
    requires place { site.now.place < 2 ^ 63 }
    requires saved { site.now.saved.now
        ≡ saved_below function.now plan.now site.now.place (length plan.now.live.items) }
    requires live { IsLookup site.now.live plan.now }
    ensures { OnOk result
        (code.new.items ≡ code.old.items
        ++ back_block (kept_by function.now plan.now)
        (wanted (kept_by function.now plan.now) site.now.place site.now.results.into site.now.results.count)
        (site.now.place + 1) site.now.results.into site.now.results.count) }
{
    put_retreat(code, function, plan)?;
    put_restores(code, function, plan, site.place, site.results, site.saved)?;
    put_take(
        code,
        function,
        plan,
        site.live,
        site.place + 1,
        site.results.into,
        site.results.count,
    )
}

/// Puts a call of the function whose entry of the jump table has an address.
pub(crate) fn put_call(
    code: &mut Vec<Instr>,
    function: &FlatFunction,
    plan: &FunctionPlan,
    site: &CallSite,
    callee: u64,
) -> Result<(), AllocError>
    requires place { site.now.place < 2 ^ 63 }
    requires saved { site.now.saved.now
        ≡ saved_below function.now plan.now site.now.place (length plan.now.live.items) }
    requires live { IsLookup site.now.live plan.now }
    ensures { OnOk result
        (code.new.items ≡ code.old.items
        ++ call_of (kept_by function.now plan.now) site.now.place site.now.arguments.first site.now.arguments.count
        site.now.results.into site.now.results.count
        (constant callee_scratch callee) callee_scratch) }
{
    put_hand_over(code, function, plan, site)?;
    put_constant(code, callee_scratch(), u128::from(callee))?;
    put_jump(code, function, plan, callee_scratch())?;
    put_back(code, function, plan, site)
}

/// Puts a call of the function whose address a virtual register has.
pub(crate) fn put_call_address(
    code: &mut Vec<Instr>,
    function: &FlatFunction,
    plan: &FunctionPlan,
    site: &CallSite,
    address: u32,
) -> Result<(), AllocError>
    requires place { site.now.place < 2 ^ 63 }
    requires saved { site.now.saved.now
        ≡ saved_below function.now plan.now site.now.place (length plan.now.live.items) }
    requires live { IsLookup site.now.live plan.now }
    ensures { OnOk result
        (code.new.items ≡ code.old.items
        ++ call_of (kept_by function.now plan.now) site.now.place site.now.arguments.first site.now.arguments.count
        site.now.results.into site.now.results.count
        (fetch (location function.now plan.now address) (frame_register function.now) callee_scratch)
        (used (location function.now plan.now address) callee_scratch)) }
{
    put_hand_over(code, function, plan, site)?;
    put_fetch(code, function, plan, u64::from(address), callee_scratch())?;
    put_jump(
        code,
        function,
        plan,
        used(function, plan, u64::from(address), callee_scratch()),
    )?;
    put_back(code, function, plan, site)
}

/// Puts a return of so many results from one on, and the jump back.
pub(crate) fn put_return(
    code: &mut Vec<Instr>,
    function: &FlatFunction,
    plan: &FunctionPlan,
    from: u32,
) -> Result<(), AllocError>
    ensures { OnOk result
        (code.new.items ≡ code.old.items
        ++ (return_block (kept_by function.now plan.now) from function.now.results ++ (Jalr 0 1 0 ∷ []))) }
{
    put_give(code, function, plan, from, function.results)?;
    put_load_at(code, Reg::RA, frame_register(function), 0)?;
    code.push(jump_to(Reg::ZERO, Reg::RA))?;
    Ok(())
}

/// Puts the first instructions of a function, before those of its body.
pub(crate) fn put_entry_of(
    code: &mut Vec<Instr>,
    function: &FlatFunction,
    plan: &FunctionPlan,
) -> Result<(), AllocError>
    ensures { OnOk result
        (code.new.items ≡ code.old.items ++ entry_block (kept_by function.now plan.now) function.now.parameters) }
{
    put_store_at(code, Reg::RA, frame_register(function), 0)?;
    let live = LiveLookup::new(plan);
    put_take(code, function, plan, live, 0, 0, function.parameters)
}
