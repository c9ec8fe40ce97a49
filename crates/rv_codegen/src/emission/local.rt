//! Instructions that stay in their function.

ghost use Rattle.std.specs.Prelude.{◌≡◌, ◌+◌, ◌-◌, ◌<◌, ◌≤◌, ◌^◌, ◌%◌, ◌++◌, ◌∷◌, []};
ghost use Rattle.std.specs.Prelude.{OnOk};
ghost use Rattle.rv_isa.specs.declared.instruction.ImmOp.TheVariants.{Addi};
ghost use Rattle.rv_isa.specs.declared.instruction.Instr.TheVariants.{OpImm};
ghost use Rattle.flat_code.specs.declared.instruction.FlatInstruction.TheVariants as flat;
ghost use Rattle.machine_laws.specs.Blocks.Blocks.{move_block, charged_block, asks, received_block, sent_block};
ghost use Rattle.machine_laws.specs.Blocks.Blocks.{exit_block, local_block};
ghost use Rattle.machine_laws.specs.Blocks.Blocks.{fetch, keep, operator_block, used};
ghost use Rattle.machine_laws.specs.Blocks.Places.{location, frame_register, left_scratch};

use crate::emission::calls::argument_words;
use crate::emission::constants::{addi, put_constant};
use crate::emission::immediates::{immediate_of, immediate32_of};
use crate::emission::values::{
    frame_register, is_same_place, left_scratch, put_fetch, put_keep, put_operands, right_scratch,
    used, used_right,
};
use flat_code::{FlatFunction, RightOperand};
use reg_plan::FunctionPlan;
use rv_isa::{Imm12, Instr, LoadOp, Reg, RegOp, RegOp32, ShiftAmount, ShiftOp, StoreOp};
use std::alloc::AllocError;

/// Puts a number into a virtual register.
pub(crate) fn put_number(
    code: &mut Vec<Instr>,
    function: &FlatFunction,
    plan: &FunctionPlan,
    into: u32,
    value: u64,
) -> Result<(), AllocError>
    ensures { OnOk result
        (code.new.items ≡ code.old.items
        ++ local_block (location function.now plan.now) (frame_register function.now) 0 (flat.Constant into value)) }
{
    put_constant(
        code,
        used(function, plan, u64::from(into), left_scratch()),
        u128::from(value),
    )?;
    put_keep(code, function, plan, u64::from(into), left_scratch())
}

/// Puts an instruction that does nothing.
pub(crate) fn put_nothing(code: &mut Vec<Instr>) -> Result<(), AllocError>
    ensures { OnOk result (code.new.items ≡ code.old.items ++ OpImm Addi 0 0 0 ∷ []) }
{
    code.push(addi(Reg::ZERO, Reg::ZERO, 0))?;
    Ok(())
}

/// Puts a copy of a value, unless both are kept in one place.
#[tactic(auto, using(crate::proofs::EmittedCode::Lists::nothing_behind))]
pub(crate) fn put_move(
    code: &mut Vec<Instr>,
    function: &FlatFunction,
    plan: &FunctionPlan,
    into: u32,
    from: u32,
) -> Result<(), AllocError>
    ensures { OnOk result
        (code.new.items ≡ code.old.items
        ++ local_block (location function.now plan.now) (frame_register function.now) 0 (flat.Move into from)) }
{
    if is_same_place(function, plan, u64::from(into), u64::from(from)) {
        return Ok(());
    }
    put_copy(code, function, plan, into, from)
}

// Puts a copy of a value from one place to another.
fn put_copy(
    code: &mut Vec<Instr>,
    function: &FlatFunction,
    plan: &FunctionPlan,
    into: u32,
    from: u32,
) -> Result<(), AllocError>
    ensures { OnOk result
        (code.new.items ≡ code.old.items
        ++ (fetch (location function.now plan.now from) (frame_register function.now) left_scratch
        ++ (OpImm Addi (used (location function.now plan.now into) left_scratch)
        (used (location function.now plan.now from) left_scratch) 0
        ∷ keep (location function.now plan.now into) (frame_register function.now) left_scratch))) }
{
    put_fetch(code, function, plan, u64::from(from), left_scratch())?;
    let rd = used(function, plan, u64::from(into), left_scratch());
    let rs1 = used(function, plan, u64::from(from), left_scratch());
    code.push(addi(rd, rs1, 0))?;
    put_keep(code, function, plan, u64::from(into), left_scratch())
}

// Puts an instruction, and what brings its result to its place.
fn put_kept(
    code: &mut Vec<Instr>,
    function: &FlatFunction,
    plan: &FunctionPlan,
    into: u32,
    instruction: Instr,
) -> Result<(), AllocError>
    ensures { OnOk result
        (code.new.items ≡ code.old.items
        ++ (instruction ∷ keep (location function.now plan.now into) (frame_register function.now) left_scratch)) }
{
    code.push(instruction)?;
    put_keep(code, function, plan, u64::from(into), left_scratch())
}

// What an operator works on: where its result goes, and its operands.
#[derive(Clone, Copy)]
struct Operation {
    into: u32,
    left: u32,
    right: RightOperand,
}

// Puts an operator: by an instruction that has its right operand in itself, where there is one, else by one on two
// registers.
fn put_operator(
    code: &mut Vec<Instr>,
    function: &FlatFunction,
    plan: &FunctionPlan,
    operation: Operation,
    immediate: Option<Instr>,
    plain: Instr,
) -> Result<(), AllocError>
    ensures { OnOk result
        (code.new.items ≡ code.old.items
        ++ operator_block (location function.now plan.now) (frame_register function.now)
        (location function.now plan.now operation.into) operation.left operation.right immediate plain) }
{
    match immediate {
        Some(instruction) => {
            put_fetch(
                code,
                function,
                plan,
                u64::from(operation.left),
                left_scratch(),
            )?;
            put_kept(code, function, plan, operation.into, instruction)
        }
        None => {
            put_operands(code, function, plan, operation.left, operation.right)?;
            put_kept(code, function, plan, operation.into, plain)
        }
    }
}

/// Puts an operator of 64 bits.
pub(crate) fn put_operate(
    code: &mut Vec<Instr>,
    function: &FlatFunction,
    plan: &FunctionPlan,
    op: RegOp,
    into: u32,
    left: u32,
    right: RightOperand,
) -> Result<(), AllocError>
    ensures { OnOk result
        (code.new.items ≡ code.old.items
        ++ local_block (location function.now plan.now) (frame_register function.now) 0
        (flat.Operate op into left right)) }
{
    let rd = used(function, plan, u64::from(into), left_scratch());
    let rs1 = used(function, plan, u64::from(left), left_scratch());
    let rs2 = used_right(function, plan, right);
    let plain = Instr::Op { op, rd, rs1, rs2 };
    let immediate = immediate_of(op, rd, rs1, right);
    let operation = Operation { into, left, right };
    put_operator(code, function, plan, operation, immediate, plain)
}

/// Puts an operator of the low 32 bits.
pub(crate) fn put_operate32(
    code: &mut Vec<Instr>,
    function: &FlatFunction,
    plan: &FunctionPlan,
    op: RegOp32,
    into: u32,
    left: u32,
    right: RightOperand,
) -> Result<(), AllocError>
    ensures { OnOk result
        (code.new.items ≡ code.old.items
        ++ local_block (location function.now plan.now) (frame_register function.now) 0
        (flat.Operate32 op into left right)) }
{
    let rd = used(function, plan, u64::from(into), left_scratch());
    let rs1 = used(function, plan, u64::from(left), left_scratch());
    let rs2 = used_right(function, plan, right);
    let plain = Instr::Op32 { op, rd, rs1, rs2 };
    let immediate = immediate32_of(op, rd, rs1, right);
    let operation = Operation { into, left, right };
    put_operator(code, function, plan, operation, immediate, plain)
}

// The low 12 bits of an offset.
fn low_offset(offset: u32) -> Imm12
    ensures { result ≡ offset % 2 ^ 12 }
{
    Imm12::low(offset)
}

/// Puts a load.
pub(crate) fn put_load(
    code: &mut Vec<Instr>,
    function: &FlatFunction,
    plan: &FunctionPlan,
    op: LoadOp,
    into: u32,
    at: u32,
    offset: u32,
) -> Result<(), AllocError>
    ensures { OnOk result
        (code.new.items ≡ code.old.items
        ++ local_block (location function.now plan.now) (frame_register function.now) 0
        (flat.Load op into at offset)) }
{
    put_fetch(code, function, plan, u64::from(at), left_scratch())?;
    code.push(Instr::Load {
        op,
        rd: used(function, plan, u64::from(into), left_scratch()),
        rs1: used(function, plan, u64::from(at), left_scratch()),
        imm: low_offset(offset),
    })?;
    put_keep(code, function, plan, u64::from(into), left_scratch())
}

/// Puts a store.
pub(crate) fn put_store(
    code: &mut Vec<Instr>,
    function: &FlatFunction,
    plan: &FunctionPlan,
    op: StoreOp,
    at: u32,
    offset: u32,
    from: u32,
) -> Result<(), AllocError>
    ensures { OnOk result
        (code.new.items ≡ code.old.items
        ++ local_block (location function.now plan.now) (frame_register function.now) 0
        (flat.Store op at offset from)) }
{
    put_operands(code, function, plan, at, RightOperand::Register(from))?;
    code.push(Instr::Store {
        op,
        rs1: used(function, plan, u64::from(at), left_scratch()),
        rs2: used(function, plan, u64::from(from), right_scratch()),
        imm: low_offset(offset),
    })?;
    Ok(())
}

// Puts what asks for so many bytes in the words of arguments, by an environment call with a number and a descriptor.
fn put_asks(
    code: &mut Vec<Instr>,
    number: u64,
    descriptor: u64,
    count: u64,
) -> Result<(), AllocError>
    requires number { number < 2 ^ 12 }
    requires descriptor { descriptor < 2 ^ 12 }
    requires count { count < 2 ^ 12 }
    ensures { OnOk result (code.new.items ≡ code.old.items ++ asks number descriptor count) }
{
    code.push(addi(Reg::A7, Reg::ZERO, number))?;
    code.push(addi(Reg::A0, Reg::ZERO, descriptor))?;
    code.push(addi(Reg::A1, argument_words(), 0))?;
    code.push(addi(Reg::A2, Reg::ZERO, count))?;
    code.push(Instr::Ecall)?;
    Ok(())
}

// Puts what makes a byte of the input of what was answered, or -1 where there is none.
fn put_received(
    code: &mut Vec<Instr>,
    function: &FlatFunction,
    plan: &FunctionPlan,
    into: u32,
) -> Result<(), AllocError>
    ensures { OnOk result
        (code.new.items ≡ code.old.items
        ++ received_block (location function.now plan.now into) (frame_register function.now)) }
{
    let (left, right) = (left_scratch(), right_scratch());
    code.push(Instr::Load {
        op: LoadOp::Lbu,
        rd: left,
        rs1: argument_words(),
        imm: Imm12::new(0),
    })?;
    code.push(Instr::Op {
        op: RegOp::Mul,
        rd: left,
        rs1: left,
        rs2: Reg::A0,
    })?;
    code.push(addi(right, Reg::A0, 0xfff))?;
    code.push(Instr::Op {
        op: RegOp::Add,
        rd: used(function, plan, u64::from(into), left),
        rs1: left,
        rs2: right,
    })?;
    put_keep(code, function, plan, u64::from(into), left)
}

/// Puts a read of one byte.
pub(crate) fn put_get(
    code: &mut Vec<Instr>,
    function: &FlatFunction,
    plan: &FunctionPlan,
    into: u32,
) -> Result<(), AllocError>
    ensures { OnOk result
        (code.new.items ≡ code.old.items
        ++ (asks 63 0 1 ++ received_block (location function.now plan.now into) (frame_register function.now))) }
{
    put_asks(code, 63, 0, 1)?;
    put_received(code, function, plan, into)
}

/// Puts a write of one byte.
pub(crate) fn put_put(
    code: &mut Vec<Instr>,
    function: &FlatFunction,
    plan: &FunctionPlan,
    from: u32,
) -> Result<(), AllocError>
    ensures { OnOk result
        (code.new.items ≡ code.old.items
        ++ sent_block (location function.now plan.now from) (frame_register function.now)) }
{
    put_fetch(code, function, plan, u64::from(from), left_scratch())?;
    code.push(Instr::Store {
        op: StoreOp::Sb,
        rs1: argument_words(),
        rs2: used(function, plan, u64::from(from), left_scratch()),
        imm: Imm12::new(0),
    })?;
    put_asks(code, 64, 1, 1)
}

/// Puts an exit.
pub(crate) fn put_exit(
    code: &mut Vec<Instr>,
    function: &FlatFunction,
    plan: &FunctionPlan,
    status: u32,
) -> Result<(), AllocError>
    ensures { OnOk result
        (code.new.items ≡ code.old.items
        ++ exit_block (location function.now plan.now status) (frame_register function.now)) }
{
    put_fetch(code, function, plan, u64::from(status), left_scratch())?;
    let status = used(function, plan, u64::from(status), left_scratch());
    code.push(addi(Reg::A0, status, 0))?;
    code.push(addi(Reg::A7, Reg::ZERO, 93))?;
    code.push(Instr::Ecall)?;
    Ok(())
}

/// Puts the bytes that are charged: half of how far the register of the activation records of the program has gone up
/// from an address.
pub(crate) fn put_charged(
    code: &mut Vec<Instr>,
    function: &FlatFunction,
    plan: &FunctionPlan,
    into: u32,
    begin: u64,
) -> Result<(), AllocError>
    ensures { OnOk result
        (code.new.items ≡ code.old.items
        ++ charged_block (location function.now plan.now into) (frame_register function.now) begin) }
{
    put_constant(code, right_scratch(), u128::from(begin))?;
    code.push(Instr::Op {
        op: RegOp::Sub,
        rd: left_scratch(),
        rs1: Reg::SP,
        rs2: right_scratch(),
    })?;
    code.push(Instr::ShiftImm {
        op: ShiftOp::Srli,
        rd: used(function, plan, u64::from(into), left_scratch()),
        rs1: left_scratch(),
        shamt: ShiftAmount::new(1),
    })?;
    put_keep(code, function, plan, u64::from(into), left_scratch())
}
