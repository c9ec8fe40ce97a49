//! The binary operators on integers (C99 6.5.5 to 6.5.12).

ghost use Rattle.std.specs.Prelude.{◌≡◌, ◌++◌, ◌∷◌, [], OnOk};
ghost use Rattle.flat_code.specs.declared.instruction.FlatInstruction.TheVariants.{Operate as Operation};
ghost use Rattle.flat_code.specs.declared.instruction.RightOperand.TheVariants.{Register, Number};
ghost use Rattle.std.specs.Prelude.{if◌then◌else◌};
ghost use Rattle.rv_isa.specs.declared.instruction.RegOp.TheVariants as op;
ghost use Rattle.obj_memory.specs.Integers.{is_signed};
ghost use Rattle.flat_operators.specs.Operators.{binary_code, converted, divided_code, equal_code, less_op};
ghost use Rattle.flat_operators.specs.Operators.{shift_left_code, shift_right_code, turned, wrapping_code};

use crate::conversion::{put_conversion, put_converted};
use crate::list::put;
use flat_code::{FlatInstruction, RightOperand};
use obj_memory::{BinaryOperator, IntType};
use rv_isa::{BranchOp, RegOp, RegOp32};
use sb_base::{Ending, Line};
use std::alloc::AllocError;

/// The registers of an operator on two words. The result may go to one of the operands; `scratch` is above them all,
/// and may change.
#[derive(Clone, Copy)]
pub struct Registers {
    /// Gets the result.
    pub into: u32,
    /// The left operand.
    pub left: u32,
    /// The right operand.
    pub right: u32,
    /// Free to use.
    pub scratch: u32,
}

// Puts an operator of the machine on two registers behind a list.
pub(crate) fn put_operator(
    code: &mut Vec<FlatInstruction>,
    op: RegOp,
    into: u32,
    left: u32,
    right: u32,
) -> Result<(), AllocError>
    ensures { OnOk result (code.new.items ≡ code.old.items ++ Operation op into left (Register right) ∷ []) }
{
    put(
        code,
        FlatInstruction::Operate {
            op,
            into,
            left,
            right: RightOperand::Register(right),
        },
    )
}

// Puts an operator that wraps behind a list.
#[tactic(auto, unfolding(crate::specs::Operators::wrapping_code))]
fn put_wrapping(
    code: &mut Vec<FlatInstruction>,
    op: RegOp,
    op32: RegOp32,
    int_type: IntType,
    registers: Registers,
) -> Result<(), AllocError>
    ensures { OnOk result (code.new.items ≡ code.old.items
        ++ wrapping_code op op32 int_type registers.into registers.left registers.right) }
{
    if let IntType::Int = int_type {
        return put(
            code,
            FlatInstruction::Operate32 {
                op: op32,
                into: registers.into,
                left: registers.left,
                right: RightOperand::Register(registers.right),
            },
        );
    }
    put_operator(code, op, registers.into, registers.left, registers.right)?;
    put_converted(code, int_type, registers.into)
}

// Puts a shift to the left behind a list.
#[tactic(auto, unfolding(crate::specs::Operators::shift_left_code))]
fn put_shift_left(
    code: &mut Vec<FlatInstruction>,
    int_type: IntType,
    registers: Registers,
) -> Result<(), AllocError>
    ensures { OnOk result (code.new.items ≡ code.old.items
        ++ shift_left_code int_type registers.into registers.left registers.right) }
{
    if int_type.size() == 8 {
        return put_operator(
            code,
            RegOp::Sll,
            registers.into,
            registers.left,
            registers.right,
        );
    }
    put(
        code,
        FlatInstruction::Operate32 {
            op: RegOp32::Sllw,
            into: registers.into,
            left: registers.left,
            right: RightOperand::Register(registers.right),
        },
    )?;
    put_conversion(code, int_type, registers.into, registers.into)
}

// Puts a shift to the right behind a list.
#[tactic(auto, unfolding(crate::specs::Operators::shift_right_code))]
fn put_shift_right(
    code: &mut Vec<FlatInstruction>,
    int_type: IntType,
    registers: Registers,
) -> Result<(), AllocError>
    ensures { OnOk result (code.new.items ≡ code.old.items
        ++ shift_right_code int_type registers.into registers.left registers.right registers.scratch) }
{
    let op = if int_type.is_signed() {
        RegOp::Sra
    } else {
        RegOp::Srl
    };
    if int_type.size() == 8 {
        return put_operator(code, op, registers.into, registers.left, registers.right);
    }
    put(
        code,
        FlatInstruction::Operate {
            op: RegOp::And,
            into: registers.scratch,
            left: registers.right,
            right: RightOperand::Number(31),
        },
    )?;
    put_operator(code, op, registers.into, registers.left, registers.scratch)
}

// Puts a division behind a list, which ends the run where the divisor is zero.
fn put_divided(
    code: &mut Vec<FlatInstruction>,
    op: RegOp,
    int_type: IntType,
    line: Line,
    registers: Registers,
) -> Result<(), AllocError>
    ensures { OnOk result (code.new.items ≡ code.old.items
        ++ divided_code op int_type line registers.into registers.left registers.right) }
{
    put(
        code,
        FlatInstruction::Branch {
            op: BranchOp::Bne,
            left: registers.right,
            right: RightOperand::Number(0),
            past: 1,
        },
    )?;
    put(code, FlatInstruction::End(Ending::Divide(line)))?;
    put_operator(code, op, registers.into, registers.left, registers.right)?;
    put_converted(code, int_type, registers.into)
}

// The operator that is 1 where a word is below another.
fn less_op(int_type: IntType) -> RegOp
    ensures { result ≡ less_op int_type }
{
    if int_type.is_signed() {
        RegOp::Slt
    } else {
        RegOp::Sltu
    }
}

// Puts the other of 0 and 1 behind a list.
fn put_turned(code: &mut Vec<FlatInstruction>, into: u32) -> Result<(), AllocError>
    ensures { OnOk result (code.new.items ≡ code.old.items ++ turned into ∷ []) }
{
    put(
        code,
        FlatInstruction::Operate {
            op: RegOp::Xor,
            into,
            left: into,
            right: RightOperand::Number(1),
        },
    )
}

// Puts the opposite of a comparison behind a list.
fn put_not_less(
    code: &mut Vec<FlatInstruction>,
    int_type: IntType,
    into: u32,
    left: u32,
    right: u32,
) -> Result<(), AllocError>
    ensures { OnOk result (code.new.items ≡ code.old.items
        ++ Operation (less_op int_type) into left (Register right) ∷ turned into ∷ []) }
{
    put_operator(code, less_op(int_type), into, left, right)?;
    put_turned(code, into)
}

// Puts a test for equality behind a list.
fn put_equal(code: &mut Vec<FlatInstruction>, registers: Registers) -> Result<(), AllocError>
    ensures { OnOk result (code.new.items ≡ code.old.items
        ++ equal_code registers.into registers.left registers.right) }
{
    put_operator(
        code,
        RegOp::Sub,
        registers.into,
        registers.left,
        registers.right,
    )?;
    put(
        code,
        FlatInstruction::Operate {
            op: RegOp::Sltu,
            into: registers.into,
            left: registers.into,
            right: RightOperand::Number(1),
        },
    )
}

// Puts the opposite test behind a list.
fn put_unequal(code: &mut Vec<FlatInstruction>, registers: Registers) -> Result<(), AllocError>
    ensures { OnOk result (code.new.items ≡ code.old.items
        ++ equal_code registers.into registers.left registers.right ++ turned registers.into ∷ []) }
{
    put_equal(code, registers)?;
    put_turned(code, registers.into)
}

// Puts a quotient or a remainder behind a list, of signed words or of others.
fn put_quotient(
    code: &mut Vec<FlatInstruction>,
    int_type: IntType,
    line: Line,
    registers: Registers,
) -> Result<(), AllocError>
    ensures { OnOk result (code.new.items ≡ code.old.items
        ++ divided_code (if is_signed int_type then op.Div else op.Divu) int_type line registers.into registers.left
        registers.right) }
{
    let op = if int_type.is_signed() {
        RegOp::Div
    } else {
        RegOp::Divu
    };
    put_divided(code, op, int_type, line, registers)
}

fn put_remainder(
    code: &mut Vec<FlatInstruction>,
    int_type: IntType,
    line: Line,
    registers: Registers,
) -> Result<(), AllocError>
    ensures { OnOk result (code.new.items ≡ code.old.items
        ++ divided_code (if is_signed int_type then op.Rem else op.Remu) int_type line registers.into registers.left
        registers.right) }
{
    let op = if int_type.is_signed() {
        RegOp::Rem
    } else {
        RegOp::Remu
    };
    put_divided(code, op, int_type, line, registers)
}

/// Puts a binary operator on two words of a type, or a shift of one, behind a list. The run ends at `line` where a
/// divisor is zero. It fails only for want of memory.
#[tactic(auto, unfolding(crate::specs::Operators::binary_code))]
pub fn put_binary(
    code: &mut Vec<FlatInstruction>,
    operator: BinaryOperator,
    int_type: IntType,
    line: Line,
    registers: Registers,
) -> Result<(), AllocError>
    ensures { OnOk result (code.new.items ≡ code.old.items
        ++ binary_code operator int_type line registers.into registers.left registers.right registers.scratch) }
{
    let Registers {
        into,
        left,
        right,
        ..
    } = registers;
    match operator {
        BinaryOperator::Add => put_wrapping(code, RegOp::Add, RegOp32::Addw, int_type, registers),
        BinaryOperator::Subtract => {
            put_wrapping(code, RegOp::Sub, RegOp32::Subw, int_type, registers)
        }
        BinaryOperator::Multiply => {
            put_wrapping(code, RegOp::Mul, RegOp32::Mulw, int_type, registers)
        }
        BinaryOperator::Divide => put_quotient(code, int_type, line, registers),
        BinaryOperator::Remainder => put_remainder(code, int_type, line, registers),
        BinaryOperator::ShiftLeft => put_shift_left(code, int_type, registers),
        BinaryOperator::ShiftRight => put_shift_right(code, int_type, registers),
        BinaryOperator::BitAnd => put_operator(code, RegOp::And, into, left, right),
        BinaryOperator::BitXor => put_operator(code, RegOp::Xor, into, left, right),
        BinaryOperator::BitOr => put_operator(code, RegOp::Or, into, left, right),
        BinaryOperator::Less => put_operator(code, less_op(int_type), into, left, right),
        BinaryOperator::Greater => put_operator(code, less_op(int_type), into, right, left),
        BinaryOperator::LessOrEqual => put_not_less(code, int_type, into, right, left),
        BinaryOperator::GreaterOrEqual => put_not_less(code, int_type, into, left, right),
        BinaryOperator::Equal => put_equal(code, registers),
        BinaryOperator::NotEqual => put_unequal(code, registers),
    }
}
