//! Pointers that move by elements, and their differences in elements (C99 6.5.6 paragraphs 8 and 9).

ghost use Rattle.std.specs.Prelude.{◌≡◌, ◌++◌, OnOk};
ghost use Rattle.rv_isa.specs.declared.instruction.RegOp.TheVariants as op;
ghost use Rattle.flat_operators.specs.Pointers.{difference_code, offset_code, scaled_by, shift_of};

use crate::binary::{Registers, put_operator};
use crate::constant::put_constant;
use crate::list::put;
use flat_code::{FlatInstruction, RightOperand};
use rv_isa::RegOp;
use std::alloc::AllocError;

// How many bits the number of elements of a scalar's size is shifted by.
fn shift_of(size: u64) -> Option<u64>
    ensures { result ≡ shift_of size }
{
    match size {
        2 => Some(1),
        4 => Some(2),
        8 => Some(3),
        _ => None,
    }
}

// Puts what makes bytes of so many elements of a size behind a list.
fn put_scaled(
    code: &mut Vec<FlatInstruction>,
    index: u32,
    size: u64,
    into: u32,
) -> Result<(), AllocError>
    ensures { OnOk result (code.new.items ≡ code.old.items ++ scaled_by (shift_of size) index size into) }
{
    if let Some(bits) = shift_of(size) {
        return put(
            code,
            FlatInstruction::Operate {
                op: RegOp::Sll,
                into,
                left: index,
                right: RightOperand::Number(bits),
            },
        );
    }
    put_constant(code, into, size)?;
    put_operator(code, RegOp::Mul, into, index, into)
}

// Puts an operator on an address and so many elements of a size behind a list.
#[tactic(auto, unfolding(crate::specs::Pointers::offset_code))]
fn put_offset(
    code: &mut Vec<FlatInstruction>,
    op: RegOp,
    size: u64,
    registers: Registers,
) -> Result<(), AllocError>
    ensures { OnOk result (code.new.items ≡ code.old.items
        ++ offset_code op size registers.into registers.left registers.right registers.scratch) }
{
    if size == 1 {
        return put_operator(code, op, registers.into, registers.left, registers.right);
    }
    put_scaled(code, registers.right, size, registers.scratch)?;
    put_operator(code, op, registers.into, registers.left, registers.scratch)
}

/// Puts what moves the address in `left` on by as many elements of `size` bytes as `right` has behind a list. It fails
/// only for want of memory.
pub fn put_forward(
    code: &mut Vec<FlatInstruction>,
    size: u64,
    registers: Registers,
) -> Result<(), AllocError>
    ensures { OnOk result (code.new.items ≡ code.old.items
        ++ offset_code op.Add size registers.into registers.left registers.right registers.scratch) }
{
    put_offset(code, RegOp::Add, size, registers)
}

/// Puts what moves the address in `left` back by as many elements of `size` bytes as `right` has behind a list. It
/// fails only for want of memory.
pub fn put_back(
    code: &mut Vec<FlatInstruction>,
    size: u64,
    registers: Registers,
) -> Result<(), AllocError>
    ensures { OnOk result (code.new.items ≡ code.old.items
        ++ offset_code op.Sub size registers.into registers.left registers.right registers.scratch) }
{
    put_offset(code, RegOp::Sub, size, registers)
}

/// Puts the difference of the addresses in `left` and `right`, in elements of `size` bytes, behind a list. It fails
/// only for want of memory.
#[tactic(auto, unfolding(crate::specs::Pointers::difference_code))]
pub fn put_difference(
    code: &mut Vec<FlatInstruction>,
    size: u64,
    registers: Registers,
) -> Result<(), AllocError>
    ensures { OnOk result (code.new.items ≡ code.old.items
        ++ difference_code size registers.into registers.left registers.right registers.scratch) }
{
    put_constant(code, registers.scratch, size)?;
    put_operator(
        code,
        RegOp::Sub,
        registers.into,
        registers.left,
        registers.right,
    )?;
    put_operator(
        code,
        RegOp::Div,
        registers.into,
        registers.into,
        registers.scratch,
    )
}
