//! The unary operators on integers (C99 6.5.3.3).

ghost use Rattle.std.specs.Prelude.{◌≡◌, ◌++◌, ◌∷◌, OnOk};
ghost use Rattle.flat_code.specs.declared.instruction.FlatInstruction.TheVariants.{Constant, Operate as Operation};
ghost use Rattle.flat_code.specs.declared.instruction.RightOperand.TheVariants.{Register};
ghost use Rattle.rv_isa.specs.declared.instruction.RegOp.TheVariants as op;
ghost use Rattle.flat_operators.specs.Operators.{converted, unary_code};

use crate::conversion::{put_conversion, put_converted};
use crate::list::put;
use flat_code::{FlatInstruction, RightOperand};
use obj_memory::{IntType, UnaryOperator};
use rv_isa::RegOp;
use std::alloc::AllocError;

// Puts the difference of a number and the word in `from` behind a list.
fn put_less_from(
    code: &mut Vec<FlatInstruction>,
    number: u64,
    int_type: IntType,
    into: u32,
    from: u32,
    scratch: u32,
) -> Result<(), AllocError>
    ensures { OnOk result (code.new.items ≡ code.old.items
        ++ Constant scratch number ∷ Operation op.Sub into scratch (Register from) ∷ converted int_type into) }
{
    put(
        code,
        FlatInstruction::Constant {
            into: scratch,
            value: number,
        },
    )?;
    put(
        code,
        FlatInstruction::Operate {
            op: RegOp::Sub,
            into,
            left: scratch,
            right: RightOperand::Register(from),
        },
    )?;
    put_converted(code, int_type, into)
}

/// Puts a unary operator on the word in `from` behind a list; `into` gets the result, and `scratch` may change. It
/// fails only for want of memory.
#[tactic(auto, unfolding(crate::specs::Operators::unary_code))]
pub fn put_unary(
    code: &mut Vec<FlatInstruction>,
    operator: UnaryOperator,
    int_type: IntType,
    into: u32,
    from: u32,
    scratch: u32,
) -> Result<(), AllocError>
    ensures { OnOk result (code.new.items ≡ code.old.items ++ unary_code operator int_type into from scratch) }
{
    match operator {
        UnaryOperator::Plus => put_conversion(code, int_type, into, from),
        UnaryOperator::Negate => put_less_from(code, 0, int_type, into, from, scratch),
        UnaryOperator::Complement => put_less_from(code, u64::MAX, int_type, into, from, scratch),
        UnaryOperator::Not => put(
            code,
            FlatInstruction::Operate {
                op: RegOp::Sltu,
                into,
                left: from,
                right: RightOperand::Number(1),
            },
        ),
    }
}
