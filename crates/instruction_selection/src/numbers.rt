//! Numbers as right operands of instructions.

ghost use Rattle.std.specs.Prelude.{◌≡◌, ◌++◌, OnOk};
ghost use Rattle.metadata_plan.specs.OperatorLists.Operators.{operators};
ghost use Rattle.metadata_relation.specs.Blocks.{is_short, number_code, number_operand};

use flat_code::{FlatInstruction, RightOperand};
use flat_operators::constant::put_constant;
use std::alloc::AllocError;

// Whether an instruction has room for a number.
pub(crate) fn is_short(number: u64) -> bool
    ensures { result ≡ is_short number }
{
    number < (1 << 31) - (1 << 11)
}

/// Puts a number into a register behind a list, where an instruction has no room for it. It fails only for want of
/// memory.
#[tactic(auto, using(crate::proofs::Lists::nothing_behind))]
pub fn put_number(
    code: &mut Vec<FlatInstruction>,
    number: u64,
    register: u32,
    scratch: u32,
) -> Result<(), AllocError>
    ensures { OnOk result (code.new.items ≡ code.old.items ++ number_code operators number register scratch) }
{
    if is_short(number) {
        Ok(())
    } else {
        put_constant(code, register, number)
    }
}

/// The number as an operand: in the register where an instruction has no room for it.
pub fn number_operand(number: u64, register: u32) -> RightOperand
    ensures { result ≡ number_operand number register }
{
    if is_short(number) {
        RightOperand::Number(number)
    } else {
        RightOperand::Register(register)
    }
}
