//! The digits of a number.

ghost use Rattle.std.specs.Prelude.{◌≡◌, ◌+◌, ◌≤◌, ◌<◌, ◌^◌, IfOk};
ghost use Rattle.flat_code.specs.declared.instruction.FlatInstruction.TheVariants.{Operate};
ghost use Rattle.lib_wrappers.specs.PrintingRoutines.Numbers.{base_code};

use flat_code::{FlatInstruction, RightOperand};
use rv_isa::{BranchOp, RegOp};
use std::alloc::{AllocError, Global};

fn operate(op: RegOp, into: u32, left: u32, right: RightOperand) -> FlatInstruction
    ensures { result ≡ Operate op into left right }
{
    FlatInstruction::Operate {
        op,
        into,
        left,
        right,
    }
}

/// The instructions that put out the digits, in a base, of the number in `value`, and add how many they are to `count`.
/// They write the three registers from `scratch` on.
pub fn base_instructions(
    alloc: Global,
    base: u64,
    value: u32,
    count: u32,
    scratch: u32,
) -> Result<Vec<FlatInstruction>, AllocError>
    requires { scratch ≤ 2 ^ 30 }
    ensures { IfOk result (λ r. r.items ≡ base_code base value count scratch) }
{
    let power = scratch;
    let quotient = scratch + 1;
    let less = scratch + 2;
    let code = [
        FlatInstruction::Constant {
            into: power,
            value: 1,
        },
        FlatInstruction::Move {
            into: quotient,
            from: value,
        },
        // the highest power of the base
        FlatInstruction::Branch {
            op: BranchOp::Bltu,
            left: quotient,
            right: RightOperand::Number(base),
            past: 3,
        },
        operate(RegOp::Mul, power, power, RightOperand::Number(base)),
        operate(RegOp::Divu, quotient, value, RightOperand::Register(power)),
        FlatInstruction::JumpBack { back: 3 },
        // a digit for each power down to 1
        FlatInstruction::Branch {
            op: BranchOp::Beq,
            left: power,
            right: RightOperand::Number(0),
            past: 10,
        },
        operate(RegOp::Divu, quotient, value, RightOperand::Register(power)),
        operate(RegOp::Remu, quotient, quotient, RightOperand::Number(base)),
        operate(RegOp::Sltu, less, quotient, RightOperand::Number(10)),
        operate(RegOp::Mul, less, less, RightOperand::Number(39)),
        operate(RegOp::Add, quotient, quotient, RightOperand::Number(87)),
        operate(RegOp::Sub, quotient, quotient, RightOperand::Register(less)),
        FlatInstruction::Put { from: quotient },
        operate(RegOp::Add, count, count, RightOperand::Number(1)),
        operate(RegOp::Divu, power, power, RightOperand::Number(base)),
        FlatInstruction::JumpBack { back: 10 },
    ];
    Vec::from_slice(alloc, &code)
}
