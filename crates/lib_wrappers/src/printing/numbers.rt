//! The arguments of directives that are no strings.

ghost use Rattle.std.specs.Prelude.{◌≡◌, ◌≢◌, ◌+◌, ◌≤◌, ◌<◌, ◌^◌, ◌++◌, IfOk};
ghost use Rattle.rv_isa.specs.declared.instruction.RegOp.TheVariants.{Add};
ghost use Rattle.c_tree.specs.declared.format.Directive.TheVariants as directive;
ghost use Rattle.flat_code.specs.Routines.Shape.{HasShape};
ghost use Rattle.flat_code.specs.declared.instruction.RightOperand.TheVariants.{Number};
ghost use Rattle.flat_code.specs.declared.instruction.FlatInstruction.TheVariants.{Operate};
ghost use Rattle.lib_wrappers.specs.PrintingRoutines.Numbers.{IsNumberRoutine, number_code, sign_code, low_code};
ghost use Rattle.lib_wrappers.specs.PrintingRoutines.Numbers.{base_code};

use crate::printing::digits::base_instructions;
use addr_map::AddrMap;
use c_tree::Directive;
use flat_actions::joined;
use flat_code::{FlatInstruction, RightOperand};
use rv_isa::{BranchOp, RegOp, RegOp32};
use std::alloc::{AllocError, Global};

/// Puts out the argument of a directive, which `value` holds, and adds how many bytes that are to `count`, in a
/// function
/// of the runtime. Of a string it does nothing. It may write the registers from `scratch` on. The only refusal is that
/// memory fails.
pub fn number(
    alloc: Global,
    map: &AddrMap,
    directive: Directive,
    value: u32,
    count: u32,
    scratch: u32,
) -> Result<Vec<FlatInstruction>, AllocError>
    requires value { value < scratch }
    requires count { count < scratch }
    requires apart { value ≢ count }
    requires room { scratch ≤ 2 ^ 29 }
    ensures does { IfOk result (λ r. IsNumberRoutine map.now directive value count scratch r.items) }
    ensures shape { IfOk result (λ r. HasShape r.items 48 (scratch + 4)) }
{
    number_instructions(alloc, directive, value, count, scratch)
}

fn number_instructions(
    alloc: Global,
    directive: Directive,
    value: u32,
    count: u32,
    scratch: u32,
) -> Result<Vec<FlatInstruction>, AllocError>
    requires { scratch ≤ 2 ^ 29 }
    ensures { IfOk result (λ r. r.items ≡ number_code directive value count scratch) }
{
    match directive {
        Directive::Int => int_instructions(alloc, value, count, scratch),
        Directive::UnsignedInt => low_instructions(alloc, 10, value, count, scratch),
        Directive::Hexadecimal => low_instructions(alloc, 16, value, count, scratch),
        Directive::Character => character_instructions(alloc, value, count),
        Directive::Long => long_instructions(alloc, value, count, scratch),
        Directive::UnsignedLong => base_instructions(alloc, 10, value, count, scratch),
        Directive::String => Ok(Vec::new(alloc)),
    }
}

// The byte is counted.
fn counted(count: u32) -> FlatInstruction
    ensures { result ≡ Operate Add count count (Number 1) }
{
    FlatInstruction::Operate {
        op: RegOp::Add,
        into: count,
        left: count,
        right: RightOperand::Number(1),
    }
}

fn character_instructions(
    alloc: Global,
    value: u32,
    count: u32,
) -> Result<Vec<FlatInstruction>, AllocError>
    ensures { IfOk result (λ r. r.items
        ≡ number_code directive.Character value count 0) }
{
    let code = [FlatInstruction::Put { from: value }, counted(count)];
    Vec::from_slice(alloc, &code)
}

// The sign of the number in `value`, which becomes its magnitude, and then its digits.
fn signed_instructions(
    alloc: Global,
    value: u32,
    count: u32,
    scratch: u32,
) -> Result<Vec<FlatInstruction>, AllocError>
    requires { scratch ≤ 2 ^ 30 }
    ensures { IfOk result (λ r. r.items ≡ sign_code value count scratch ++ base_code 10 value count scratch) }
{
    let sign = [
        FlatInstruction::Branch {
            op: BranchOp::Bge,
            left: value,
            right: RightOperand::Number(0),
            past: 5,
        },
        FlatInstruction::Constant {
            into: scratch,
            value: 45,
        },
        FlatInstruction::Put { from: scratch },
        counted(count),
        FlatInstruction::Constant {
            into: scratch,
            value: 0,
        },
        FlatInstruction::Operate {
            op: RegOp::Sub,
            into: value,
            left: scratch,
            right: RightOperand::Register(value),
        },
    ];
    let digits = base_instructions(alloc, 10, value, count, scratch)?;
    joined(alloc, &sign, &digits)
}

fn int_instructions(
    alloc: Global,
    value: u32,
    count: u32,
    scratch: u32,
) -> Result<Vec<FlatInstruction>, AllocError>
    requires { scratch ≤ 2 ^ 29 }
    ensures { IfOk result (λ r. r.items
        ≡ number_code directive.Int value count scratch) }
{
    let word = [FlatInstruction::Operate32 {
        op: RegOp32::Addw,
        into: scratch,
        left: value,
        right: RightOperand::Number(0),
    }];
    let rest = signed_instructions(alloc, scratch, count, scratch + 1)?;
    joined(alloc, &word, &rest)
}

fn long_instructions(
    alloc: Global,
    value: u32,
    count: u32,
    scratch: u32,
) -> Result<Vec<FlatInstruction>, AllocError>
    requires { scratch ≤ 2 ^ 29 }
    ensures { IfOk result (λ r. r.items
        ≡ number_code directive.Long value count scratch) }
{
    let word = [FlatInstruction::Move {
        into: scratch,
        from: value,
    }];
    let rest = signed_instructions(alloc, scratch, count, scratch + 1)?;
    joined(alloc, &word, &rest)
}

// The low 32 bits in a base.
fn low_instructions(
    alloc: Global,
    base: u64,
    value: u32,
    count: u32,
    scratch: u32,
) -> Result<Vec<FlatInstruction>, AllocError>
    requires { scratch ≤ 2 ^ 29 }
    ensures { IfOk result (λ r. r.items ≡ low_code scratch value ++ base_code base scratch count (scratch + 1)) }
{
    let low = [
        FlatInstruction::Operate {
            op: RegOp::Sll,
            into: scratch,
            left: value,
            right: RightOperand::Number(32),
        },
        FlatInstruction::Operate {
            op: RegOp::Srl,
            into: scratch,
            left: scratch,
            right: RightOperand::Number(32),
        },
    ];
    let digits = base_instructions(alloc, base, scratch, count, scratch + 1)?;
    joined(alloc, &low, &digits)
}
