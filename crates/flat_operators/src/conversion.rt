//! Conversions between integer types (C99 6.3.1.3).

ghost use Rattle.std.specs.Prelude.{◌≡◌, ◌++◌, OnOk};
ghost use Rattle.flat_operators.specs.Operators.{conversion_code, converted, two_shifts};

use crate::list::put;
use flat_code::{FlatInstruction, RightOperand};
use obj_memory::IntType;
use rv_isa::{RegOp, RegOp32};
use std::alloc::AllocError;

// Puts a shift to the left and one back behind a list.
fn put_two_shifts(
    code: &mut Vec<FlatInstruction>,
    back: RegOp,
    bits: u64,
    into: u32,
    from: u32,
) -> Result<(), AllocError>
    ensures { OnOk result (code.new.items ≡ code.old.items ++ two_shifts back bits into from) }
{
    put(
        code,
        FlatInstruction::Operate {
            op: RegOp::Sll,
            into,
            left: from,
            right: RightOperand::Number(bits),
        },
    )?;
    put(
        code,
        FlatInstruction::Operate {
            op: back,
            into,
            left: into,
            right: RightOperand::Number(bits),
        },
    )
}

/// Puts the conversion of the word in `from` to a type behind a list; `into` gets the result. It fails only for want of
/// memory.
#[tactic(auto, unfolding(crate::specs::Operators::conversion_code))]
pub fn put_conversion(
    code: &mut Vec<FlatInstruction>,
    int_type: IntType,
    into: u32,
    from: u32,
) -> Result<(), AllocError>
    ensures { OnOk result (code.new.items ≡ code.old.items ++ conversion_code int_type into from) }
{
    match int_type {
        IntType::Char => put_two_shifts(code, RegOp::Srl, 56, into, from),
        IntType::SignedChar => put_two_shifts(code, RegOp::Sra, 56, into, from),
        IntType::UnsignedChar => put_two_shifts(code, RegOp::Srl, 56, into, from),
        IntType::Short => put_two_shifts(code, RegOp::Sra, 48, into, from),
        IntType::UnsignedShort => put_two_shifts(code, RegOp::Srl, 48, into, from),
        IntType::Int => put(
            code,
            FlatInstruction::Operate32 {
                op: RegOp32::Addw,
                into,
                left: from,
                right: RightOperand::Number(0),
            },
        ),
        IntType::UnsignedInt => put_two_shifts(code, RegOp::Srl, 32, into, from),
        IntType::Long => put(code, FlatInstruction::Move { into, from }),
        IntType::UnsignedLong => put(code, FlatInstruction::Move { into, from }),
        IntType::LongLong => put(code, FlatInstruction::Move { into, from }),
        IntType::UnsignedLongLong => put(code, FlatInstruction::Move { into, from }),
    }
}

/// Puts the conversion of a result to its type behind a list, where the type has fewer than 64 bits.
pub fn put_converted(
    code: &mut Vec<FlatInstruction>,
    int_type: IntType,
    into: u32,
) -> Result<(), AllocError>
    ensures { OnOk result (code.new.items ≡ code.old.items ++ converted int_type into) }
{
    if int_type.size() == 8 {
        return Ok(());
    }
    put_conversion(code, int_type, into, into)
}
