//! Constants of 64 bits.

ghost use Rattle.std.specs.Prelude.{◌≡◌, ◌++◌, OnOk};
ghost use Rattle.flat_operators.specs.Operators.{appended, constant_code, is_short, long_code, medium_code, wide_code};

use crate::list::put;
use flat_code::{FlatInstruction, RightOperand};
use rv_isa::RegOp;
use std::alloc::AllocError;

// Whether an instruction can have a number.
fn is_short(word: u64) -> bool
    ensures { result ≡ is_short word }
{
    word < (1 << 31) - (1 << 11) || word >= u64::MAX - ((1 << 31) - 1)
}

// Puts so many more bits behind those of a register.
fn put_appended(
    code: &mut Vec<FlatInstruction>,
    count: u64,
    into: u32,
    bits: u64,
) -> Result<(), AllocError>
    ensures { OnOk result (code.new.items ≡ code.old.items ++ appended count into bits) }
{
    put(
        code,
        FlatInstruction::Operate {
            op: RegOp::Sll,
            into,
            left: into,
            right: RightOperand::Number(count),
        },
    )?;
    put(
        code,
        FlatInstruction::Operate {
            op: RegOp::Add,
            into,
            left: into,
            right: RightOperand::Number(bits),
        },
    )
}

/// Puts what gets a word into a register behind a list, in three parts, whatever the word. It fails only for want of
/// memory.
pub fn put_wide(code: &mut Vec<FlatInstruction>, into: u32, word: u64) -> Result<(), AllocError>
    ensures { OnOk result (code.new.items ≡ code.old.items ++ wide_code into word) }
{
    put(
        code,
        FlatInstruction::Constant {
            into,
            value: word / (1 << 40),
        },
    )?;
    put_appended(code, 20, into, word / (1 << 20) % (1 << 20))?;
    put_appended(code, 20, into, word % (1 << 20))
}

// Puts what gets a word of 33 bits into a register behind a list, in two parts.
fn put_medium(code: &mut Vec<FlatInstruction>, into: u32, word: u64) -> Result<(), AllocError>
    ensures { OnOk result (code.new.items ≡ code.old.items ++ medium_code into word) }
{
    put(
        code,
        FlatInstruction::Constant {
            into,
            value: word / 8,
        },
    )?;
    put_appended(code, 3, into, word % 8)
}

// Puts what gets a word that is not short into a register behind a list.
fn put_long(code: &mut Vec<FlatInstruction>, into: u32, word: u64) -> Result<(), AllocError>
    ensures { OnOk result (code.new.items ≡ code.old.items ++ long_code into word) }
{
    if word < 1 << 33 {
        return put_medium(code, into, word);
    }
    put_wide(code, into, word)
}

/// Puts what gets a word into a register behind a list. It fails only for want of memory.
#[tactic(auto, unfolding(crate::specs::Operators::constant_code))]
pub fn put_constant(code: &mut Vec<FlatInstruction>, into: u32, word: u64) -> Result<(), AllocError>
    ensures { OnOk result (code.new.items ≡ code.old.items ++ constant_code into word) }
{
    if is_short(word) {
        return put(code, FlatInstruction::Constant { into, value: word });
    }
    put_long(code, into, word)
}
