//! Endings, and the tails that they share.

ghost use Rattle.std.specs.Prelude.{◌≡◌, ◌+◌, ◌*◌, ◌<◌, ◌≤◌, ◌^◌, ◌%◌, ◌++◌, length, OnOk};
ghost use Rattle.sb_base.specs.Endings.{code_of};
ghost use Rattle.rv_isa.specs.declared.instruction.StoreOp.TheVariants as bytes;
ghost use Rattle.rv_isa.specs.declared.instruction.Instr.TheVariants.{Store};
ghost use Rattle.machine_laws.specs.Blocks.Places.{address_scratch};
ghost use Rattle.machine_laws.specs.Blocks.Tails.{what_of, text_before, text_bytes, newline, line_digits, line_text};
ghost use Rattle.machine_laws.specs.Blocks.Tails.{written, ended, tail_block, tails_of, tails, jump_block, end_block};

use crate::emission::calls::{argument_words, callee_scratch};
use crate::emission::constants::{addi, put_wide, upper};
use crate::emission::values::{left_scratch, right_scratch};
use rv_isa::{BranchOffset, BranchOp, Imm12, Instr, Reg, RegOp, RegOp32, StoreOp};
use sb_base::{Ending, Line};
use std::alloc::AllocError;

// The register for far addresses, and for a digit.
fn address_scratch() -> Reg
    ensures { result ≡ address_scratch }
{
    Reg::new(7)
}

// A store of a byte at an offset behind the address in a register.
fn store_byte(base: Reg, from: Reg, offset: u32) -> Instr
    ensures { result ≡ Store bytes.Sb base from (offset % 2 ^ 12) }
{
    Instr::Store {
        op: StoreOp::Sb,
        rs1: base,
        rs2: from,
        imm: Imm12::low(offset),
    }
}

// Puts stores of bytes, one behind another from an offset behind the address in a register on.
#[tactic(auto, using(crate::proofs::EmittedCode::Lists::nothing_behind))]
fn put_text_bytes(
    code: &mut Vec<Instr>,
    base: Reg,
    offset: u32,
    text: &[u8],
) -> Result<(), AllocError>
    requires { offset + length text.now < 2 ^ 11 }
    ensures { OnOk result (code.new.items ≡ code.old.items ++ text_bytes base offset text.now) }
{
    for (place, byte) in text.iter().enumerate() {
        code.push(addi(left_scratch(), Reg::ZERO, u64::from(*byte) % 0x800))?;
        code.push(store_byte(base, left_scratch(), offset + place as u32))?;
    }
    Ok(())
}

// Puts the newline of a report.
fn put_newline(code: &mut Vec<Instr>) -> Result<(), AllocError>
    ensures { OnOk result (code.new.items ≡ code.old.items ++ newline) }
{
    code.push(addi(callee_scratch(), argument_words(), 63))?;
    code.push(addi(right_scratch(), Reg::ZERO, 10))?;
    code.push(store_byte(callee_scratch(), right_scratch(), 0))?;
    Ok(())
}

// An operator of the low 32 bits by ten.
fn by_ten(op: RegOp32, rd: Reg) -> Instr
    ensures { result ≡ Rattle.rv_isa.specs.declared.instruction.Instr.TheVariants.Op32 op rd 5 6 }
{
    Instr::Op32 {
        op,
        rd,
        rs1: left_scratch(),
        rs2: right_scratch(),
    }
}

// Puts what stores the digits of the line.
fn put_line_digits(code: &mut Vec<Instr>) -> Result<(), AllocError>
    ensures { OnOk result (code.new.items ≡ code.old.items ++ line_digits) }
{
    let digit = address_scratch();
    let place = callee_scratch();
    code.push(by_ten(RegOp32::Remuw, digit))?;
    code.push(addi(digit, digit, 48))?;
    code.push(addi(place, place, 0xfff))?;
    code.push(store_byte(place, digit, 0))?;
    code.push(by_ten(RegOp32::Divuw, left_scratch()))?;
    code.push(Instr::Branch {
        op: BranchOp::Bne,
        rs1: left_scratch(),
        rs2: Reg::ZERO,
        imm: BranchOffset::new(0x1fec),
    })?;
    Ok(())
}

// Puts what stores the text before them.
#[tactic(auto, using(crate::proofs::EmittedCode::Lists::line_text_is))]
fn put_line_text(code: &mut Vec<Instr>, what: &[u8]) -> Result<(), AllocError>
    requires { length what.now ≤ 18 }
    ensures { OnOk result (code.new.items ≡ code.old.items ++ line_text (text_before what.now)) }
{
    let base = callee_scratch();
    let length = 17 + what.len() as u64;
    code.push(addi(base, base, (0x1000 - length) % 0x1000))?;
    put_text_bytes(code, base, 0, b"sbcets: ")?;
    put_text_bytes(code, base, 8, what)?;
    put_text_bytes(code, base, 8 + what.len() as u32, b" at line ")?;
    Ok(())
}

// Puts one write of the report to the error output.
fn put_written(code: &mut Vec<Instr>) -> Result<(), AllocError>
    ensures { OnOk result (code.new.items ≡ code.old.items ++ written) }
{
    code.push(addi(Reg::A7, Reg::ZERO, 64))?;
    code.push(addi(Reg::A0, Reg::ZERO, 2))?;
    code.push(addi(Reg::A1, callee_scratch(), 0))?;
    code.push(addi(Reg::A2, argument_words(), 64))?;
    code.push(Instr::Op {
        op: RegOp::Sub,
        rd: Reg::A2,
        rs1: Reg::A2,
        rs2: callee_scratch(),
    })?;
    code.push(Instr::Ecall)?;
    Ok(())
}

// Puts the ending with a status.
fn put_ended(code: &mut Vec<Instr>, status: u8) -> Result<(), AllocError>
    ensures { OnOk result (code.new.items ≡ code.old.items ++ ended status) }
{
    code.push(addi(Reg::A0, Reg::ZERO, u64::from(status) % 0x800))?;
    code.push(addi(Reg::A7, Reg::ZERO, 93))?;
    code.push(Instr::Ecall)?;
    Ok(())
}

// What is reported of an ending.
fn what_of(ending: &Ending) -> &'static [u8]
    ensures value { result.now ≡ what_of ending.now }
    ensures short { length result.now ≤ 18 }
{
    match *ending {
        Ending::Exit(_) => b"",
        Ending::Spatial(_) => b"spatial violation",
        Ending::Temporal(_) => b"temporal violation",
        Ending::BadCall(_) => b"bad call",
        Ending::BadFree(_) => b"bad free",
        Ending::Divide(_) => b"division by zero",
        Ending::Stack(_) => b"stack exhausted",
        Ending::Keys(_) => b"keys exhausted",
        Ending::Abort(_) => b"abort",
    }
}

// Puts a tail.
fn put_tail(code: &mut Vec<Instr>, what: &[u8], status: u8) -> Result<(), AllocError>
    requires { length what.now ≤ 18 }
    ensures { OnOk result (code.new.items ≡ code.old.items ++ tail_block what.now status) }
{
    put_newline(code)?;
    put_line_digits(code)?;
    put_line_text(code, what)?;
    put_written(code)?;
    put_ended(code, status)?;
    Ok(())
}

// Puts the tails of endings, one behind another.
#[tactic(auto, using(crate::proofs::EmittedCode::Lists::nothing_behind))]
fn put_tails_of(code: &mut Vec<Instr>, endings: &[Ending]) -> Result<(), AllocError>
    ensures { OnOk result (code.new.items ≡ code.old.items ++ tails_of endings.now) }
{
    for ending in endings {
        put_tail(code, what_of(ending), ending.code())?;
    }
    Ok(())
}

/// Puts the tails of all kinds of endings.
#[tactic(auto, unfolding(machine_laws::specs::Blocks::Tails::tails))]
pub fn put_tails(code: &mut Vec<Instr>) -> Result<(), AllocError>
    ensures { OnOk result (code.new.items ≡ code.old.items ++ tails) }
{
    let line = Line::first();
    let reported = [
        Ending::Spatial(line),
        Ending::Temporal(line),
        Ending::BadCall(line),
        Ending::BadFree(line),
        Ending::Divide(line),
        Ending::Stack(line),
        Ending::Keys(line),
        Ending::Abort(line),
    ];
    put_tails_of(code, &reported)
}

// Puts the line of an ending into a register, and the jump to a tail.
fn put_jump_to_tail(code: &mut Vec<Instr>, line: Line, tail: u64) -> Result<(), AllocError>
    ensures { OnOk result (code.new.items ≡ code.old.items ++ jump_block line tail) }
{
    put_wide(code, left_scratch(), u128::from(line.number()))?;
    code.push(Instr::Lui {
        rd: address_scratch(),
        imm: upper(u128::from(tail)),
    })?;
    code.push(Instr::Jalr {
        rd: Reg::ZERO,
        rs1: address_scratch(),
        imm: Imm12::new((tail % 0x1000) as u16),
    })?;
    Ok(())
}

/// Puts an ending, where the tails stand from an address on.
pub(crate) fn put_end(
    code: &mut Vec<Instr>,
    tails_begin: u64,
    ending: &Ending,
) -> Result<(), AllocError>
    requires { tails_begin < 2 ^ 63 }
    ensures { OnOk result (code.new.items ≡ code.old.items ++ end_block tails_begin ending.now) }
{
    match *ending {
        Ending::Exit(_) => put_ended(code, ending.code()),
        Ending::Spatial(line) => put_jump_to_tail(code, line, tails_begin),
        Ending::Temporal(line) => put_jump_to_tail(code, line, tails_begin + 4 * 87),
        Ending::BadCall(line) => put_jump_to_tail(code, line, tails_begin + 4 * 176),
        Ending::BadFree(line) => put_jump_to_tail(code, line, tails_begin + 4 * 245),
        Ending::Divide(line) => put_jump_to_tail(code, line, tails_begin + 4 * 314),
        Ending::Stack(line) => put_jump_to_tail(code, line, tails_begin + 4 * 399),
        Ending::Keys(line) => put_jump_to_tail(code, line, tails_begin + 4 * 482),
        Ending::Abort(line) => put_jump_to_tail(code, line, tails_begin + 4 * 563),
    }
}
