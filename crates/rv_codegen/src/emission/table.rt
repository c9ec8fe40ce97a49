//! The jump table, and where a program begins.

ghost use Rattle.std.specs.Prelude.{◌≡◌, ◌+◌, ◌*◌, ◌<◌, ◌^◌, ◌++◌, OnOk};
ghost use Rattle.addr_map.specs.Places.{region_start};
ghost use Rattle.machine_laws.specs.Calls.Calls.{row};
ghost use Rattle.machine_laws.specs.Calls.Table.{source_count, row_address};
ghost use Rattle.machine_laws.specs.Following.Start.{start_block};

use crate::emission::calls::{argument_words, callee_scratch, jump_to};
use crate::emission::constants::{put_wide, upper};
use addr_map::{AddrMap, Region};
use flat_code::FlatProgram;
use rv_isa::{Imm12, Instr, Reg};
use std::alloc::AllocError;

/// Puts the entry of the jump table of a function whose first instruction stands at an address.
pub fn put_row(code: &mut Vec<Instr>, address: u128) -> Result<(), AllocError>
    requires { address < 2 ^ 127 }
    ensures { OnOk result (code.new.items ≡ code.old.items ++ row address) }
{
    let link = Reg::new(31);
    code.push(Instr::Lui {
        rd: link,
        imm: upper(address),
    })?;
    code.push(Instr::Jalr {
        rd: Reg::ZERO,
        rs1: link,
        imm: Imm12::new((address % 0x1000) as u16),
    })?;
    code.push(Instr::Ebreak)?;
    code.push(Instr::Ebreak)?;
    Ok(())
}

/// The bytes of the start with the tails of endings.
pub const START_BYTES: u64 = 36 + 4 * 626;

/// Where the start of a program stands: behind the entries of so many functions.
pub fn start_address(sources: u32) -> u64
    ensures { result ≡ 0x10000 + 16 * sources }
{
    0x1_0000 + 16 * u64::from(sources)
}

/// Where the tails of endings stand: behind the start.
pub(crate) fn tails_address(sources: u32) -> u64
    ensures value { result ≡ 0x10000 + 16 * sources + 36 }
    ensures low { result < 2 ^ 62 }
{
    start_address(sources) + 36
}

/// The address of the jump table entry of a function: that of one of the first stands before the start, and those of
/// the others behind it and the tails of endings.
#[tactic(auto, using(crate::proofs::EmittedCode::Table::row_is))]
pub(crate) fn row_address(program: &FlatProgram, sources: u32, number: u32) -> u64
    requires { sources ≡ source_count program.now }
    ensures { result ≡ row_address program.now number }
{
    let entry = 0x1_0000 + 16 * u64::from(number);
    if number < sources {
        entry
    } else {
        entry + START_BYTES
    }
}

/// Puts the first instructions of a program: the registers of the back end get their addresses, and the entry is
/// called.
pub fn put_start(
    code: &mut Vec<Instr>,
    map: &AddrMap,
    program: &FlatProgram,
    sources: u32,
) -> Result<(), AllocError>
    requires { sources ≡ source_count program.now }
    ensures { OnOk result (code.new.items ≡ code.old.items ++ start_block map.now program.now) }
{
    put_wide(code, Reg::SP, u128::from(map.region(Region::Calls).0))?;
    put_wide(
        code,
        argument_words(),
        u128::from(map.region(Region::Arguments).0),
    )?;
    put_wide(
        code,
        Reg::new(4),
        u128::from(map.region(Region::RuntimeCalls).0),
    )?;
    put_wide(
        code,
        callee_scratch(),
        u128::from(row_address(program, sources, program.entry)),
    )?;
    code.push(jump_to(Reg::RA, callee_scratch()))?;
    Ok(())
}
