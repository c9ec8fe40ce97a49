//! Constants, and words of memory.

ghost use Rattle.std.specs.Prelude.{◌≡◌, ◌^◌, ◌<◌, ◌++◌, OnOk};
ghost use Rattle.rv_isa.specs.declared.instruction.ImmOp.TheVariants.{Addi};
ghost use Rattle.rv_isa.specs.declared.instruction.Instr.TheVariants.{OpImm};
ghost use Rattle.machine_laws.specs.Blocks.Blocks.{wide, digits, constant, load_at, store_at};

use rv_isa::{Imm12, Imm20, ImmOp, Instr, LoadOp, Reg, RegOp, ShiftAmount, ShiftOp, StoreOp};
use std::alloc::AllocError;

/// ADDI with the 12 bits of an immediate.
pub(crate) fn addi(rd: Reg, rs1: Reg, imm: u64) -> Instr
    requires { imm < 2 ^ 12 }
    ensures { result ≡ OpImm Addi rd rs1 imm }
{
    Instr::OpImm {
        op: ImmOp::Addi,
        rd,
        rs1,
        imm: Imm12::new(imm as u16),
    }
}

/// What LUI has of a number whose low 12 bits are added sign-extended.
pub(crate) fn upper(number: u128) -> Imm20
    requires { number < 2 ^ 127 }
    ensures { result ≡ Rattle.machine_laws.specs.Blocks.Blocks.upper number }
{
    Imm20::new(((number + 0x800) / 0x1000 % 0x10_0000) as u32)
}

/// Puts a number below 2^31 - 2^11 into a register, by LUI and ADDI. Of a greater one that comes whose low 32 bits
/// these are, sign-extended.
pub(crate) fn put_wide(code: &mut Vec<Instr>, rd: Reg, number: u128) -> Result<(), AllocError>
    requires { number < 2 ^ 127 }
    ensures { OnOk result (code.new.items ≡ code.old.items ++ wide rd number) }
{
    code.push(Instr::Lui {
        rd,
        imm: upper(number),
    })?;
    code.push(addi(rd, rd, (number % 0x1000) as u64))?;
    Ok(())
}

// Puts a number into a register eleven bits at a time, the highest first.
#[tactic(auto, using(crate::proofs::EmittedCode::Lists::one_digit), unfolding(machine_laws::specs::Blocks::Blocks::digits))]
fn put_digits(code: &mut Vec<Instr>, count: u32, rd: Reg, number: u64) -> Result<(), AllocError>
    ensures { OnOk result (code.new.items ≡ code.old.items ++ digits count rd number) }
{
    if count == 0 || number < 0x800 {
        code.push(addi(rd, Reg::ZERO, number % 0x800))?;
        return Ok(());
    }
    put_digits(code, count - 1, rd, number / 0x800)?;
    code.push(Instr::ShiftImm {
        op: ShiftOp::Slli,
        rd,
        rs1: rd,
        shamt: ShiftAmount::new(11),
    })?;
    code.push(addi(rd, rd, number % 0x800))?;
    Ok(())
}

/// Puts a number into a register; of one of more than 64 bits its low twelve, with their sign.
#[tactic(auto, unfolding(machine_laws::specs::Blocks::Blocks::constant))]
pub(crate) fn put_constant(code: &mut Vec<Instr>, rd: Reg, number: u128) -> Result<(), AllocError>
    ensures { OnOk result (code.new.items ≡ code.old.items ++ constant rd number) }
{
    if number < 0x800 || number >= 0xffff_ffff_ffff_f800 {
        code.push(addi(rd, Reg::ZERO, (number % 0x1000) as u64))?;
        Ok(())
    } else if number < 0x7fff_f800 || number >= 0xffff_ffff_8000_0000 {
        put_wide(code, rd, number)
    } else {
        put_digits(code, 5, rd, number as u64)
    }
}

/// Puts a load of the word so many bytes behind the address in a register.
#[tactic(auto, unfolding(machine_laws::specs::Blocks::Blocks::load_at))]
pub(crate) fn put_load_at(
    code: &mut Vec<Instr>,
    rd: Reg,
    base: Reg,
    offset: u64,
) -> Result<(), AllocError>
    requires { offset < 2 ^ 63 }
    ensures { OnOk result (code.new.items ≡ code.old.items ++ load_at rd base offset) }
{
    let imm = Imm12::new((offset % 0x1000) as u16);
    if offset < 0x800 {
        code.push(Instr::Load {
            op: LoadOp::Ld,
            rd,
            rs1: base,
            imm,
        })?;
        return Ok(());
    }
    code.push(Instr::Lui {
        rd,
        imm: upper(u128::from(offset)),
    })?;
    code.push(Instr::Op {
        op: RegOp::Add,
        rd,
        rs1: rd,
        rs2: base,
    })?;
    code.push(Instr::Load {
        op: LoadOp::Ld,
        rd,
        rs1: rd,
        imm,
    })?;
    Ok(())
}

/// Puts a store of a register to the word so many bytes behind the address in another.
#[tactic(auto, unfolding(machine_laws::specs::Blocks::Blocks::store_at))]
pub(crate) fn put_store_at(
    code: &mut Vec<Instr>,
    from: Reg,
    base: Reg,
    offset: u64,
) -> Result<(), AllocError>
    requires { offset < 2 ^ 63 }
    ensures { OnOk result (code.new.items ≡ code.old.items ++ store_at from base offset) }
{
    let imm = Imm12::new((offset % 0x1000) as u16);
    if offset < 0x800 {
        code.push(Instr::Store {
            op: StoreOp::Sd,
            rs1: base,
            rs2: from,
            imm,
        })?;
        return Ok(());
    }
    let address = Reg::new(7);
    code.push(Instr::Lui {
        rd: address,
        imm: upper(u128::from(offset)),
    })?;
    code.push(Instr::Op {
        op: RegOp::Add,
        rd: address,
        rs1: address,
        rs2: base,
    })?;
    code.push(Instr::Store {
        op: StoreOp::Sd,
        rs1: address,
        rs2: from,
        imm,
    })?;
    Ok(())
}
