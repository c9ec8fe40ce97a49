// The text of an instruction, as GNU objdump prints it with the options `numeric` and `no-aliases`.

use crate::names;
use rv_isa::{Imm12, Imm20, Instr, Reg};
use std::fmt::{self, Display, Formatter};

/// An instruction at an address, from which the targets of branches and jumps count.
#[derive(Drop)]
pub struct Listing<'a> {
    pub instr: &'a Instr,
    pub address: u64,
}

impl Display for Listing<'_> {
    fn fmt<W: fmt::Write>(&self, f: &mut Formatter<W>) -> fmt::Result {
        match self.instr {
            Instr::Lui { rd, imm } => fmt_upper(f, "lui", rd, imm),
            Instr::Auipc { rd, imm } => fmt_upper(f, "auipc", rd, imm),
            Instr::Jal { rd, imm } => {
                let target = self.address.wrapping_add(imm.sign_extended());
                write!(f, "jal x{},0x{target:x}", rd.number())
            }
            Instr::Jalr { rd, rs1, imm } => fmt_memory(f, "jalr", rd, imm, rs1),
            Instr::Branch { op, rs1, rs2, imm } => {
                let name = names::branch(*op);
                let target = self.address.wrapping_add(imm.sign_extended());
                write!(f, "{name} x{},x{},0x{target:x}", rs1.number(), rs2.number())
            }
            Instr::Load { op, rd, rs1, imm } => fmt_memory(f, names::load(*op), rd, imm, rs1),
            Instr::Store { op, rs1, rs2, imm } => fmt_memory(f, names::store(*op), rs2, imm, rs1),
            Instr::OpImm { op, rd, rs1, imm } => {
                fmt_immediate(f, names::immediate(*op), rd, rs1, imm)
            }
            Instr::ShiftImm { op, rd, rs1, shamt } => {
                fmt_shift(f, names::shift(*op), rd, rs1, shamt.bits())
            }
            Instr::Addiw { rd, rs1, imm } => fmt_immediate(f, "addiw", rd, rs1, imm),
            Instr::ShiftImm32 { op, rd, rs1, shamt } => {
                fmt_shift(f, names::shift32(*op), rd, rs1, shamt.bits())
            }
            Instr::Op { op, rd, rs1, rs2 } => fmt_registers(f, names::register(*op), rd, rs1, rs2),
            Instr::Op32 { op, rd, rs1, rs2 } => {
                fmt_registers(f, names::register32(*op), rd, rs1, rs2)
            }
            Instr::Fence { fields, .. } => fmt_fence(f, fields),
            Instr::Ecall => f.write_str("ecall"),
            Instr::Ebreak => f.write_str("ebreak"),
        }
    }
}

// Of the U format.
fn fmt_upper<W: fmt::Write>(
    f: &mut Formatter<W>,
    name: &str,
    rd: &Reg,
    imm: &Imm20,
) -> fmt::Result {
    write!(f, "{name} x{},0x{:x}", rd.number(), imm.bits())
}

// Of a load, a store or JALR: a register, and the place that lies `imm` past the base.
fn fmt_memory<W: fmt::Write>(
    f: &mut Formatter<W>,
    name: &str,
    register: &Reg,
    imm: &Imm12,
    base: &Reg,
) -> fmt::Result {
    let offset = imm.sign_extended().cast_signed();
    write!(
        f,
        "{name} x{},{offset}(x{})",
        register.number(),
        base.number()
    )
}

fn fmt_immediate<W: fmt::Write>(
    f: &mut Formatter<W>,
    name: &str,
    rd: &Reg,
    rs1: &Reg,
    imm: &Imm12,
) -> fmt::Result {
    let value = imm.sign_extended().cast_signed();
    write!(f, "{name} x{},x{},{value}", rd.number(), rs1.number())
}

fn fmt_shift<W: fmt::Write>(
    f: &mut Formatter<W>,
    name: &str,
    rd: &Reg,
    rs1: &Reg,
    amount: u8,
) -> fmt::Result {
    write!(f, "{name} x{},x{},0x{amount:x}", rd.number(), rs1.number())
}

fn fmt_registers<W: fmt::Write>(
    f: &mut Formatter<W>,
    name: &str,
    rd: &Reg,
    rs1: &Reg,
    rs2: &Reg,
) -> fmt::Result {
    write!(
        f,
        "{name} x{},x{},x{}",
        rd.number(),
        rs1.number(),
        rs2.number()
    )
}

// FENCE orders the predecessor set, imm[7:4], before the successor set, imm[3:0].
fn fmt_fence<W: fmt::Write>(f: &mut Formatter<W>, fields: &Imm12) -> fmt::Result {
    let bits = fields.bits();
    f.write_str("fence ")?;
    fmt_accesses(f, bits / 16 % 16)?;
    f.write_str(",")?;
    fmt_accesses(f, bits % 16)
}

// A set of accesses: device input is 8, device output 4, memory reads 2, memory writes 1.
fn fmt_accesses<W: fmt::Write>(f: &mut Formatter<W>, set: u16) -> fmt::Result {
    for (bit, letter) in [(8, "i"), (4, "o"), (2, "r"), (1, "w")] {
        if set & bit != 0 {
            f.write_str(letter)?;
        }
    }
    Ok(())
}
