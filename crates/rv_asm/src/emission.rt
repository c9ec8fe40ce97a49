//! The words of items at their places.
ghost use Rattle.std.specs.Prelude.{
  ◌≡◌,
  ◌+◌,
  ◌<◌,
  ◌^◌,
  ◌++◌,
  OnOk,
  [],
  length,
  map,
};
ghost use Rattle.rv_isa.specs.Table.{word_of};
ghost use Rattle.rv_asm.specs.Forms.{size};
ghost use Rattle.rv_asm.specs.Tables.{entry};
ghost use Rattle.rv_asm.specs.Words.{
  branch_instrs,
  instrs_of,
  jump_instrs,
  offset,
  opposite,
  words_from,
};

use crate::form::Form;
use crate::item::Item;
use crate::layout::target_place;
use rv_isa::{BranchOffset, BranchOp, Imm12, Imm20, Instr, JumpOffset, Reg, encode};
use std::alloc::AllocError;

/// The condition that holds where this one does not.
fn opposite(op: BranchOp) -> BranchOp
    ensures { result ≡ opposite op }
{
    match op {
        BranchOp::Beq => BranchOp::Bne,
        BranchOp::Bne => BranchOp::Beq,
        BranchOp::Blt => BranchOp::Bge,
        BranchOp::Bge => BranchOp::Blt,
        BranchOp::Bltu => BranchOp::Bgeu,
        BranchOp::Bgeu => BranchOp::Bltu,
    }
}

/// From one place to another in bytes, modulo 2^32.
fn offset(from: u128, to: u128) -> u32
    requires { from < 2 ^ 29 }
    ensures { result ≡ offset 32 from to }
{
    // modulo 2^32 bytes places are told apart modulo 2^30
    ((0x1_0000_0000 + 4 * (to % 0x4000_0000) - 4 * from) % 0x1_0000_0000) as u32
}

/// Puts a jump that leaves the address behind it in `link`.
fn put_jump(
    words: &mut Vec<u32>,
    form: Form,
    link: Reg,
    from: u128,
    to: u128,
) -> Result<(), AllocError>
    requires { from < 2 ^ 29 }
    ensures { OnOk result (words.new.items ≡ words.old.items ++ map word_of (jump_instrs form link from to)) }
{
    let offset = offset(from, to);
    match form {
        Form::Short | Form::Near => {
            words.push(encode(Instr::Jal {
                rd: link,
                imm: JumpOffset::new(offset % 0x20_0000),
            }))?;
        }
        Form::Far => {
            let upper = (u64::from(offset) + 0x800) / 0x1000 % 0x10_0000;
            words.push(encode(Instr::Auipc {
                rd: Reg::new(31),
                imm: Imm20::new(upper as u32),
            }))?;
            words.push(encode(Instr::Jalr {
                rd: link,
                rs1: Reg::new(31),
                imm: Imm12::new((offset % 0x1000) as u16),
            }))?;
        }
    }
    Ok(())
}

/// Puts a branch.
fn put_branch(
    words: &mut Vec<u32>,
    form: Form,
    op: BranchOp,
    rs1: Reg,
    rs2: Reg,
    from: u128,
    to: u128,
) -> Result<(), AllocError>
    requires { from < 2 ^ 28 }
    ensures { OnOk result (words.new.items ≡ words.old.items ++ map word_of (branch_instrs form op rs1 rs2 from to)) }
{
    match form {
        Form::Short => {
            let imm = BranchOffset::new((offset(from, to) % 0x2000) as u16);
            words.push(encode(Instr::Branch { op, rs1, rs2, imm }))?;
        }
        Form::Near | Form::Far => {
            words.push(encode(Instr::Branch {
                op: opposite(op),
                rs1,
                rs2,
                imm: BranchOffset::new(if form == Form::Near { 8 } else { 12 }),
            }))?;
            put_jump(words, form, Reg::ZERO, from + 1, to)?;
        }
    }
    Ok(())
}

/// Puts an item.
fn put_item(
    words: &mut Vec<u32>,
    form: Form,
    item: &Item,
    from: u128,
    to: u128,
) -> Result<(), AllocError>
    requires { from < 2 ^ 28 }
    ensures { OnOk result (words.new.items ≡ words.old.items ++ map word_of (instrs_of form from to item.now)) }
{
    match *item {
        Item::Label(_) => {}
        Item::Instr(instr) => words.push(encode(instr))?,
        Item::Jump { .. } => put_jump(words, form, Reg::ZERO, from, to)?,
        Item::Call { .. } => put_jump(words, form, Reg::RA, from, to)?,
        Item::Branch { op, rs1, rs2, .. } => put_branch(words, form, op, rs1, rs2, from, to)?,
    }
    Ok(())
}

/// Puts all items, in their forms, with the places of labels that are in the table.
pub(crate) fn put_items(
    words: &mut Vec<u32>,
    table: &[u128],
    forms: &[Form],
    items: &[Item],
) -> Result<(), AllocError>
    requires empty { words.old.items ≡ [] }
    requires many { length forms.now ≡ length items.now }
    requires room { size forms.now items.now < 2 ^ 28 }
    ensures { OnOk result (words.new.items ≡ words_from (entry table.now) 0 forms.now items.now) }
{
    let mut place = 0u128;
    for (index, item) in items.iter().enumerate() {
        let form = forms[index];
        put_item(words, form, item, place, target_place(table, item))?;
        place += u128::from(form.size(item));
    }
    Ok(())
}
