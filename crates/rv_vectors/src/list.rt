//! Labelled lists as text, an item a line: `label L`, `word W`, `jump L`, `call L`, a branch's name with two registers
//! and a label, or `nops N`, so many times NOP. For each list the program prints the places and words of all
//! instructions but NOP, how many words there are, and a line `%%`; or `refused` where the list cannot be assembled.

use crate::number::{decimal, word};
use anyhow::{Context, Result, bail};
use rv_asm::{Item, Label, assemble, is_assemblable, word_count};
use rv_isa::{BranchOp, Instr, Reg, decode};
use std::alloc::Global;

// ADDI x0, x0, 0 (RISC-V unprivileged ISA manual, "NOP Instruction").
const NOP: u32 = 0x0000_0013;

// The items so far, and the instruction of which `nops N` puts many.
#[derive(Drop)]
struct List {
    items: Vec<Item>,
    filler: Instr,
}

impl List {
    fn put_text(&mut self, text: &str) -> Result<()> {
        for line in text.lines() {
            self.put_line(line)?;
        }
        Ok(())
    }

    fn put_line(&mut self, line: &str) -> Result<()> {
        let mut words = line.split(' ');
        let name = words.next().context("an item")?;
        let (first, second, third) = (words.next(), words.next(), words.next());
        if name == "nops" {
            self.put_nops(decimal(first)?)
        } else {
            self.put_item(item(name, first, second, third)?)
        }
    }

    fn put_item(&mut self, item: Item) -> Result<()> {
        self.items.push(item)?;
        Ok(())
    }

    fn put_nops(&mut self, count: u32) -> Result<()> {
        for _ in 0..count {
            self.put_item(Item::Instr(self.filler))?;
        }
        Ok(())
    }
}

fn item(
    name: &str,
    first: Option<&str>,
    second: Option<&str>,
    third: Option<&str>,
) -> Result<Item> {
    Ok(match name {
        "label" => Item::Label(label(first)?),
        "word" => Item::Instr(instruction(word(first)?)?),
        "jump" => Item::Jump { to: label(first)? },
        "call" => Item::Call { to: label(first)? },
        _ => Item::Branch {
            op: condition(name)?,
            rs1: register(first)?,
            rs2: register(second)?,
            to: label(third)?,
        },
    })
}

fn instruction(word: u32) -> Result<Instr> {
    decode(word).context("an instruction")
}

fn label(number: Option<&str>) -> Result<Label> {
    Ok(Label::new(decimal(number)?))
}

fn register(number: Option<&str>) -> Result<Reg> {
    let number = decimal(number)?;
    if number < 32 {
        Ok(Reg::new(number as u8))
    } else {
        bail!("no register")
    }
}

const CONDITIONS: [(&str, BranchOp); 6] = [
    ("beq", BranchOp::Beq),
    ("bne", BranchOp::Bne),
    ("blt", BranchOp::Blt),
    ("bge", BranchOp::Bge),
    ("bltu", BranchOp::Bltu),
    ("bgeu", BranchOp::Bgeu),
];

fn condition(word: &str) -> Result<BranchOp> {
    for (name, op) in CONDITIONS.iter() {
        if *name == word {
            return Ok(*op);
        }
    }
    bail!("no item")
}

fn put_words(rt: &HostRuntime, words: &[u32]) -> Result<()> {
    for (place, word) in words.iter().enumerate() {
        if *word != NOP {
            println!(rt; "{place} {word:08x}")?;
        }
    }
    Ok(())
}

// The words of a list, and how many they are.
fn assembled(alloc: Global, items: &[Item]) -> Result<Option<(Vec<u32>, u128)>> {
    if !is_assemblable(alloc, items)? {
        return Ok(None);
    }
    let count = word_count(alloc, items)?;
    match assemble(alloc, items) {
        Ok(words) => Ok(Some((words, count))),
        Err(_) => bail!("out of memory"),
    }
}

fn put_assembled(rt: &HostRuntime, items: &[Item]) -> Result<()> {
    match assembled(rt.alloc(), items) {
        Ok(Some((words, count))) => put_whole(rt, &words, count),
        Ok(None) => put_refused(rt),
        Err(error) => Err(error),
    }
}

fn put_whole(rt: &HostRuntime, words: &[u32], count: u128) -> Result<()> {
    put_words(rt, words)?;
    println!(rt; "{count} words\n%%")?;
    Ok(())
}

fn put_refused(rt: &HostRuntime) -> Result<()> {
    println!(rt; "refused\n%%")?;
    Ok(())
}

fn put(rt: &HostRuntime, text: &str) -> Result<()> {
    let mut list = List {
        items: Vec::new(rt.alloc()),
        filler: instruction(NOP)?,
    };
    match list.put_text(text) {
        Ok(()) => put_assembled(rt, &list.items),
        Err(error) => Err(error),
    }
}

/// Prints the words of each list.
pub fn put_all(rt: &HostRuntime, lists: &str) -> Result<()> {
    for text in lists.split("%%\n") {
        put(rt, text)?;
    }
    Ok(())
}
