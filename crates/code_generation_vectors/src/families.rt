//! Families of instructions, which a row names with a count.

use crate::instruction::{Numbers, instruction, low, right};
use crate::list::put;
use crate::operators::{CONDITIONS, OPERATORS, OPERATORS_32, find};
use anyhow::{Context, Result, bail};
use flat_code::{FlatInstruction, RightOperand};
use rv_isa::{BranchOp, RegOp, RegOp32};
use std::alloc::{AllocError, Global};

/// Words at the edges of 32 and 64 bits.
const EDGES: [u64; 11] = [
    0,
    1,
    0x7fff_ffff,
    0x8000_0000,
    0xffff_ffff,
    0x1234_5678_9abc_def1,
    0x7fff_ffff_ffff_ffff,
    0x8000_0000_0000_0000,
    0x8000_0000_0000_0001,
    0xffff_ffff_8000_0000,
    0xffff_ffff_ffff_ffff,
];

/// Numbers about those that fit an instruction themselves: shifts by less than 32 and 64, and immediates of -2048 to
/// 2047.
const NUMBERS: [u64; 10] = [
    31,
    32,
    63,
    64,
    2047,
    2048,
    2049,
    0xffff_ffff_ffff_f7ff,
    0xffff_ffff_ffff_f800,
    0xffff_ffff_ffff_f801,
];

/// The instructions of a function so far. The function that shows a word has the number 1 and takes it as its argument.
#[derive(Drop)]
pub struct Body {
    pub instructions: Vec<FlatInstruction>,
}

impl Body {
    /// No instructions.
    pub fn new(alloc: Global) -> Body {
        Body {
            instructions: Vec::new(alloc),
        }
    }

    fn put(&mut self, instruction: FlatInstruction) -> Result<(), AllocError> {
        put(&mut self.instructions, instruction)
    }

    fn constant(&mut self, into: u32, value: u64) -> Result<(), AllocError> {
        self.put(FlatInstruction::Constant { into, value })
    }

    // So many turns.
    fn turns(&mut self, count: u64) -> Result<(), AllocError> {
        for _ in 0..count {
            self.put(FlatInstruction::Turn)?;
        }
        Ok(())
    }

    // A register is added to one so many times.
    fn sums(&mut self, into: u64, from: u64, count: u64) -> Result<(), AllocError> {
        for _ in 0..count {
            self.put(FlatInstruction::Operate {
                op: RegOp::Add,
                into: low(into),
                left: low(into),
                right: right(true, from),
            })?;
        }
        Ok(())
    }

    // Each of so many registers from one on gets a number of its own, of 31 bits.
    fn fill(&mut self, first: u64, count: u64) -> Result<(), AllocError> {
        for k in first..first.saturating_add(count) {
            let value = k.wrapping_mul(0x9e37_79b9) % 0x7fff_f800;
            self.constant(low(k), value)?;
        }
        Ok(())
    }

    // What is mixed so far, times 31, and a register added.
    fn mix_one(&mut self, into: u32, from: u32) -> Result<(), AllocError> {
        self.put(FlatInstruction::Operate {
            op: RegOp::Mul,
            into,
            left: into,
            right: RightOperand::Number(31),
        })?;
        self.put(FlatInstruction::Operate {
            op: RegOp::Add,
            into,
            left: into,
            right: RightOperand::Register(from),
        })
    }

    // So many registers from one on are mixed.
    fn mix(&mut self, first: u64, count: u64, into: u64) -> Result<(), AllocError> {
        for k in first..first.saturating_add(count) {
            self.mix_one(low(into), low(k))?;
        }
        Ok(())
    }

    // Register 3 is shown.
    fn show(&mut self) -> Result<(), AllocError> {
        self.put(FlatInstruction::Call {
            function: 1,
            first: 3,
            into: 0,
        })
    }

    // An operator of 64 bits on registers 0 and 1, or on register 0 and a number; its result is mixed into register 3.
    fn operate(&mut self, op: RegOp, right: RightOperand) -> Result<(), AllocError> {
        self.put(FlatInstruction::Operate {
            op,
            into: 2,
            left: 0,
            right,
        })?;
        self.mix_one(3, 2)
    }

    // The same of 32 bits.
    fn operate32(&mut self, op: RegOp32, right: RightOperand) -> Result<(), AllocError> {
        self.put(FlatInstruction::Operate32 {
            op,
            into: 2,
            left: 0,
            right,
        })?;
        self.mix_one(3, 2)
    }

    // Whether a condition holds is mixed into register 3.
    fn branch(&mut self, op: BranchOp, right: RightOperand) -> Result<(), AllocError> {
        self.constant(2, 1)?;
        self.put(FlatInstruction::Branch {
            op,
            left: 0,
            right,
            past: 1,
        })?;
        self.constant(2, 2)?;
        self.mix_one(3, 2)
    }

    // An operator or a condition by its name.
    fn tried(&mut self, name: &str, edge: u64) -> Result<()> {
        if let Some((op, is_register)) = find(&OPERATORS, name) {
            self.operate(op, operand(is_register, edge))?;
            return Ok(());
        }
        if let Some((op, is_register)) = find(&OPERATORS_32, name) {
            self.operate32(op, operand(is_register, edge))?;
            return Ok(());
        }
        let (op, is_register) = find(&CONDITIONS, name).context("an operator")?;
        self.branch(op, operand(is_register, edge))?;
        Ok(())
    }

    // It is tried with the left operand and each of these on the right.
    fn try_each(&mut self, name: &str, rights: &[u64]) -> Result<()> {
        for edge in rights {
            self.constant(1, *edge)?;
            self.tried(name, *edge)?;
        }
        Ok(())
    }

    // It is tried with one left operand and each edge on the right, also with each number where it takes one, and what
    // was mixed is shown.
    fn try_left(&mut self, name: &str, left: u64) -> Result<()> {
        self.constant(0, left)?;
        self.constant(3, 0)?;
        self.try_each(name, &EDGES)?;
        if name.ends_with('i') {
            self.try_each(name, &NUMBERS)?;
        }
        self.show()?;
        Ok(())
    }

    // And with each edge on the left.
    fn try_all(&mut self, name: &str) -> Result<()> {
        for edge in EDGES {
            self.try_left(name, edge)?;
        }
        Ok(())
    }

    /// Puts the instructions of a line.
    pub fn put_line(&mut self, line: &str) -> Result<()> {
        let mut words = line.split(' ');
        let name = words.next().context("an instruction")?;
        if name == "try" {
            return self.try_all(words.next().context("an operator")?);
        }
        self.put_numbers(name, Numbers::read(line)?)
    }

    // An instruction, if there is one.
    fn put_other(&mut self, other: Option<FlatInstruction>) -> Result<()> {
        match other {
            Some(instruction) => Ok(self.put(instruction)?),
            None => bail!("no instruction"),
        }
    }

    // The same of its numbers.
    fn put_numbers(&mut self, name: &str, n: Numbers) -> Result<()> {
        match name {
            "turns" => self.turns(n.first)?,
            "sums" => self.sums(n.first, n.second, n.third)?,
            "fill" => self.fill(n.first, n.second)?,
            "mix" => self.mix(n.first, n.second, n.third)?,
            _ => return self.put_other(instruction(name, n)),
        }
        Ok(())
    }
}

// Register 1, or a number.
fn operand(is_register: bool, edge: u64) -> RightOperand {
    if is_register {
        right(true, 1)
    } else {
        right(false, edge)
    }
}
