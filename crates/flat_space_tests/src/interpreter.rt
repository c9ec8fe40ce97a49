//! An interpreter of the flat code that the routines are made of.

use addr_map::AddrMap;
use anyhow::{Result, bail, ensure};
use flat_code::{FlatInstruction, RightOperand};
use rv_isa::{BranchOp, RegOp};
use sb_base::{Budgets, Ending};
use std::alloc::{AllocError, Global};

/// The map of these tests: the default budgets, and 8192 bytes of static objects.
pub fn default_map() -> Result<AddrMap> {
    match AddrMap::new(&Budgets::default(), 8192) {
        Ok(map) => Ok(map),
        Err(_) => bail!("the map is too large"),
    }
}

/// Registers, and a memory of words of 8 bytes, each at a multiple of 8; what was never stored is 0.
#[derive(Drop)]
pub struct Machine {
    pub values: [u64; 32],
    words: Vec<(u64, u64)>,
}

/// How a run was left.
#[derive(Clone, Copy, PartialEq, Eq, Debug)]
pub enum Left {
    /// Past the last instruction.
    Past,
    /// With the run over, with this status.
    Over(u8),
    /// At what the interpreter does not know, or after too many steps.
    Lost,
}

impl Machine {
    pub fn new(alloc: Global) -> Machine {
        Machine {
            values: [0; 32],
            words: Vec::new(alloc),
        }
    }

    pub fn value(&self, register: u32) -> u64 {
        match self.values.get(register as usize) {
            Some(value) => *value,
            None => 0,
        }
    }

    pub fn set(&mut self, register: u32, value: u64) {
        if let Some(place) = self.values.get_mut(register as usize) {
            *place = value;
        }
    }

    pub fn load(&self, address: u64) -> u64 {
        for (at, word) in self.words.iter() {
            if *at == address {
                return *word;
            }
        }
        0
    }

    pub fn store(&mut self, address: u64, value: u64) -> Result<(), AllocError> {
        for word in self.words.iter_mut() {
            if word.0 == address {
                word.1 = value;
                return Ok(());
            }
        }
        self.words.push((address, value))?;
        Ok(())
    }

    fn right(&self, operand: RightOperand) -> u64 {
        match operand {
            RightOperand::Register(register) => self.value(register),
            RightOperand::Number(number) => number,
        }
    }

    /// Runs the instructions from the first on, at most a million steps.
    pub fn run(&mut self, code: &[FlatInstruction]) -> Result<Left, AllocError> {
        let mut place = 0usize;
        for _ in 0..1_000_000u32 {
            let Some(instruction) = code.get(place) else {
                return Ok(Left::Past);
            };
            match self.step(*instruction)? {
                Next::On(past) => place = place.saturating_add(1).saturating_add(past),
                Next::Back(back) => place = place.saturating_sub(back),
                Next::Over(status) => return Ok(Left::Over(status)),
                Next::Lost => return Ok(Left::Lost),
            }
        }
        Ok(Left::Lost)
    }

    /// Runs the instructions, which are left past the last.
    pub fn pass(&mut self, code: &[FlatInstruction]) -> Result<()> {
        let left = self.run(code)?;
        ensure!(left == Left::Past, "the code was left otherwise");
        Ok(())
    }

    fn step(&mut self, instruction: FlatInstruction) -> Result<Next, AllocError> {
        match instruction {
            FlatInstruction::Constant { into, value } => self.set(into, value),
            FlatInstruction::Move { into, from } => self.set(into, self.value(from)),
            FlatInstruction::Operate {
                op,
                into,
                left,
                right,
            } => {
                let Some(result) = operated(op, self.value(left), self.right(right)) else {
                    return Ok(Next::Lost);
                };
                self.set(into, result);
            }
            FlatInstruction::Load {
                into,
                at,
                offset,
                ..
            } => {
                self.set(into, self.load(self.value(at).wrapping_add(offset as u64)));
            }
            FlatInstruction::Store {
                at,
                offset,
                from,
                ..
            } => {
                self.store(self.value(at).wrapping_add(offset as u64), self.value(from))?;
            }
            FlatInstruction::Branch {
                op,
                left,
                right,
                past,
            } => {
                return Ok(match branched(op, self.value(left), self.right(right)) {
                    Some(true) => Next::On(past as usize),
                    Some(false) => Next::On(0),
                    None => Next::Lost,
                });
            }
            FlatInstruction::JumpForward { past } => return Ok(Next::On(past as usize)),
            FlatInstruction::JumpBack { back } => return Ok(Next::Back(back as usize)),
            FlatInstruction::End(ending) => return Ok(Next::Over(ending.code())),
            _ => return Ok(Next::Lost),
        }
        Ok(Next::On(0))
    }
}

enum Next {
    On(usize),
    Back(usize),
    Over(u8),
    Lost,
}

fn operated(op: RegOp, left: u64, right: u64) -> Option<u64> {
    match op {
        RegOp::Add => Some(left.wrapping_add(right)),
        RegOp::Sub => Some(left.wrapping_sub(right)),
        RegOp::Sll => Some(left.wrapping_shl((right % 64) as u32)),
        RegOp::Srl => Some(left.wrapping_shr((right % 64) as u32)),
        RegOp::Sltu => Some((left < right) as u64),
        _ => None,
    }
}

fn branched(op: BranchOp, left: u64, right: u64) -> Option<bool> {
    match op {
        BranchOp::Beq => Some(left == right),
        BranchOp::Bne => Some(left != right),
        BranchOp::Bltu => Some(left < right),
        BranchOp::Bgeu => Some(left >= right),
        _ => None,
    }
}
