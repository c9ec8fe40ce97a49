//! An interpreter of the flat code of routines.

use crate::memory::{Memory, SPACES};
use crate::operators::{branched, load_size, loaded, operated, operated32, store_size};
use flat_code::{FlatInstruction, RightOperand};
use sb_base::Ending;
use std::alloc::{AllocError, Global};

/// How many virtual registers there are.
pub const REGISTERS: usize = 128;

/// An access of object space by a function of the program.
#[derive(Clone, Copy)]
pub struct Access {
    pub is_write: bool,
    pub address: u64,
    pub size: u64,
}

/// Registers, a memory, and what was shown so far.
#[derive(Drop)]
pub struct Machine {
    pub values: [u64; REGISTERS],
    pub memory: Memory,
    pub output: Vec<u8>,
    pub accesses: Vec<Access>,
    /// What a run that ended has reported.
    pub report: Vec<u8>,
    pub steps: u64,
}

/// How a run was left.
#[derive(Clone, Copy, PartialEq, Eq)]
pub enum Left {
    /// Past the last instruction.
    Past,
    /// With the run over, with this status.
    Over(u8),
    /// With the values from this register on returned.
    Returned(u32),
    /// At what may not be done, or after too many steps.
    Lost,
}

// Where an instruction leads: on past so many further ones, back by so many, or to an end.
enum Next {
    On(usize),
    Back(usize),
    Over(u8),
    Returned(u32),
    Lost,
}

impl Machine {
    pub fn new(alloc: Global, memory: Memory) -> Machine {
        Machine {
            values: [0; REGISTERS],
            memory,
            output: Vec::new(alloc),
            accesses: Vec::new(alloc),
            report: Vec::new(alloc),
            steps: 0,
        }
    }

    pub fn value(&self, register: u32) -> u64 {
        self.values.get(register as usize).copied().unwrap_or(0)
    }

    /// Sets a register; false where there is none.
    pub fn set(&mut self, register: u32, value: u64) -> bool {
        match self.values.get_mut(register as usize) {
            Some(place) => {
                *place = value;
                true
            }
            None => false,
        }
    }

    fn right(&self, operand: RightOperand) -> u64 {
        match operand {
            RightOperand::Register(register) => self.value(register),
            RightOperand::Number(number) => number,
        }
    }

    /// Runs the instructions from the first on, at most a hundred thousand steps.
    pub fn run(&mut self, code: &[FlatInstruction]) -> Result<Left, AllocError> {
        let mut place = 0usize;
        for _ in 0..100_000u32 {
            let Some(instruction) = code.get(place) else {
                return Ok(if place == code.len() {
                    Left::Past
                } else {
                    Left::Lost
                });
            };
            self.steps = self.steps.wrapping_add(1);
            match self.step(*instruction)? {
                Next::On(past) => place = place.saturating_add(1).saturating_add(past),
                Next::Back(back) => place = place.saturating_sub(back),
                Next::Over(status) => return Ok(Left::Over(status)),
                Next::Returned(from) => return Ok(Left::Returned(from)),
                Next::Lost => return Ok(Left::Lost),
            }
        }
        Ok(Left::Lost)
    }

    fn step(&mut self, instruction: FlatInstruction) -> Result<Next, AllocError> {
        Ok(match instruction {
            FlatInstruction::Constant { into, value } => self.give(into, Some(value)),
            FlatInstruction::Move { into, from } => {
                let value = self.value(from);
                self.give(into, Some(value))
            }
            FlatInstruction::Operate {
                op,
                into,
                left,
                right,
            } => {
                let value = operated(op, self.value(left), self.right(right));
                self.give(into, value)
            }
            FlatInstruction::Operate32 {
                op,
                into,
                left,
                right,
            } => {
                let value = operated32(op, self.value(left), self.right(right));
                self.give(into, value)
            }
            FlatInstruction::Branch {
                op,
                left,
                right,
                past,
            } => match branched(op, self.value(left), self.right(right)) {
                Some(true) => Next::On(past as usize),
                Some(false) => Next::On(0),
                None => Next::Lost,
            },
            FlatInstruction::JumpForward { past } => Next::On(past as usize),
            FlatInstruction::JumpBack { back } => Next::Back(back as usize),
            other => return self.act(other),
        })
    }

    fn give(&mut self, into: u32, value: Option<u64>) -> Next {
        let Some(value) = value else {
            return Next::Lost;
        };
        if self.set(into, value) {
            Next::On(0)
        } else {
            Next::Lost
        }
    }

    // An instruction that looks at more than registers.
    fn act(&mut self, instruction: FlatInstruction) -> Result<Next, AllocError> {
        match instruction {
            FlatInstruction::Load {
                op,
                into,
                at,
                offset,
            } => {
                let address = self.value(at).wrapping_add(offset as u64);
                let size = load_size(op);
                self.note(false, address, size)?;
                match self.memory.load(address, size) {
                    Some(number) => Ok(self.give(into, Some(loaded(op, number)))),
                    None => Ok(Next::Lost),
                }
            }
            FlatInstruction::Store {
                op,
                at,
                offset,
                from,
            } => {
                let address = self.value(at).wrapping_add(offset as u64);
                let size = store_size(op);
                self.note(true, address, size)?;
                let number = self.value(from);
                let done = self.memory.store(address, size, number);
                Ok(if done { Next::On(0) } else { Next::Lost })
            }
            FlatInstruction::Put { from } => {
                let byte = self.value(from) & 0xff;
                self.output.push(byte as u8)?;
                Ok(Next::On(0))
            }
            FlatInstruction::End(ending) => self.end(&ending),
            FlatInstruction::Return { from } => Ok(Next::Returned(from)),
            _ => Ok(Next::Lost),
        }
    }

    fn note(&mut self, is_write: bool, address: u64, size: usize) -> Result<(), AllocError> {
        if address < SPACES {
            self.accesses.push(Access {
                is_write,
                address,
                size: size as u64,
            })?;
        }
        Ok(())
    }

    fn end(&mut self, ending: &Ending) -> Result<Next, AllocError> {
        self.report_of(ending)?;
        Ok(Next::Over(ending.code()))
    }

    /// Reports an ending.
    pub fn report_of(&mut self, ending: &Ending) -> Result<(), AllocError> {
        let mut text = [0; sb_base::ending::REPORT_ROOM];
        let count = ending.report_into(&mut text);
        self.report.extend_from_slice(&text[..count])
    }
}
