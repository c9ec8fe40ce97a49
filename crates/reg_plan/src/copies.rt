//! Which virtual registers a function copies to each other.

ghost use Rattle.std.specs.Prelude.{◌≡◌, ℕ, IfOk, length};

use crate::plan::{Place, REGISTERS};
use data_flow::Relation;
use flat_code::FlatInstruction;
use std::alloc::{AllocError, Global};

// Relates a virtual register to another, if both have homes.
fn relate(copies: &mut Relation, one: u32, other: u32) -> Result<(), AllocError>
    ensures { length copies.new.rows.items ≡ length copies.old.rows.items }
{
    if (one as usize) < copies.rows.len() {
        copies.relate(one as usize, other)?;
    }
    Ok(())
}

// Relates the two of a copy to each other.
fn relate_copied(copies: &mut Relation, instruction: &FlatInstruction) -> Result<(), AllocError>
    ensures { length copies.new.rows.items ≡ length copies.old.rows.items }
{
    match *instruction {
        FlatInstruction::Move { into, from } => {
            relate(copies, into, from)?;
            relate(copies, from, into)
        }
        _ => Ok(()),
    }
}

/// For each of so many virtual registers those from and to which an instruction copies it, once for each instruction.
pub(crate) fn copies_of(
    alloc: Global,
    body: &[FlatInstruction],
    registers: usize,
) -> Result<Relation, AllocError>
    ensures { IfOk result (λ copies. length copies.rows.items ≡ registers) }
{
    let mut copies = Relation::new(alloc, registers)?;
    for instruction in body {
        relate_copied(&mut copies, instruction)?;
    }
    Ok(copies)
}

/// How many copies join a virtual register to those that are kept in each register.
#[derive(Drop)]
pub(crate) struct Votes {
    counts: Vec<u32>,
}

impl Votes {
    /// None.
    pub(crate) fn new(alloc: Global) -> Result<Votes, AllocError> {
        let counts = vec![in alloc; 0; REGISTERS as usize]?;
        Ok(Votes { counts })
    }

    /// How many for a register.
    pub(crate) fn of(&self, register: u32) -> u32 {
        match self.counts.get(register as usize) {
            Some(count) => *count,
            None => 0,
        }
    }

    // One more for the register of a place.
    fn add(&mut self, place: Place) {
        match place {
            Place::Register(register) if (register as usize) < self.counts.len() => {
                let count = self.counts[register as usize];
                self.counts[register as usize] = count.saturating_add(1);
            }
            _ => {}
        }
    }

    /// Those of the places of virtual registers, so far as these have one.
    pub(crate) fn count(&mut self, places: &[Place], registers: &[u32]) {
        self.counts.fill(0);
        for register in registers {
            if (*register as usize) < places.len() {
                self.add(places[*register as usize]);
            }
        }
    }
}
