//! What is known of each register, in a table: a register that is made anew takes one entry, whatever else was known of
//! its value.

ghost use Rattle.std.specs.Prelude.{◌≡◌, ◌≤◌, ◌+◌, ◌<◌, ℕ, OnOk, length};
ghost use Rattle.flat_propagation.specs.declared.fact.Fact.TheVariants.{Unknown};
ghost use Rattle.flat_propagation.specs.Facts.{names, right_names, unless_named, with_fact};
ghost use Rattle.flat_propagation.specs.Tables.{made_at, right_stays, stays, fact_among, facts_of, AreBefore, IsBefore};

use crate::fact::Fact;
use flat_code::RightOperand;
use std::alloc::{AllocError, Global};

/// What is recorded of a register.
#[derive(Clone, Copy)]
pub struct Entry {
    pub fact: Fact,
    /// When the fact was recorded.
    pub recorded: usize,
    /// When the register was last made.
    pub made: usize,
}

/// The facts of all registers. Of registers behind its end nothing is known.
#[derive(Drop)]
pub struct FactTable {
    pub entries: Vec<Entry>,
    /// When the basic block began: what was recorded before is no longer known.
    pub block: usize,
}

fn right_names(right: RightOperand, register: u32) -> bool
    ensures { result ≡ right_names right register }
{
    match right {
        RightOperand::Register(named) => named == register,
        RightOperand::Number(_) => false,
    }
}

fn names(fact: Fact, register: u32) -> bool
    ensures { result ≡ names fact register }
{
    match fact {
        Fact::Unknown => false,
        Fact::Same(named) => named == register,
        Fact::Word(_) => false,
        Fact::Difference { left, right } => left == register || right_names(right, register),
        Fact::Condition { op: _, left, right } => left == register || right_names(right, register),
    }
}

// A fact, unless it speaks of the value of a register.
fn unless_named(fact: Fact, register: u32) -> Fact
    ensures { result ≡ unless_named fact register }
{
    if names(fact, register) {
        return Fact::Unknown;
    }
    fact
}

// When a register was last made.
fn made_at(entries: &[Entry], register: u32) -> usize
    ensures { result ≡ made_at entries.now register }
{
    match entries.get(register as usize) {
        Some(entry) => entry.made,
        None => 0,
    }
}

// Whether a right operand was not made since a time.
fn right_stays(entries: &[Entry], recorded: usize, right: RightOperand) -> bool
    ensures { result ≡ right_stays entries.now recorded right }
{
    match right {
        RightOperand::Register(register) => made_at(entries, register) <= recorded,
        RightOperand::Number(_) => true,
    }
}

// Whether nothing that a fact speaks of was made since a time.
fn stays(entries: &[Entry], recorded: usize, fact: Fact) -> bool
    ensures { result ≡ stays entries.now recorded fact }
{
    match fact {
        Fact::Unknown => true,
        Fact::Same(register) => made_at(entries, register) <= recorded,
        Fact::Word(_) => true,
        Fact::Difference { left, right } => {
            made_at(entries, left) <= recorded && right_stays(entries, recorded, right)
        }
        Fact::Condition { op: _, left, right } => {
            made_at(entries, left) <= recorded && right_stays(entries, recorded, right)
        }
    }
}

// What is known of a register.
fn fact_among(entries: &[Entry], block: usize, register: u32) -> Fact
    ensures { result ≡ fact_among entries.now block register }
{
    match entries.get(register as usize) {
        Some(entry) => {
            if block <= entry.recorded && stays(entries, entry.recorded, entry.fact) {
                entry.fact
            } else {
                Fact::Unknown
            }
        }
        None => Fact::Unknown,
    }
}

// Makes entries up to that of a register.
fn reach(entries: &mut Vec<Entry>, register: u32) -> Result<(), AllocError>
    ensures has { OnOk result (register < length entries.new.items) }
    ensures facts { (block y : ℕ) → fact_among entries.new.items block y ≡ fact_among entries.old.items block y }
    ensures before { (time : ℕ) → 0 < time → AreBefore entries.old.items time → AreBefore entries.new.items time }
{
    let missing = (register as usize + 1).saturating_sub(entries.len());
    for step in 0..missing {
        entries.push(Entry {
            fact: Fact::Unknown,
            recorded: 0,
            made: 0,
        })?;
    }
    Ok(())
}

impl FactTable {
    /// The table in which nothing is known.
    #[tactic(auto, unfolding(crate::specs::Tables::facts_of))]
    pub fn new(alloc: Global) -> FactTable
        ensures nothing { (y : ℕ) → facts_of result y ≡ Unknown }
        ensures before { (time : ℕ) → IsBefore result time }
    {
        FactTable {
            entries: Vec::new(alloc),
            block: 0,
        }
    }

    /// What is known of a register.
    #[tactic(auto, unfolding(crate::specs::Tables::facts_of))]
    pub fn fact(&self, register: u32) -> Fact
        ensures { result ≡ facts_of self.now register }
    {
        fact_among(self.entries.as_slice(), self.block, register)
    }

    /// A basic block begins at a time: nothing is known.
    #[tactic(auto, unfolding(crate::specs::Tables::facts_of))]
    pub fn forget(&mut self, time: usize)
        requires { IsBefore self.old time }
        ensures nothing { (y : ℕ) → facts_of self.new y ≡ Unknown }
        ensures before { IsBefore self.new time }
    {
        self.block = time;
    }

    /// A register is made anew at a time, and this is known of it. It fails only for want of memory.
    #[tactic(auto, unfolding(crate::specs::Tables::facts_of))]
    pub fn make(&mut self, register: u32, fact: Fact, time: usize) -> Result<(), AllocError>
        requires begun { 0 < time }
        requires before { IsBefore self.old time }
        ensures facts { OnOk result ((y : ℕ) → facts_of self.new y ≡ with_fact (facts_of self.old) register fact y) }
        ensures before { OnOk result (IsBefore self.new (time + 1)) }
    {
        reach(&mut self.entries, register)?;
        self.entries[register as usize] = Entry {
            fact: unless_named(fact, register),
            recorded: time,
            made: time,
        };
        Ok(())
    }
}
