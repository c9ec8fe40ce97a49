//! Live ranges as a data-flow problem.

ghost use Rattle.std.specs.Prelude.{◌≡◌, ◌<◌, ◌≤◌, ◌+◌, ◌^◌, ◌⊎◌, ℕ, IfOk, OnOk, length, Some};
ghost use Rattle.std.specs.Prelude.{true, slice_get};
ghost use Rattle.data_flow.specs.Relations.{IsRelated};
ghost use Rattle.flat_code.specs.declared.instruction.FlatInstruction.{FlatInstruction};
ghost use Rattle.reg_plan.specs.Effects.{is_among, is_read, read_by, made_by, always_made_by, next_of, taken_of};
ghost use Rattle.reg_plan.specs.Flow.{Gains, AddsSuccessor, Represents, IsNamed, HasSizes};

use crate::effects::{Reads, Span, always_made_by, made_by, next_of, read_by, taken_of};
use data_flow::Relation;
use flat_code::{FlatInstruction, FlatProgram};
use std::alloc::{AllocError, Global};

/// The problem: facts are virtual registers, nodes are instructions.
#[derive(Drop)]
pub struct Problem {
    /// From each instruction to those that lead to it.
    pub edges: Relation,
    /// From each virtual register to the instructions that read it, and those behind one that always makes it.
    pub generated: Relation,
    /// From each virtual register to the instructions that make it.
    pub killed: Relation,
}

// Relates so many virtual registers to a node.
fn relate_span(relation: &mut Relation, span: Span, node: u32) -> Result<(), AllocError>
    requires { (y : ℕ) → is_among span y ≡ true → y < length relation.old.rows.items }
    ensures gains { OnOk result (Gains relation.old relation.new (λ y. is_among span y ≡ true) node) }
    ensures size { length relation.new.rows.items ≡ length relation.old.rows.items }
{
    let first = u64::from(span.first);
    let end = first + u64::from(span.count);
    for register in first..end {
        relation.relate(register as usize, node)?;
    }
    Ok(())
}

// Relates what an instruction reads to its node.
fn relate_reads(relation: &mut Relation, reads: Reads, node: u32) -> Result<(), AllocError>
    requires { (y : ℕ) → is_read reads y ≡ true → y < length relation.old.rows.items }
    ensures gains { OnOk result (Gains relation.old relation.new (λ y. is_read reads y ≡ true) node) }
    ensures size { length relation.new.rows.items ≡ length relation.old.rows.items }
{
    relate_span(relation, reads.left, node)?;
    relate_span(relation, reads.right, node)?;
    relate_span(relation, reads.others, node)?;
    Ok(())
}

// Adds the edge to where an instruction leads, if that is one of so many instructions, and the facts that it always
// makes.
fn add_successor(
    problem: &mut Problem,
    made: Span,
    place: u32,
    to: Option<u64>,
    count: u32,
) -> Result<(), AllocError>
    requires edges { count ≤ length problem.old.edges.rows.items }
    requires facts { (y : ℕ) → is_among made y ≡ true → y < length problem.old.generated.rows.items }
    ensures adds { OnOk result (AddsSuccessor problem.old problem.new (λ y. is_among made y ≡ true) place to count) }
    ensures sizes { (n k : ℕ) → HasSizes problem.old n k → HasSizes problem.new n k }
{
    match to {
        Some(next) if next < u64::from(count) => {
            problem.edges.relate(next as usize, place)?;
            relate_span(&mut problem.generated, made, next as u32)?;
            Ok(())
        }
        _ => Ok(()),
    }
}

// Adds the facts and edges of the instruction at a place.
fn add_instruction(
    problem: &mut Problem,
    program: &FlatProgram,
    function: u32,
    body: &[FlatInstruction],
    place: u32,
) -> Result<(), AllocError>
    requires place { place < length body.now }
    requires count { length body.now < 2 ^ 32 }
    requires sizes { HasSizes problem.old (length body.now) (length problem.old.killed.rows.items) }
    requires named { IsNamed program.now function body.now (length problem.old.killed.rows.items) }
    requires represents { Represents program.now function body.now place problem.old }
    ensures represents { OnOk result (Represents program.now function body.now (place + 1) problem.new) }
    ensures sizes { (n k : ℕ) → HasSizes problem.old n k → HasSizes problem.new n k }
{
    let instruction = &body[place as usize];
    let count = body.len() as u32;
    relate_reads(
        &mut problem.generated,
        read_by(program, function, instruction),
        place,
    )?;
    relate_span(&mut problem.killed, made_by(program, instruction), place)?;
    let always = always_made_by(program, instruction);
    let at = u64::from(place);
    add_successor(problem, always, place, next_of(instruction, at), count)?;
    add_successor(problem, always, place, taken_of(instruction, at), count)?;
    Ok(())
}

/// The problem whose solutions are the live ranges of a function with so many virtual registers.
pub fn problem_of(
    alloc: Global,
    program: &FlatProgram,
    function: u32,
    body: &[FlatInstruction],
    registers: usize,
) -> Result<Problem, AllocError>
    requires count { length body.now < 2 ^ 32 }
    requires named { IsNamed program.now function body.now registers }
    ensures represents { IfOk result (λ problem. Represents program.now function body.now (length body.now) problem) }
    ensures sizes { IfOk result (λ problem. HasSizes problem (length body.now) registers) }
{
    let mut problem = Problem {
        edges: Relation::new(alloc, body.len())?,
        generated: Relation::new(alloc, registers)?,
        killed: Relation::new(alloc, registers)?,
    };
    for place in 0..body.len() {
        add_instruction(&mut problem, program, function, body, place as u32)?;
    }
    Ok(problem)
}
