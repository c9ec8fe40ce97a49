//! Live ranges of all virtual registers of a function.

ghost use Rattle.std.specs.Prelude.{◌≡◌, ◌<◌, ◌≤◌, ◌+◌, ◌-◌, ◌^◌, ℕ, IfOk, OnOk, length, Some};
ghost use Rattle.std.specs.Prelude.{true, slice_get};
ghost use Rattle.std.specs.List.Sorted.{IsNonDecreasing};
ghost use Rattle.data_flow.specs.Relations.{Has};
ghost use Rattle.data_flow.specs.NodeSets.{node_count};
ghost use Rattle.data_flow.specs.Stretches.{AreStretches};
ghost use Rattle.reg_plan.specs.Needs.{IsNeeded};
ghost use Rattle.reg_plan.specs.Flow.{Represents, IsNamed, HasSizes};
ghost use Rattle.reg_plan.specs.Accepted.{covers, intervals_of};

use crate::flow::{Problem, problem_of};
use crate::intervals::intervals;
use crate::plan::LiveInterval;
use data_flow::{NodeSet, Stretches, least_runs};
use flat_code::{FlatInstruction, FlatProgram};
use std::alloc::{AllocError, Global};

// The numbers of a list, sorted.
fn sorted(alloc: Global, list: &[u32]) -> Result<Vec<u32>, AllocError>
    ensures sorted { IfOk result (λ sorted. IsNonDecreasing sorted.items) }
    ensures has { IfOk result (λ sorted. (x : ℕ) → Has list.now x → Has sorted.items x) }
    ensures only { IfOk result (λ sorted. (x : ℕ) → Has sorted.items x → Has list.now x) }
{
    let mut sorted = Vec::from_slice(alloc, list)?;
    sorted.sort()?;
    Ok(sorted)
}

// A function of a program, the data-flow problem of its virtual registers, and where stretches of its instructions
// begin.
#[derive(Clone, Copy)]
struct Analysis<'a> {
    program: &'a FlatProgram,
    function: u32,
    body: &'a [FlatInstruction],
    problem: &'a Problem,
    stretches: &'a Stretches,
}

// The live range of one virtual register.
fn live_range(
    alloc: Global,
    analysis: &Analysis,
    register: usize,
    begun: &mut NodeSet,
    killing: &mut NodeSet,
) -> Result<Vec<LiveInterval>, AllocError>
    requires count { length analysis.now.body.now < 2 ^ 32 }
    requires represents { Represents analysis.now.program.now analysis.now.function analysis.now.body.now
        (length analysis.now.body.now) analysis.now.problem.now }
    requires stretches { AreStretches analysis.now.problem.now.edges analysis.now.stretches.now }
    requires begun_size { node_count begun.old ≡ length analysis.now.body.now }
    requires killing_size { node_count killing.old ≡ length analysis.now.body.now }
    ensures needed { IfOk result
        (λ list. (pc : ℕ) → IsNeeded analysis.now.program.now analysis.now.function analysis.now.body.now pc register
        → covers list.items pc ≡ true) }
    ensures only { IfOk result
        (λ list. (pc : ℕ) → covers list.items pc ≡ true
        → IsNeeded analysis.now.program.now analysis.now.function analysis.now.body.now pc register) }
    ensures begun_size { node_count begun.new ≡ length analysis.now.body.now }
    ensures killing_size { node_count killing.new ≡ length analysis.now.body.now }
{
    let killed = sorted(alloc, analysis.problem.killed.images(register))?;
    let runs = least_runs(
        alloc,
        &analysis.problem.edges,
        analysis.stretches,
        analysis.problem.generated.images(register),
        &killed,
        begun,
        killing,
    )?;
    let range = intervals(alloc, runs)?;
    Ok(range)
}

/// The live ranges of the virtual registers of a function, so many of which have homes: each is exactly where its
/// value is needed. It takes time for the instructions, for what they read and make and for the intervals, each with
/// the logarithm of the instructions.
pub fn live_ranges(
    alloc: Global,
    program: &FlatProgram,
    function: u32,
    body: &[FlatInstruction],
    registers: usize,
) -> Result<Vec<Vec<LiveInterval>>, AllocError>
    requires count { length body.now < 2 ^ 32 }
    requires named { IsNamed program.now function body.now registers }
    ensures size { IfOk result (λ ranges. length ranges.items ≡ registers) }
    ensures needed { IfOk result
        (λ ranges. (pc y : ℕ) → y < registers → IsNeeded program.now function body.now pc y
        → covers (intervals_of (slice_get ranges.items y)) pc ≡ true) }
    ensures only { IfOk result
        (λ ranges. (pc y : ℕ) → covers (intervals_of (slice_get ranges.items y)) pc ≡ true
        → IsNeeded program.now function body.now pc y) }
{
    let problem = problem_of(alloc, program, function, body, registers)?;
    let stretches = Stretches::new(alloc, &problem.edges)?;
    let analysis = Analysis {
        program,
        function,
        body,
        problem: &problem,
        stretches: &stretches,
    };
    let mut begun = NodeSet::new(alloc, body.len())?;
    let mut killing = NodeSet::new(alloc, body.len())?;
    let mut ranges = Vec::new(alloc);
    for register in 0..registers {
        let range = live_range(alloc, &analysis, register, &mut begun, &mut killing)?;
        ranges.push(range)?;
    }
    Ok(ranges)
}
