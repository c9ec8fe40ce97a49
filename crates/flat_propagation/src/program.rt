//! Programs whose operands are taken from where their values come.

ghost use Rattle.std.specs.Prelude.{◌≡◌, ◌<◌, ◌+◌, ◌^◌, ◌++◌, ◌∷◌, [], ℕ, length, map, if◌then◌else◌};
ghost use Rattle.std.specs.Prelude.{IfOk, OnOk};
ghost use Rattle.data_flow.specs.NodeSets.{is_in, node_count};
ghost use Rattle.flat_propagation.specs.Facts.{nothing};
ghost use Rattle.flat_propagation.specs.Known.{after};
ghost use Rattle.flat_propagation.specs.Propagated.{rewritten, rewritten_from, propagated_function, propagated};
ghost use Rattle.flat_propagation.specs.Tables.{facts_of, IsBefore};

use crate::follow::follow;
use crate::rewrite::rewritten;
use crate::table::FactTable;
use crate::targets::targets_of;
use data_flow::NodeSet;
use flat_code::{FlatFunction, FlatInstruction, FlatProgram};
use std::alloc::{AllocError, Global};
use tree_containers::Items;

// Where a jump leads nothing is known.
fn enter(table: &mut FactTable, targets: &NodeSet, place: usize)
    requires place { place < node_count targets.now }
    requires before { IsBefore table.old (place + 1) }
    requires small { place + 1 < 2 ^ 64 }
    ensures facts { (y : ℕ) → facts_of table.new y
        ≡ (if is_in targets.now place then nothing else facts_of table.old) y }
    ensures before { IsBefore table.new (place + 1) }
{
    if targets.contains(place) {
        table.forget(place + 1);
    }
}

// An instruction with its operands taken from where they come, and the table behind it.
fn propagate_instruction(
    table: &mut FactTable,
    instruction: &FlatInstruction,
    place: usize,
) -> Result<FlatInstruction, AllocError>
    requires before { IsBefore table.old (place + 1) }
    requires small { place + 2 < 2 ^ 64 }
    ensures instruction { IfOk result (λ i. i ≡ rewritten (facts_of table.old) instruction.now) }
    ensures facts { OnOk result ((y : ℕ) → facts_of table.new y ≡ after (facts_of table.old) instruction.now y) }
    ensures before { OnOk result (IsBefore table.new (place + 2)) }
{
    let propagated = rewritten(table, instruction);
    follow(table, instruction, place + 1)?;
    Ok(propagated)
}

// The propagated body of a function.
fn propagate_body(
    alloc: Global,
    body: &[FlatInstruction],
) -> Result<Vec<FlatInstruction>, AllocError>
    ensures { IfOk result (λ list. list.items ≡ rewritten_from body.now 0 body.now) }
{
    let targets = targets_of(alloc, body)?;
    let mut table = FactTable::new(alloc);
    let mut list = Vec::new(alloc);
    for place in 0..body.len() {
        enter(&mut table, &targets, place);
        let instruction = propagate_instruction(&mut table, &body[place], place)?;
        list.push(instruction)?;
    }
    Ok(list)
}

// A propagated function.
fn propagate_function(alloc: Global, function: FlatFunction) -> Result<FlatFunction, AllocError>
    ensures { IfOk result (λ f. f ≡ propagated_function function) }
{
    let FlatFunction {
        parameters,
        results,
        room,
        is_runtime,
        homes,
        body,
    } = function;
    let list = propagate_body(alloc, body.as_slice())?;
    Ok(FlatFunction {
        parameters,
        results,
        room,
        is_runtime,
        homes,
        body: Items::from_vec(list),
    })
}

/// The propagated program. It fails only for want of memory.
#[tactic(auto, unfolding(crate::specs::Propagated::propagated))]
pub fn propagate(alloc: Global, program: FlatProgram) -> Result<FlatProgram, AllocError>
    ensures { IfOk result (λ p. p ≡ propagated program) }
{
    let FlatProgram { functions, entry } = program;
    let mut list = Vec::new(alloc);
    for function in functions.into_vec() {
        list.push(propagate_function(alloc, function)?)?;
    }
    Ok(FlatProgram {
        functions: Items::from_vec(list),
        entry,
    })
}
