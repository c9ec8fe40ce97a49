//! Available checks go, function by function.

ghost use Rattle.std.specs.Prelude.{◌≡◌, ◌+◌, ◌<◌, ◌^◌, ℕ, Bool, IfOk, OnOk, length, slice_get, Some, true, false};
ghost use Rattle.tac_ir.specs.declared.instruction.Instruction.{Instruction};
ghost use Rattle.check_insert.specs.Counting.{checks};
ghost use Rattle.check_elim.specs.Available.{IsAvailableCheck, IsDroppable};
ghost use Rattle.check_elim.specs.Dropped.{left_of, CodeDropped, FunctionDropped, AreDropped, Dropped};
ghost use Rattle.check_elim.specs.Searches.{HasPredecessors};
ghost use Rattle.check_elim.specs.Worklists.{IsWorklist};

use crate::facts::fact_at;
use crate::graph::predecessors;
use crate::search::is_open;
use crate::worklist::Worklist;
use check_insert::checks;
use data_flow::Relation;
use std::alloc::{AllocError, Global};
use tac_ir::{CodeFunction, Instruction, Tac};
use tree_containers::Items;

// What stands at the node of an instruction, where it goes if it is a check, or where it stays.
fn left(instruction: Instruction, gone: bool) -> Instruction
    ensures { result ≡ left_of gone instruction }
{
    match instruction {
        Instruction::Judge { next, .. } if gone => Instruction::Skip { next },
        other => other,
    }
}

// Whether the instruction at a node is an available check.
fn is_available(
    function: &CodeFunction,
    before: &Relation,
    visited: &mut Worklist,
    node: u32,
) -> Result<bool, AllocError>
    requires list { IsWorklist (length function.now.code) visited.old }
    requires inside { node < length function.now.code }
    requires graph { HasPredecessors function.now before.now }
    ensures yes { IfOk result (λ gone. gone ≡ true → (i : Instruction)
        → slice_get function.now.code node ≡ Some i → IsAvailableCheck function.now node i) }
    ensures no { IfOk result (λ gone. gone ≡ false → (i : Instruction)
        → slice_get function.now.code node ≡ Some i → IsAvailableCheck function.now node i → ⊥) }
    ensures list { OnOk result (IsWorklist (length function.now.code) visited.new) }
{
    match fact_at(function, &function.code.as_slice()[node as usize]) {
        None => Ok(false),
        Some(sought) => {
            let found = is_open(&sought, before, visited, node)?;
            Ok(!found)
        }
    }
}

// The code of a function without its available checks.
fn without_available(alloc: Global, function: &CodeFunction) -> Result<Vec<Instruction>, AllocError>
    requires few { length function.now.code < 2 ^ 32 }
    ensures { IfOk result (λ code. CodeDropped IsAvailableCheck function.now code.items) }
{
    let before = predecessors(alloc, function)?;
    let instructions = function.code.as_slice();
    let mut visited = Worklist::new(alloc, instructions.len())?;
    let mut code = Vec::new(alloc);
    for node in 0..instructions.len() as u32 {
        let gone = is_available(function, &before, &mut visited, node)?;
        code.push(left(instructions[node as usize], gone))?;
    }
    Ok(code)
}

// A function without its available checks, if the numbers of its nodes have 32 bits.
fn function_without(alloc: Global, function: CodeFunction) -> Result<CodeFunction, AllocError>
    ensures { IfOk result (λ r. FunctionDropped IsDroppable function r) }
{
    if function.code.as_slice().len() as u64 >= 1 << 32 {
        return Ok(function);
    }
    let code = without_available(alloc, &function)?;
    Ok(CodeFunction {
        code: Items::from_vec(code),
        ..function
    })
}

fn functions_without(
    alloc: Global,
    functions: Vec<CodeFunction>,
) -> Result<Vec<CodeFunction>, AllocError>
    ensures { IfOk result (λ r. AreDropped IsDroppable functions.items r.items) }
{
    let mut without = Vec::new(alloc);
    for function in functions {
        without.push(function_without(alloc, function)?)?;
    }
    Ok(without)
}

/// The program without its available checks, made of the given one, and how many went: exactly these become skips, in
/// code that no run reaches too. Nodes keep their numbers, and all else stays as it is. A function of 2^32 nodes or
/// more keeps its checks. An error comes where there is no memory for it.
pub fn drop_available(alloc: Global, program: Tac) -> Result<(Tac, u64), AllocError>
    ensures dropped { IfOk result (λ r. Dropped IsDroppable program r.0) }
    ensures count { IfOk result (λ r. checks program < 2 ^ 64 → checks r.0 + r.1 ≡ checks program) }
{
    let all = checks(&program);
    let Tac {
        functions,
        results,
        main,
        statics,
        global_bytes,
        texts,
    } = program;
    let without = functions_without(alloc, functions.into_vec())?;
    let dropped = Tac {
        functions: Items::from_vec(without),
        results,
        main,
        statics,
        global_bytes,
        texts,
    };
    let kept = checks(&dropped);
    Ok((dropped, all.saturating_sub(kept)))
}
