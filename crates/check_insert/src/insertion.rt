//! Insertion, function by function.

ghost use Rattle.std.specs.Prelude.{◌≡◌, IfOk, map};
ghost use Rattle.std.specs.Prelude.{get_or};
ghost use Rattle.tac_ir.specs.Bodies.{HaveClosedBodies, HaveNoneAdded, KeepVariables};
ghost use Rattle.check_insert.specs.Building.{checked_function, with_added_at};
ghost use Rattle.check_insert.specs.Inserted.{Inserted};

use crate::access::{CheckedCode, with_checks};
use std::alloc::{AllocError, Global};
use tac_ir::{CodeFunction, CountedLoop, Span, Tac};
use tree_containers::Items;

// Where the checks of a node begin behind all nodes; those of a node that is not there are at the end.
fn place_of(places: &[usize], node: usize, end: usize) -> usize
    ensures { result ≡ get_or places.now node end }
{
    match places.get(node) {
        Some(place) => *place,
        None => end,
    }
}

// A counted loop with the nodes that the checks in its body have besides.
fn with_added(counted: CountedLoop, places: &[usize], end: usize) -> CountedLoop
    ensures { result ≡ with_added_at places.now end counted }
{
    CountedLoop {
        added: Span {
            start: place_of(places, counted.body.start, end),
            end: place_of(places, counted.body.end, end),
        },
        ..counted
    }
}

fn checked_loops(
    alloc: Global,
    loops: &[CountedLoop],
    places: &[usize],
    end: usize,
) -> Result<Vec<CountedLoop>, AllocError>
    ensures { IfOk result (λ ls. ls.items ≡ map (with_added_at places.now end) loops.now) }
{
    let mut all = Vec::new(alloc);
    for counted in loops {
        all.push(with_added(*counted, places, end))?;
    }
    Ok(all)
}

// A function with its checks put in.
fn checked_function(alloc: Global, function: CodeFunction) -> Result<CodeFunction, AllocError>
    ensures { IfOk result (λ r. r ≡ checked_function function) }
{
    let checked = with_checks(alloc, function.code.as_slice())?;
    let end = checked.nodes.as_slice().len();
    let places = checked.places.as_slice();
    let loops = checked_loops(alloc, function.loops.as_slice(), places, end)?;
    let CheckedCode { nodes, places: _ } = checked;
    Ok(CodeFunction {
        code: Items::from_vec(nodes),
        loops: Items::from_vec(loops),
        ..function
    })
}

fn checked_functions(
    alloc: Global,
    functions: Vec<CodeFunction>,
) -> Result<Vec<CodeFunction>, AllocError>
    ensures { IfOk result (λ r. r.items ≡ map checked_function functions.items) }
{
    let mut checked = Vec::new(alloc);
    for function in functions {
        checked.push(checked_function(alloc, function)?)?;
    }
    Ok(checked)
}

/// The program with its checks put in, made of the given one: each access through a pointer gets a spatial and then a
/// temporal check, in code that no run reaches too. Nodes keep their numbers, keys and blocks stay, and counted loops
/// but for the nodes that checks add to their bodies: these are closed where they were. An error comes where there is
/// no memory for it.
pub fn insert(alloc: Global, program: Tac) -> Result<Tac, AllocError>
    ensures checks { IfOk result (λ checked. Inserted program checked) }
    ensures closed { IfOk result
        (λ checked. HaveNoneAdded program → HaveClosedBodies program → HaveClosedBodies checked) }
    ensures variables { IfOk result (λ checked. HaveNoneAdded program → HaveClosedBodies program
        → KeepVariables program → KeepVariables checked) }
{
    let Tac {
        functions,
        results,
        main,
        statics,
        global_bytes,
        texts,
    } = program;
    let checked = checked_functions(alloc, functions.into_vec())?;
    Ok(Tac {
        functions: Items::from_vec(checked),
        results,
        main,
        statics,
        global_bytes,
        texts,
    })
}
