//! Runs of three-address code.

use crate::call::Arguments;
use crate::kind::{FIRST_CALL, Finder, cost, finder_of, kind_of};
use crate::state::{Access, Budgets, State, Stop};
use std::alloc::{AllocError, Global};
use tac_ir::Tac;

/// The most steps of a run.
const STEPS: u64 = 10_000_000;

/// What a run came to.
#[derive(Drop)]
pub struct Outcome {
    /// How it stopped.
    pub stop: Stop,
    /// The kind of its last instruction.
    pub finder: Finder,
    /// The bytes that it put out.
    pub output: Vec<u8>,
    /// The accesses of objects that it made, in their order.
    pub accesses: Vec<Access>,
    /// The units of work that it did.
    pub work: u64,
    /// The turns that it began.
    pub turns: u64,
}

// The instruction at a node is done, and its kind is marked.
fn step(
    state: &mut State,
    code: &Tac,
    node: usize,
    done: &mut [bool],
    finder: &mut Finder,
) -> Result<usize, Stop> {
    let Some(function) = code.functions.as_slice().get(state.function) else {
        return Err(Stop::Stuck);
    };
    let Some(instruction) = function.code.as_slice().get(node) else {
        return Err(Stop::Stuck);
    };
    *finder = finder_of(instruction);
    if let Some(mark) = done.get_mut(kind_of(instruction)) {
        *mark = true;
    }
    state.spend(cost(instruction));
    state.act(code, function, instruction)
}

fn begin(state: &mut State, code: &Tac) -> Result<usize, Stop> {
    let Some(function) = code.functions.as_slice().get(code.main) else {
        return Err(Stop::Stuck);
    };
    let arguments = Arguments { first: 0, count: 0 };
    state.spend(FIRST_CALL);
    state.call(code, code.main, arguments, function.line, None)
}

// Goes on from the call of `main` to the end: how the run stops, and the kind of its last instruction.
fn finish(state: &mut State, code: &Tac, done: &mut [bool]) -> (Stop, Finder) {
    let mut finder = Finder::Other;
    let mut node = match begin(state, code) {
        Ok(entry) => entry,
        Err(stop) => return (stop, finder),
    };
    for _ in 0..STEPS {
        match step(state, code, node, done, &mut finder) {
            Ok(next) => node = next,
            Err(stop) => return (stop, finder),
        }
    }
    (Stop::Stuck, finder)
}

/// Runs a program on an input from the call of `main` on, and marks in `done` the kinds of instructions that it does,
/// each at the place of its name in `KIND_NAMES`. A run of over 10,000,000 steps is stuck. An error: there is no memory
/// for the static objects.
pub fn run(
    alloc: Global,
    budgets: &Budgets,
    code: &Tac,
    input: Vec<u8>,
    done: &mut [bool],
) -> Result<Outcome, AllocError> {
    let mut state = State::new(alloc, budgets, code, input)?;
    let (stop, finder) = finish(&mut state, code, done);
    let State {
        output,
        accesses,
        work,
        turns,
        ..
    } = state;
    Ok(Outcome {
        stop,
        finder,
        output,
        accesses,
        work,
        turns,
    })
}
