//! What an instruction reads and makes, and where it leads.

ghost use Rattle.std.specs.Prelude.{◌≡◌, ◌<◌, ◌^◌};
ghost use Rattle.reg_plan.specs.Effects.{one, none, many, two, operand, read_by, made_by, next_of, taken_of};
ghost use Rattle.reg_plan.specs.Effects.{makes_only, unless_only, always_made_by};
ghost use Rattle.flat_code.specs.Calls.{function_in};
ghost use Rattle.flat_code.specs.Meaning.{parameters_of, results_of};

use flat_code::{FlatInstruction, FlatProgram, RightOperand};

/// So many virtual registers from one on.
#[derive(Clone, Copy)]
pub struct Span {
    pub first: u32,
    pub count: u32,
}

impl Span {
    const NONE: Span = Span { first: 0, count: 0 };

    fn one(register: u32) -> Span
        ensures { result ≡ one register }
    {
        Span {
            first: register,
            count: 1,
        }
    }

    fn many(first: u32, count: u32) -> Span
        ensures { result ≡ many first count }
    {
        Span { first, count }
    }
}

/// What an instruction reads.
#[derive(Clone, Copy)]
pub struct Reads {
    pub left: Span,
    pub right: Span,
    pub others: Span,
}

// How many arguments a function takes; 0 where there is no such function.
fn parameters(program: &FlatProgram, function: u32) -> u32
    ensures { result ≡ parameters_of (function_in program.now function) }
{
    match program.functions.as_slice().get(function as usize) {
        Some(callee) => callee.parameters,
        None => 0,
    }
}

// How many results it gives.
fn results(program: &FlatProgram, function: u32) -> u32
    ensures { result ≡ results_of (function_in program.now function) }
{
    match program.functions.as_slice().get(function as usize) {
        Some(callee) => callee.results,
        None => 0,
    }
}

// The virtual register of a right operand.
fn operand(right: RightOperand) -> Span
    ensures { result ≡ operand right }
{
    match right {
        RightOperand::Register(register) => Span::one(register),
        RightOperand::Number(_) => Span::NONE,
    }
}

impl Reads {
    fn two(left: Span, right: Span) -> Reads
        ensures { result ≡ two left right }
    {
        Reads {
            left,
            right,
            others: Span::NONE,
        }
    }

    fn many(left: Span, first: u32, count: u32) -> Reads
        ensures { result ≡ record { left = left; right = none; others = many first count } }
    {
        Reads {
            left,
            right: Span::NONE,
            others: Span { first, count },
        }
    }
}

/// What an instruction of the function with a number reads.
pub fn read_by(program: &FlatProgram, function: u32, instruction: &FlatInstruction) -> Reads
    ensures { result ≡ read_by program.now function instruction.now }
{
    match *instruction {
        FlatInstruction::Move { from, .. } => Reads::two(Span::one(from), Span::NONE),
        FlatInstruction::Operate { left, right, .. } => Reads::two(Span::one(left), operand(right)),
        FlatInstruction::Operate32 { left, right, .. } => Reads::two(
            Span::one(left),
            operand(right),
        ),
        FlatInstruction::Load { at, .. } => Reads::two(Span::one(at), Span::NONE),
        FlatInstruction::Store { at, from, .. } => Reads::two(Span::one(at), Span::one(from)),
        FlatInstruction::Branch { left, right, .. } => Reads::two(Span::one(left), operand(right)),
        FlatInstruction::Call {
            function,
            first,
            ..
        } => { Reads::many(Span::NONE, first, parameters(program, function)) }
        FlatInstruction::CallAddress {
            at,
            first,
            count,
            ..
        } => Reads::many(Span::one(at), first, count),
        FlatInstruction::Return { from } => Reads::many(
            Span::NONE,
            from,
            results(program, function),
        ),
        FlatInstruction::Put { from } => Reads::two(Span::one(from), Span::NONE),
        FlatInstruction::Exit { status } => Reads::two(Span::one(status), Span::NONE),
        _ => Reads::two(Span::NONE, Span::NONE),
    }
}

/// What it makes.
pub fn made_by(program: &FlatProgram, instruction: &FlatInstruction) -> Span
    ensures { result ≡ made_by program.now instruction.now }
{
    match *instruction {
        FlatInstruction::Constant { into, .. } => Span::one(into),
        FlatInstruction::Move { into, .. } => Span::one(into),
        FlatInstruction::Operate { into, .. } => Span::one(into),
        FlatInstruction::Operate32 { into, .. } => Span::one(into),
        FlatInstruction::Load { into, .. } => Span::one(into),
        FlatInstruction::Call { function, into, .. } => {
            Span::many(into, results(program, function))
        }
        FlatInstruction::CallAddress { into, results, .. } => Span::many(into, results),
        FlatInstruction::Get { into } => Span::one(into),
        FlatInstruction::Charged { into } => Span::one(into),
        _ => Span::NONE,
    }
}

/// The virtual register that is all an instruction changes, if it changes no more than one: nothing is done for it
/// where that is not needed.
pub fn makes_only(instruction: &FlatInstruction) -> Option<u32>
    ensures { result ≡ makes_only instruction.now }
{
    match *instruction {
        FlatInstruction::Constant { into, .. } => Some(into),
        FlatInstruction::Move { into, .. } => Some(into),
        FlatInstruction::Operate { into, .. } => Some(into),
        FlatInstruction::Operate32 { into, .. } => Some(into),
        FlatInstruction::Charged { into } => Some(into),
        _ => None,
    }
}

/// What an instruction makes whether or not that is needed.
pub fn always_made_by(program: &FlatProgram, instruction: &FlatInstruction) -> Span
    ensures { result ≡ always_made_by program.now instruction.now }
{
    match makes_only(instruction) {
        Some(_) => Span::NONE,
        None => made_by(program, instruction),
    }
}

/// Where the instruction at a place leads but for a branch that is taken.
pub fn next_of(instruction: &FlatInstruction, place: u64) -> Option<u64>
    requires { place < 2 ^ 32 }
    ensures { result ≡ next_of instruction.now place }
{
    match *instruction {
        FlatInstruction::JumpForward { past } => Some(place + 1 + u64::from(past)),
        FlatInstruction::JumpBack { back } => Some(place.saturating_sub(u64::from(back))),
        FlatInstruction::Return { .. } => None,
        FlatInstruction::Exit { .. } => None,
        FlatInstruction::End(_) => None,
        _ => Some(place + 1),
    }
}

/// Where a branch leads that is taken.
pub fn taken_of(instruction: &FlatInstruction, place: u64) -> Option<u64>
    requires { place < 2 ^ 32 }
    ensures { result ≡ taken_of instruction.now place }
{
    match *instruction {
        FlatInstruction::Branch { past, .. } => Some(place + 1 + u64::from(past)),
        _ => None,
    }
}
