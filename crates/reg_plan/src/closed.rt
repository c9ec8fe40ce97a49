//! Whether the live ranges of a plan are closed.

ghost use Rattle.std.specs.Prelude.{◌≡◌, ◌<◌, ◌≤◌, ◌^◌, ◌+◌, ◌&&◌, ℕ, length, Some, true, false};
ghost use Rattle.std.specs.Prelude.{not, slice_get};
ghost use Rattle.flat_code.specs.declared.instruction.FlatInstruction.{FlatInstruction};
ghost use Rattle.reg_plan.specs.Effects.{is_among, is_read, read_by, made_by, makes_only, always_made_by, next_of};
ghost use Rattle.reg_plan.specs.Effects.{taken_of};
ghost use Rattle.reg_plan.specs.Accepted.{holds, covers, is_live, IsLive};
ghost use Rattle.reg_plan.specs.Tests.{Flows, IsWanted, IsClosedAt};

use crate::effects::{
    Reads, Span, always_made_by, made_by, makes_only, next_of, read_by, taken_of,
};
use crate::plan::{FunctionPlan, LiveInterval};
use flat_code::{FlatInstruction, FlatProgram};

// Whether an interval has an instruction.
fn holds(interval: LiveInterval, place: u64) -> bool
    ensures { result ≡ holds interval place }
{
    u64::from(interval.start) <= place && place < u64::from(interval.end)
}

// Whether a live range has an instruction.
fn covers(range: &[LiveInterval], place: u64) -> bool
    ensures { result ≡ covers range.now place }
{
    for interval in range {
        if holds(*interval, place) {
            return true;
        }
    }
    false
}

/// Whether a virtual register is live before an instruction.
pub fn is_live(plan: &FunctionPlan, place: u64, register: u64) -> bool
    ensures { result ≡ is_live plan.now place register }
{
    match plan.live.get(register as usize) {
        Some(range) => covers(range.as_slice(), place),
        None => false,
    }
}

// Whether a virtual register is among those of a span.
fn is_among(span: Span, register: u64) -> bool
    ensures { result ≡ is_among span register }
{
    let first = u64::from(span.first);
    first <= register && register < first + u64::from(span.count)
}

// Whether all of a span are live before an instruction.
fn are_live(plan: &FunctionPlan, place: u64, span: Span) -> bool
    ensures yes { result ≡ true → (y : ℕ) → is_among span y ≡ true → IsLive plan.now place y }
    ensures no { ((y : ℕ) → is_among span y ≡ true → IsLive plan.now place y) → result ≡ true }
{
    let first = u64::from(span.first);
    let end = first + u64::from(span.count);
    for register in first..end {
        if !is_live(plan, place, register) {
            return false;
        }
    }
    true
}

// Whether a virtual register is live behind an instruction that does not make it, and not before.
fn is_lost(plan: &FunctionPlan, made: Span, from: u64, to: u64, register: u64) -> bool
    ensures { result ≡ (is_live plan.now to register
        && (not (is_among made register) && not (is_live plan.now from register))) }
{
    is_live(plan, to, register) && (!is_among(made, register) && !is_live(plan, from, register))
}

// Whether what is live behind an instruction that does not make it is live before.
fn none_is_lost(plan: &FunctionPlan, made: Span, from: u64, to: u64) -> bool
    ensures yes { result ≡ true → (y : ℕ) → IsLive plan.now to y → is_among made y ≡ false → IsLive plan.now from y }
    ensures no { ((y : ℕ) → IsLive plan.now to y → is_among made y ≡ false → IsLive plan.now from y) → result ≡ true }
{
    for register in 0..plan.live.len() {
        if is_lost(plan, made, from, to, register as u64) {
            return false;
        }
    }
    true
}

// Whether the live ranges are closed at where an instruction leads, if that is one of so many instructions.
fn flows(
    plan: &FunctionPlan,
    made: Span,
    always: Span,
    from: u64,
    to: Option<u64>,
    count: u64,
) -> bool
    ensures yes { result ≡ true → (q : ℕ) → to ≡ Some q → q < count → Flows plan.now made always from q }
    ensures no { ((q : ℕ) → to ≡ Some q → q < count → Flows plan.now made always from q) → result ≡ true }
{
    match to {
        Some(next) if next < count => are_live(plan, next, always)
            && none_is_lost(plan, made, from, next),
        _ => true,
    }
}

// Whether what is read is live.
fn reads_are_live(plan: &FunctionPlan, place: u64, reads: Reads) -> bool
    ensures yes { result ≡ true → (y : ℕ) → is_read reads y ≡ true → IsLive plan.now place y }
    ensures no { ((y : ℕ) → is_read reads y ≡ true → IsLive plan.now place y) → result ≡ true }
{
    are_live(plan, place, reads.left)
        && are_live(plan, place, reads.right)
        && are_live(plan, place, reads.others)
}

// Whether what an instruction only makes is live behind it.
fn is_wanted(plan: &FunctionPlan, place: u64, instruction: &FlatInstruction) -> bool
    requires { place < 2 ^ 32 }
    ensures yes { result ≡ true → IsWanted plan.now place instruction.now }
    ensures no { IsWanted plan.now place instruction.now → result ≡ true }
{
    match makes_only(instruction) {
        Some(register) => is_live(plan, place + 1, u64::from(register)),
        None => true,
    }
}

// Whether what an instruction reads is live, or what it only makes is not.
fn reads_where_wanted(
    program: &FlatProgram,
    number: u32,
    plan: &FunctionPlan,
    place: u64,
    instruction: &FlatInstruction,
) -> bool
    requires { place < 2 ^ 32 }
    ensures yes { result ≡ true → IsWanted plan.now place instruction.now → (y : ℕ)
        → is_read (read_by program.now number instruction.now) y ≡ true → IsLive plan.now place y }
    ensures no { (IsWanted plan.now place instruction.now → (y : ℕ)
        → is_read (read_by program.now number instruction.now) y ≡ true → IsLive plan.now place y) → result ≡ true }
{
    !is_wanted(plan, place, instruction)
        || reads_are_live(plan, place, read_by(program, number, instruction))
}

// Whether the live ranges are closed at an instruction.
fn is_closed_at(
    program: &FlatProgram,
    number: u32,
    count: u64,
    plan: &FunctionPlan,
    place: u64,
    instruction: &FlatInstruction,
) -> bool
    requires { place < 2 ^ 32 }
    ensures yes { result ≡ true → IsClosedAt program.now number count plan.now place instruction.now }
    ensures no { IsClosedAt program.now number count plan.now place instruction.now → result ≡ true }
{
    let made = made_by(program, instruction);
    let always = always_made_by(program, instruction);
    reads_where_wanted(program, number, plan, place, instruction)
        && flows(
            plan,
            made,
            always,
            place,
            next_of(instruction, place),
            count,
        )
        && flows(
            plan,
            made,
            always,
            place,
            taken_of(instruction, place),
            count,
        )
}

/// Whether the live ranges are closed at all instructions of a function.
pub fn is_closed(
    program: &FlatProgram,
    number: u32,
    body: &[FlatInstruction],
    plan: &FunctionPlan,
) -> bool
    requires { length body.now < 2 ^ 32 }
    ensures yes { result ≡ true → (pc : ℕ) (i : FlatInstruction) → slice_get body.now pc ≡ Some i
        → IsClosedAt program.now number (length body.now) plan.now pc i }
    ensures no { ((pc : ℕ) (i : FlatInstruction) → slice_get body.now pc ≡ Some i
        → IsClosedAt program.now number (length body.now) plan.now pc i) → result ≡ true }
{
    let count = body.len() as u64;
    for place in 0..body.len() {
        if !is_closed_at(program, number, count, plan, place as u64, &body[place]) {
            return false;
        }
    }
    true
}
