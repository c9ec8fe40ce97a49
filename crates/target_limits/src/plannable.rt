//! Whether a program can be planned.

ghost use Rattle.std.specs.Prelude.{◌≡◌, ◌<◌, ◌≤◌, ◌^◌, ℕ, IfOk, length, true, false, EachIndex, slice_index};
ghost use Rattle.std.specs.Prelude.{slice_index_or, slice_set};
ghost use Rattle.reg_plan.specs.Effects.{is_among};
ghost use Rattle.reg_plan.specs.Flow.{IsNamed};
ghost use Rattle.reg_plan.specs.Accepted.{IsLive};
ghost use Rattle.reg_plan.specs.Planned.{IsPlannable, ArePlannable};
ghost use Rattle.target_limits.specs.Planning.{HasNames, HomesStand, IsReadable};

use flat_code::{FlatFunction, FlatInstruction, FlatProgram};
use reg_plan::closed::is_live;
use reg_plan::effects::{Span, made_by, read_by};
use reg_plan::live::live_ranges;
use reg_plan::{FunctionPlan, record_bytes};
use std::alloc::{AllocError, Global};

// Whether registers have numbers below a count.
fn is_within(span: Span, count: usize) -> bool
    ensures { result ≡ true → (y : ℕ) → is_among span y ≡ true → y < count }
{
    span.count == 0 || u64::from(span.first) + u64::from(span.count) <= count as u64
}

// Whether all that an instruction reads and makes has a home.
fn has_names(
    program: &FlatProgram,
    number: u32,
    instruction: &FlatInstruction,
    count: usize,
) -> bool
    ensures { result ≡ true → HasNames program.now number instruction.now count }
{
    let reads = read_by(program, number, instruction);
    let made = made_by(program, instruction);
    is_within(reads.left, count)
        && is_within(reads.right, count)
        && is_within(reads.others, count)
        && is_within(made, count)
}

// Whether all that a function reads and makes has a home.
fn is_named(program: &FlatProgram, number: u32, body: &[FlatInstruction], count: usize) -> bool
    ensures { result ≡ true → IsNamed program.now number body.now count }
{
    for place in 0..body.len() {
        if !has_names(program, number, &body[place], count) {
            return false;
        }
    }
    true
}

// One more than the greatest of these numbers; 0 where there is none.
fn word_count(homes: &[u32]) -> usize
    ensures each { EachIndex homes.now (λ k. slice_index homes.now k < result) }
    ensures small { result ≤ 2 ^ 32 }
{
    match homes.iter().copied().max() {
        Some(greatest) => greatest as usize + 1,
        None => 0,
    }
}

// Marks a word, unless it is marked, or none of these.
fn mark(seen: &mut Vec<bool>, word: usize) -> bool
    ensures there { result ≡ true → word < length seen.old.items }
    ensures unmarked { result ≡ true → slice_index_or seen.old.items word false ≡ false }
    ensures marked { result ≡ true → seen.new.items ≡ slice_set seen.old.items word true }
{
    if word >= seen.len() {
        return false;
    }
    if seen[word] {
        return false;
    }
    seen[word] = true;
    true
}

// Whether homes differ, and all lie within so many bytes.
fn homes_stand(alloc: Global, homes: &[u32], bytes: u128) -> Result<bool, AllocError>
    ensures { IfOk result (λ yes. yes ≡ true → HomesStand bytes homes.now) }
{
    let words = word_count(homes);
    if words != 0 && 8 * words as u128 + 8 > bytes {
        return Ok(false);
    }
    let mut seen = vec![in alloc; false; words]?;
    for i in 0..homes.len() {
        if !mark(&mut seen, homes[i] as usize) {
            return Ok(false);
        }
    }
    Ok(true)
}

// Whether a function has few instructions, all that it reads and makes has a home, and homes differ and lie within its
// record.
fn is_readable(
    alloc: Global,
    program: &FlatProgram,
    number: u32,
    function: &FlatFunction,
) -> Result<bool, AllocError>
    ensures { IfOk result (λ yes. yes ≡ true → IsReadable program.now number function.now) }
{
    let homes = function.homes.as_slice();
    let body = function.body.as_slice();
    let stand = homes_stand(alloc, homes, record_bytes(function))?;
    Ok(stand && body.len() <= 0xffff_ffff && is_named(program, number, body, homes.len()))
}

// Whether none but the parameters are live at the entry.
fn is_entered(function: &FlatFunction, plan: &FunctionPlan) -> bool
    ensures { result ≡ true → (y : ℕ) → y < length function.now.homes → IsLive plan.now 0 y
        → y < function.now.parameters }
{
    for register in function.parameters as usize..function.homes.as_slice().len() {
        if is_live(plan, 0, register as u64) {
            return false;
        }
    }
    true
}

// Whether a function can be planned.
fn can_plan(
    alloc: Global,
    program: &FlatProgram,
    number: u32,
    function: &FlatFunction,
) -> Result<bool, AllocError>
    ensures { IfOk result (λ yes. yes ≡ true → IsPlannable program.now number function.now) }
{
    if !is_readable(alloc, program, number, function)? {
        return Ok(false);
    }
    let count = function.homes.as_slice().len();
    let live = live_ranges(alloc, program, number, function.body.as_slice(), count)?;
    let plan = FunctionPlan {
        places: Vec::new(alloc),
        live,
    };
    Ok(is_entered(function, &plan))
}

/// Whether a program can be planned: it has fewer than 2^32 functions of fewer than 2^32 instructions each; all that
/// a function reads and makes has a home; homes of a function differ and lie within its record; and none but the
/// parameters are needed at an entry. It fails only for want of memory, and takes as long as a plan.
pub fn is_plannable(alloc: Global, program: &FlatProgram) -> Result<bool, AllocError>
    ensures plannable { IfOk result (λ yes. yes ≡ true → ArePlannable program.now) }
    ensures few { IfOk result (λ yes. yes ≡ true → length program.now.functions < 2 ^ 32) }
{
    let functions = program.functions.as_slice();
    if functions.len() > 0xffff_ffff {
        return Ok(false);
    }
    for number in 0..functions.len() {
        if !can_plan(alloc, program, number as u32, &functions[number])? {
            return Ok(false);
        }
    }
    Ok(true)
}
