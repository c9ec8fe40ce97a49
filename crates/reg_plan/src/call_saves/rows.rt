//! The rows of a table while they grow, one virtual register after the other.

ghost use Rattle.std.specs.Prelude.{◌≡◌, ◌+◌, ◌<◌, ◌≤◌, ◌&&◌, ℕ, OnOk, length, slice_get};
ghost use Rattle.std.specs.Prelude.{if◌then◌else◌, nat_le};
ghost use Rattle.std.specs.Prelude.{nat_lt};
ghost use Rattle.reg_plan.specs.Accepted.{holds, covers};
ghost use Rattle.reg_plan.specs.Saves.Saves.{ends_with, with_last, items_of, is_call_at, calls_before, is_saved};
ghost use Rattle.reg_plan.specs.Saves.Saves.{is_register, PutsWhere, Counts};

use crate::{FunctionPlan, LiveInterval, Place};
use flat_code::{FlatFunction, FlatInstruction};
use std::alloc::AllocError;

// Whether a row ends with a number.
#[tactic(auto, unfolding(crate::specs::Saves::Saves::ends_with))]
fn ends_with(row: &[u64], register: u64) -> bool
    ensures { result ≡ ends_with row.now register }
{
    match row.last() {
        Some(last) => *last == register,
        None => false,
    }
}

// Puts a number behind a row, unless it ends with it.
#[tactic(auto, unfolding(crate::specs::Saves::Saves::with_last))]
fn put_once(row: &mut Vec<u64>, register: u64) -> Result<(), AllocError>
    ensures { OnOk result (row.new.items ≡ with_last row.old.items register) }
{
    if ends_with(row.as_slice(), register) {
        return Ok(());
    }
    row.push(register)?;
    Ok(())
}

// Puts a number behind the rows from one to the one before another.
fn put_between(
    rows: &mut Vec<Vec<u64>>,
    from: usize,
    to: usize,
    register: u64,
) -> Result<(), AllocError>
    requires { to ≤ length rows.old.items }
    ensures size { length rows.new.items ≡ length rows.old.items }
    ensures rows { OnOk result ((k : ℕ) → items_of (slice_get rows.new.items k)
        ≡ (if nat_le from k && nat_lt k to
        then with_last (items_of (slice_get rows.old.items k)) register
        else items_of (slice_get rows.old.items k))) }
{
    for k in from..to {
        let row = &mut rows[k];
        put_once(row, register)?;
    }
    Ok(())
}

// The place of an interval from which on it has the instruction behind one of a function of so many instructions.
fn first_before(interval: LiveInterval, count: usize) -> usize
    ensures within { result ≤ count }
    ensures first { (pc : ℕ) → pc < count → nat_le result pc ≡ nat_le interval.start (pc + 1) }
{
    (interval.start as usize).saturating_sub(1).min(count)
}

// The place from which on it has it no more.
fn end_before(interval: LiveInterval, count: usize) -> usize
    ensures within { result ≤ count }
    ensures end { (pc : ℕ) → nat_lt pc result ≡ (nat_lt (pc + 1) count && nat_lt (pc + 1) interval.end) }
{
    (interval.end as usize).min(count).saturating_sub(1)
}

// Puts a virtual register behind the rows of the calls behind which an interval has an instruction.
fn put_interval(
    rows: &mut Vec<Vec<u64>>,
    before: &[usize],
    body: &[FlatInstruction],
    interval: LiveInterval,
    register: u64,
) -> Result<(), AllocError>
    requires counts { Counts before.now body.now }
    requires size { length rows.old.items ≡ calls_before body.now (length body.now) }
    ensures { OnOk result (PutsWhere body.now rows.old.items rows.new.items register
        (λ pc. nat_lt (pc + 1) (length body.now) && holds interval (pc + 1))) }
{
    let from = before[first_before(interval, body.len())];
    let to = before[end_before(interval, body.len())];
    let put = put_between(rows, from, to, register)?;
    Ok(put)
}

// Puts it behind those of the calls behind which its live range has one.
fn put_range(
    rows: &mut Vec<Vec<u64>>,
    before: &[usize],
    body: &[FlatInstruction],
    range: &[LiveInterval],
    register: u64,
) -> Result<(), AllocError>
    requires counts { Counts before.now body.now }
    requires size { length rows.old.items ≡ calls_before body.now (length body.now) }
    ensures { OnOk result (PutsWhere body.now rows.old.items rows.new.items register
        (λ pc. nat_lt (pc + 1) (length body.now) && covers range.now (pc + 1))) }
{
    for interval in range {
        put_interval(rows, before, body, *interval, register)?;
    }
    Ok(())
}

// Whether a plan keeps a virtual register in a register of the machine.
fn is_register(plan: &FunctionPlan, register: usize) -> bool
    ensures { result ≡ is_register (slice_get plan.now.places.items register) }
{
    match plan.places.get(register) {
        Some(Place::Register(_)) => true,
        Some(Place::Home) | None => false,
    }
}

/// Puts a virtual register behind the rows of the calls that save it.
pub(crate) fn put_register(
    rows: &mut Vec<Vec<u64>>,
    before: &[usize],
    function: &FlatFunction,
    plan: &FunctionPlan,
    register: usize,
) -> Result<(), AllocError>
    requires register { register < length plan.now.live.items }
    requires counts { Counts before.now function.now.body }
    requires size { length rows.old.items ≡ calls_before function.now.body (length function.now.body) }
    ensures { OnOk result (PutsWhere function.now.body rows.old.items rows.new.items register
        (λ pc. is_saved function.now plan.now pc register)) }
{
    if !is_register(plan, register) {
        return Ok(());
    }
    let range = plan.live[register].as_slice();
    put_range(
        rows,
        before,
        function.body.as_slice(),
        range,
        register as u64,
    )
}
