//! Instructions as intervals that stand in order, of which none overlap: those in which a register is in use.

ghost use Rattle.std.specs.Prelude.{◌≡◌, ◌<◌, ◌≤◌, ◌+◌, ◌^◌, ◌||◌, ℕ, OnOk, length, true, false};
ghost use Rattle.reg_plan.specs.Accepted.{holds, covers};
ghost use Rattle.reg_plan.specs.Occupied.{AreSpread, AreParted, one_place};

use crate::plan::LiveInterval;
use std::alloc::AllocError;

// How many of the intervals end before an instruction or at it.
fn ended_before(used: &[LiveInterval], place: u32) -> usize
    requires { AreSpread used.now }
    ensures parted { AreParted used.now place result }
    ensures within { result ≤ length used.now }
{
    used.partition_point(|interval| interval.end <= place)
}

// Whether no instruction of an interval is among them. It takes time with the logarithm of their number.
fn is_interval_free(used: &[LiveInterval], interval: LiveInterval) -> bool
    requires { AreSpread used.now }
    ensures free { result ≡ true → (pc : ℕ) → holds interval pc ≡ true → covers used.now pc ≡ false }
    ensures taken { result ≡ false → (pc : ℕ) × (holds interval pc ≡ true) × (covers used.now pc ≡ true) }
{
    if interval.end <= interval.start {
        return true;
    }
    match used.get(ended_before(used, interval.start)) {
        Some(next) => interval.end <= next.start,
        None => true,
    }
}

/// Whether no instruction of a live range is among them.
pub(crate) fn is_free(used: &[LiveInterval], range: &[LiveInterval]) -> bool
    requires { AreSpread used.now }
    ensures free { result ≡ true → (pc : ℕ) → covers range.now pc ≡ true → covers used.now pc ≡ false }
    ensures taken { result ≡ false → (pc : ℕ) × (covers range.now pc ≡ true) × (covers used.now pc ≡ true) }
{
    for interval in range {
        if !is_interval_free(used, *interval) {
            return false;
        }
    }
    true
}

// Puts an interval among them that has none of their instructions.
fn occupy_free(used: &mut Vec<LiveInterval>, interval: LiveInterval) -> Result<(), AllocError>
    requires spread { AreSpread used.old.items }
    requires some { interval.start < interval.end }
    requires free { (pc : ℕ) → holds interval pc ≡ true → covers used.old.items pc ≡ false }
    ensures spread { OnOk result (AreSpread used.new.items) }
    ensures covers { OnOk result ((pc : ℕ) → covers used.new.items pc ≡ (covers used.old.items pc || holds interval pc)) }
{
    let before = ended_before(used.as_slice(), interval.start);
    used.insert(before, interval)?;
    Ok(())
}

// Puts an instruction among them, unless it is there.
fn occupy_place(used: &mut Vec<LiveInterval>, place: u32) -> Result<(), AllocError>
    requires small { place + 1 < 2 ^ 32 }
    requires spread { AreSpread used.old.items }
    ensures spread { OnOk result (AreSpread used.new.items) }
    ensures covers { OnOk result
        ((pc : ℕ) → covers used.new.items pc ≡ (covers used.old.items pc || holds (one_place place) pc)) }
{
    let only = LiveInterval {
        start: place,
        end: place + 1,
    };
    if is_interval_free(used.as_slice(), only) {
        return occupy_free(used, only);
    }
    Ok(())
}

// Puts the instructions of an interval among them one by one, where some are there.
fn occupy_places(used: &mut Vec<LiveInterval>, interval: LiveInterval) -> Result<(), AllocError>
    requires spread { AreSpread used.old.items }
    requires some { interval.start < interval.end }
    ensures spread { OnOk result (AreSpread used.new.items) }
    ensures covers { OnOk result ((pc : ℕ) → covers used.new.items pc ≡ (covers used.old.items pc || holds interval pc)) }
{
    for place in interval.start..interval.end {
        occupy_place(used, place)?;
    }
    Ok(())
}

// Puts the instructions of an interval among them.
fn occupy_interval(used: &mut Vec<LiveInterval>, interval: LiveInterval) -> Result<(), AllocError>
    requires { AreSpread used.old.items }
    ensures spread { OnOk result (AreSpread used.new.items) }
    ensures covers { OnOk result ((pc : ℕ) → covers used.new.items pc ≡ (covers used.old.items pc || holds interval pc)) }
{
    if interval.end <= interval.start {
        return Ok(());
    }
    if is_interval_free(used.as_slice(), interval) {
        return occupy_free(used, interval);
    }
    occupy_places(used, interval)
}

/// Puts the instructions of a live range among them.
pub(crate) fn occupy(used: &mut Vec<LiveInterval>, range: &[LiveInterval]) -> Result<(), AllocError>
    requires { AreSpread used.old.items }
    ensures spread { OnOk result (AreSpread used.new.items) }
    ensures covers { OnOk result ((pc : ℕ) → covers used.new.items pc ≡ (covers used.old.items pc || covers range.now pc)) }
{
    for interval in range {
        occupy_interval(used, *interval)?;
    }
    Ok(())
}
