//! Live ranges as intervals.

ghost use Rattle.std.specs.Prelude.{◌≡◌, ◌<◌, ◌≤◌, ◌+◌, ◌^◌, ◌||◌, ◌&&◌, ℕ, IfOk, OnOk, Some};
ghost use Rattle.std.specs.Prelude.{slice_get, nat_le};
ghost use Rattle.data_flow.specs.declared.runs.Run.{Run};
ghost use Rattle.data_flow.specs.Runs.{in_run, is_covered};
ghost use Rattle.reg_plan.specs.Accepted.{holds, covers};
ghost use Rattle.reg_plan.specs.Flow.{AreSmall};

use crate::plan::LiveInterval;
use data_flow::Run;
use std::alloc::{AllocError, Global};

// Puts an interval behind the list, unless it is empty.
fn put(list: &mut Vec<LiveInterval>, interval: LiveInterval) -> Result<(), AllocError>
    ensures { OnOk result ((pc : ℕ) → covers list.new.items pc ≡ (covers list.old.items pc || holds interval pc)) }
{
    if interval.start < interval.end {
        list.push(interval)?;
    }
    Ok(())
}

// Whether a run begins within an interval or at its end.
fn joins(last: LiveInterval, run: Run) -> bool
    ensures { result ≡ (nat_le last.start run.first && nat_le run.first last.end) }
{
    last.start <= run.first && run.first <= last.end
}

// The interval with a run that begins there.
fn joined(last: LiveInterval, run: Run) -> LiveInterval
    requires small { run.last + 1 < 2 ^ 32 }
    requires begins { last.start ≤ run.first }
    requires joins { run.first ≤ last.end }
    ensures { (pc : ℕ) → holds result pc ≡ (holds last pc || in_run run pc) }
{
    if run.last < last.end {
        return last;
    }
    LiveInterval {
        start: last.start,
        end: run.last + 1,
    }
}

// A run as an interval.
fn interval_of(run: Run) -> LiveInterval
    requires { run.last + 1 < 2 ^ 32 }
    ensures { (pc : ℕ) → holds result pc ≡ in_run run pc }
{
    LiveInterval {
        start: run.first,
        end: run.last + 1,
    }
}

// Adds a run to the intervals, of which the last is not in the list yet.
fn extended(
    list: &mut Vec<LiveInterval>,
    last: LiveInterval,
    run: Run,
) -> Result<LiveInterval, AllocError>
    requires { run.last + 1 < 2 ^ 32 }
    ensures { IfOk result
        (λ next. (pc : ℕ) → (covers list.new.items pc || holds next pc)
        ≡ ((covers list.old.items pc || holds last pc) || in_run run pc)) }
{
    if joins(last, run) {
        return Ok(joined(last, run));
    }
    put(list, last)?;
    Ok(interval_of(run))
}

/// The intervals that cover the nodes of runs and no others. Runs that overlap or follow each other make one interval.
pub fn intervals(alloc: Global, mut runs: Vec<Run>) -> Result<Vec<LiveInterval>, AllocError>
    requires { AreSmall runs.items }
    ensures { IfOk result (λ list. (pc : ℕ) → covers list.items pc ≡ is_covered runs.items pc) }
{
    runs.sort_by_key(|run| run.first)?;
    let list = merged(alloc, &runs)?;
    Ok(list)
}

// The same of a list that is sorted, so that neighbours stand beside each other.
fn merged(alloc: Global, runs: &[Run]) -> Result<Vec<LiveInterval>, AllocError>
    requires { AreSmall runs.now }
    ensures { IfOk result (λ list. (pc : ℕ) → covers list.items pc ≡ is_covered runs.now pc) }
{
    let mut list = Vec::new(alloc);
    let mut last = LiveInterval { start: 0, end: 0 };
    for run in runs {
        last = extended(&mut list, last, *run)?;
    }
    put(&mut list, last)?;
    Ok(list)
}
