//! Where values are live, looked up in the intervals of their live ranges.

ghost use Rattle.std.specs.Prelude.{◌≡◌, ◌≤◌, ℕ, true};
ghost use Rattle.reg_plan.specs.Accepted.{covers, is_live};
ghost use Rattle.reg_plan.specs.Order.{IsInOrder, AreInOrder, IsLookup};

use crate::apart::range_of;
use crate::closed;
use crate::plan::{FunctionPlan, LiveInterval};

/// How the live ranges of a plan are looked up. Where the intervals of each stand in order, as those of `slots` and
/// `registers` do, a look-up takes time with the logarithm of how many intervals a live range has, and else with their
/// number.
#[derive(Clone, Copy)]
pub struct LiveLookup {
    in_order: bool,
}

impl LiveLookup {
    /// The look-up of a plan. It takes time for all intervals.
    pub fn new(plan: &FunctionPlan) -> LiveLookup
        ensures { IsLookup result plan.now }
    {
        LiveLookup {
            in_order: are_in_order(plan),
        }
    }

    /// Whether the plan has a virtual register live before an instruction.
    pub fn is_live(self, plan: &FunctionPlan, place: u64, register: u64) -> bool
        requires { IsLookup self plan.now }
        ensures { result ≡ is_live plan.now place register }
    {
        if self.in_order {
            return covers_in_order(range_of(plan, register as usize), place);
        }
        closed::is_live(plan, place, register)
    }
}

// Whether a live range whose intervals stand in order has an instruction: the first interval that ends behind it does,
// or none.
fn covers_in_order(range: &[LiveInterval], place: u64) -> bool
    requires { IsInOrder range.now }
    ensures { result ≡ covers range.now place }
{
    let before = range.partition_point(|interval| u64::from(interval.end) <= place);
    match range.get(before) {
        Some(interval) => u64::from(interval.start) <= place,
        None => false,
    }
}

// Whether the intervals of a live range stand in order.
fn is_in_order(range: &[LiveInterval]) -> bool
    ensures { result ≡ true → IsInOrder range.now }
{
    for next in 1..range.len() {
        if !follows(range[next - 1], range[next]) {
            return false;
        }
    }
    true
}

// Whether an interval neither begins nor ends before another.
fn follows(one: LiveInterval, next: LiveInterval) -> bool
    ensures starts { result ≡ true → one.start ≤ next.start }
    ensures ends { result ≡ true → one.end ≤ next.end }
{
    one.start <= next.start && one.end <= next.end
}

// Whether those of all live ranges of a plan do.
fn are_in_order(plan: &FunctionPlan) -> bool
    ensures { result ≡ true → AreInOrder plan.now.live.items }
{
    for register in 0..plan.live.len() {
        if !is_in_order(range_of(plan, register)) {
            return false;
        }
    }
    true
}
