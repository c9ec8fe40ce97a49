//! `memcmp` (C99 7.21.4.1).

ghost use Rattle.std.specs.Prelude.{◌≡◌, ◌*◌, ◌==◌, length, true, IfSome};
ghost use Rattle.obj_memory.specs.Access.{bytes_at};
ghost use Rattle.source_meaning.specs.Memory.{memcmp, order_of, pairs_compared};
ghost use Rattle.interpreter_objects.specs.Kept.{is_there};
ghost use Rattle.source_interp.specs.Comparing.{compare_at, compare_some};
ghost use Rattle.source_interp.specs.Standing.{ActsAlone};

use crate::items::nth;
use crate::machine::Machine;
use crate::memory::order;
use crate::stop::{Fault, Stop};
use crate::value::{integer, is_zero};
use obj_memory::{Place, Value};

/// What two ranges of as many bytes compare to: how many pairs were compared, and how the last one compares.
#[derive(Clone, Copy)]
pub struct Comparison {
    pub pairs: usize,
    pub order: Value,
}

/// The same with the work of it.
#[derive(Clone, Copy)]
pub struct Counting {
    pub work: u64,
    pub order: Value,
}

fn is_equal(left: u8, right: u8) -> bool
    ensures { result ≡ (left == right) }
{
    left == right
}

fn compared(left: &[u8], right: &[u8]) -> Comparison
    requires { length left.now ≡ length right.now }
    ensures pairs { result.pairs ≡ pairs_compared left.now right.now }
    ensures order { result.order ≡ order_of left.now right.now }
{
    for i in 0..left.len() {
        let one = nth(left, i);
        let other = nth(right, i);
        if !is_equal(one, other) {
            return Comparison {
                pairs: i + 1,
                order: order(one, other),
            };
        }
    }
    Comparison {
        pairs: left.len(),
        order: integer(0),
    }
}

// Each pair counts two.
fn counted(found: Comparison) -> Option<Counting>
    ensures work { IfSome result (λ c. c.work ≡ 2 * found.pairs) }
    ensures order { IfSome result (λ c. c.order ≡ found.order) }
{
    let work = (found.pairs as u64).checked_mul(2)?;
    Some(Counting {
        work,
        order: found.order,
    })
}

fn counted_ranges(left: &[u8], right: &[u8]) -> Option<Counting>
    ensures work { IfSome result (λ c. c.work ≡ 2 * pairs_compared left.now right.now) }
    ensures order { IfSome result (λ c. c.order ≡ order_of left.now right.now) }
{
    if left.len() == right.len() {
        counted(compared(left, right))
    } else {
        None
    }
}

impl Machine {
    // What two ranges compare to that are there.
    fn compared(&self, size: u64, left: Place, right: Place) -> Option<Counting>
        ensures left { IfSome result (λ c. is_there size left self.now.store ≡ true) }
        ensures right { IfSome result (λ c. is_there size right self.now.store ≡ true) }
        ensures work { IfSome result (λ c. c.work ≡ 2 * pairs_compared (bytes_at size left self.now.store)
            (bytes_at size right self.now.store)) }
        ensures order { IfSome result (λ c. c.order ≡ order_of (bytes_at size left self.now.store)
            (bytes_at size right self.now.store)) }
    {
        let one = self.store.bytes_at(size, left)?;
        let other = self.store.bytes_at(size, right)?;
        counted_ranges(one, other)
    }

    fn compare_at(&mut self, size: u64, left: Place, right: Place) -> Result<Value, Stop>
        ensures { ActsAlone self.old self.new result (compare_at size left right) }
    {
        match self.compared(size, left, right) {
            Some(found) => {
                self.tally(found.work);
                Ok(found.order)
            }
            None => Err(Stop::Failed(Fault::Memory)),
        }
    }

    // Two ranges are compared that have some bytes.
    fn compare_some(
        &mut self,
        left: Value,
        right: Value,
        size: u64,
        line: u32,
    ) -> Result<Value, Stop>
        ensures { ActsAlone self.old self.new result (compare_some left right size line) }
    {
        let place = self.located(true, size, left, line)?;
        let other = self.located(true, size, right, line)?;
        self.compare_at(size, place, other)
    }

    /// Two ranges are compared, both judged whole before.
    pub fn memcmp(
        &mut self,
        left: Value,
        right: Value,
        size: Value,
        line: u32,
    ) -> Result<Value, Stop>
        ensures { ActsAlone self.old self.new result (memcmp left right size line) }
    {
        if is_zero(size) {
            Ok(integer(0))
        } else {
            self.compare_some(left, right, size.word, line)
        }
    }
}
