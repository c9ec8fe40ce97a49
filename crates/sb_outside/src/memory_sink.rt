//! A sink in memory.
ghost use Rattle.std.specs.Prelude.{◌≡◌, ◌≤◌, length, min, unwrap_or, Option};
ghost use Rattle.sb_outside.specs.Failures.{kept_by};

use crate::sink::Sink;
use crate::source::Failed;
use std::alloc::{AllocError, Global};

/// Bytes that are put stand in memory, up to a capacity. The calls with the given numbers fail, and
/// keep so many of their bytes. A call for which there is no room fails and keeps what fits.
#[derive(Drop)]
pub struct MemSink {
    buffer: Vec<u8>,
    len: usize,
    fails: Vec<(u64, u64)>,
    calls: u64,
    faults: u64,
    ghost within: { len ≤ length buffer.items },
}

impl MemSink {
    ghost use Rattle.std.specs.Prelude.{◌≡◌, ◌+◌, ◌++◌, ◌≤◌, [], length, IfOk};
    ghost use Rattle.sb_outside.specs.MemorySink.{bytes_taken, sink_capacity, failing_puts, next_put, put_faults};

    /// An empty sink that can take `capacity` bytes. The calls with the numbers of `fails`, counted
    /// from 0, fail; with each stands how many bytes it keeps. All memory is taken here.
    pub fn new(alloc: Global, capacity: u64, fails: &[(u64, u64)]) -> Result<Self, AllocError>
        ensures bytes { IfOk result (λ s. bytes_taken s ≡ []) }
        ensures capacity { IfOk result (λ s. sink_capacity s ≡ capacity) }
        ensures fails { IfOk result (λ s. failing_puts s ≡ fails.now) }
        ensures calls { IfOk result (λ s. next_put s ≡ 0) }
        ensures faults { IfOk result (λ s. put_faults s ≡ 0) }
    {
        let buffer = vec![in alloc; 0; capacity as usize]?;
        let fails = Vec::from_slice(alloc, fails)?;
        Ok(MemSink {
            buffer,
            len: 0,
            fails,
            calls: 0,
            faults: 0,
        })
    }

    /// The bytes that it has taken.
    pub fn bytes(&self) -> &[u8]
        ensures { result.now ≡ bytes_taken self.now }
    {
        &self.buffer[..self.len]
    }

    // Puts bytes behind those that stand.
    fn append(&mut self, bytes: &[u8])
        requires { self.old.len + length bytes.now ≤ length self.old.buffer.items }
        ensures taken { bytes_taken self.new ≡ bytes_taken self.old ++ bytes.now }
        ensures room { sink_capacity self.new ≡ sink_capacity self.old }
        ensures fails { failing_puts self.new ≡ failing_puts self.old }
        ensures calls { next_put self.new ≡ next_put self.old }
        ensures faults { put_faults self.new ≡ put_faults self.old }
    {
        let end = self.len + bytes.len();
        self.buffer[self.len..end].copy_from_slice(bytes);
        self.len = end;
    }
}

impl Sink for MemSink {
    ghost use Rattle.std.specs.Prelude.{◌≡◌, ◌↔◌, ◌+◌, ◌-◌, ◌++◌, ◌≤◌, take, length, Some, None};
    ghost use Rattle.std.specs.Prelude.{OnOk, OnErr, IsOk};
    ghost use Rattle.sb_outside.specs.Content.{gained, GainsPart};
    ghost use Rattle.sb_outside.specs.Faults.{CountsFaults, next_count};
    ghost use Rattle.sb_outside.specs.Failures.{kept_by, kept_count};
    ghost use Rattle.sb_outside.specs.MemorySink.{bytes_taken, sink_capacity, failing_puts, next_put, put_faults};

    ghost taken = { λ s. Some (bytes_taken s) };

    ghost faults = { λ s. put_faults s };

    #[tactic(auto, using(crate::proofs::Parts::gains_front))]
    fn put(&mut self, bytes: &[u8]) -> Result<(), Failed>
        ensures ok { OnOk result (Some (bytes_taken self.new) ≡ gained (Some (bytes_taken self.old)) bytes.now) }
        ensures err { OnErr result (GainsPart (Some (bytes_taken self.old)) (Some (bytes_taken self.new)) bytes.now) }
        ensures cause { CountsFaults (put_faults self.old) (put_faults self.new) result }

        // Just the listed calls fail, and those past the capacity.
        ensures works { IsOk result ↔ ((kept_by (failing_puts self.old) (next_put self.old) ≡ None)
            × (length (bytes_taken self.old) + length bytes.now ≤ sink_capacity self.old)) }
        // A call keeps all that fits, and a listed one at most what is listed.
        ensures kept { bytes_taken self.new ≡ bytes_taken self.old
            ++ take (kept_count (kept_by (failing_puts self.old) (next_put self.old)) (length bytes.now)
            (sink_capacity self.old - length (bytes_taken self.old))) bytes.now }
        ensures numbered { next_put self.new ≡ next_count (next_put self.old) }
        ensures listed { failing_puts self.new ≡ failing_puts self.old }
        ensures room { sink_capacity self.new ≡ sink_capacity self.old }
    {
        let room = self.buffer.len() - self.len;
        let listed = kept_by(&self.fails, self.calls);
        self.calls = self.calls.saturating_add(1);
        let kept = kept_of(listed, bytes.len()).min(room);
        self.append(&bytes[..kept]);
        if listed.is_none() && bytes.len() <= room {
            return Ok(());
        }
        self.faults = self.faults.saturating_add(1);
        Err(Failed)
    }
}

/// How many bytes the failing call of this number keeps, if it is to fail.
#[tactic(auto, unfolding(crate::specs::Failures::kept_by))]
pub(crate) fn kept_by(fails: &[(u64, u64)], call: u64) -> Option<u64>
    ensures { result ≡ kept_by fails.now call }
{
    fails.iter().find(|f| f.0 == call).map(|f| f.1)
}

/// How many of `len` bytes a call keeps, where there is room: all, or the number that is listed.
pub(crate) fn kept_of(listed: Option<u64>, len: usize) -> usize
    ensures { result ≡ min (unwrap_or listed len) len }
{
    listed.unwrap_or(len as u64).min(len as u64) as usize
}
