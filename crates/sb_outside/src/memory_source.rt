//! A source in memory.
ghost use Rattle.std.specs.Prelude.{◌≤◌, length, drop};

use crate::source::{Failed, Source};
use std::alloc::{AllocError, Global};

/// Bytes in memory that are taken from the front. The calls with the given numbers fail.
#[derive(Drop)]
pub struct MemSource {
    bytes: Vec<u8>,
    at: usize,
    fails: Vec<u64>,
    calls: u64,
    faults: u64,
    ghost within: { at ≤ length bytes.items },
}

impl MemSource {
    ghost use Rattle.std.specs.Prelude.{◌≡◌, IfOk};
    ghost use Rattle.sb_outside.specs.MemorySource.{bytes_left, failing_takes, next_take, take_faults};

    /// A source of these bytes, whose calls with the numbers `fails`, counted from 0, fail.
    pub fn new(alloc: Global, bytes: &[u8], fails: &[u64]) -> Result<Self, AllocError>
        ensures bytes { IfOk result (λ s. bytes_left s ≡ bytes.now) }
        ensures fails { IfOk result (λ s. failing_takes s ≡ fails.now) }
        ensures calls { IfOk result (λ s. next_take s ≡ 0) }
        ensures faults { IfOk result (λ s. take_faults s ≡ 0) }
    {
        let bytes = Vec::from_slice(alloc, bytes)?;
        let fails = Vec::from_slice(alloc, fails)?;
        Ok(MemSource {
            bytes,
            at: 0,
            fails,
            calls: 0,
            faults: 0,
        })
    }
}

impl Source for MemSource {
    ghost use Rattle.std.specs.Prelude.{◌≡◌, ◌↔◌, IsErr, Contains};
    ghost use Rattle.sb_outside.specs.Content.{Takes};
    ghost use Rattle.sb_outside.specs.Faults.{CountsFaults, next_count};
    ghost use Rattle.sb_outside.specs.Rest.{Told};
    ghost use Rattle.sb_outside.specs.MemorySource.{bytes_left, failing_takes, next_take, take_faults};

    ghost rest = { λ s. Told (bytes_left s) };

    ghost faults = { λ s. take_faults s };

    fn take(&mut self) -> Result<Option<u8>, Failed>
        ensures content { Takes (Told (bytes_left self.old)) (Told (bytes_left self.new)) result }
        ensures cause { CountsFaults (take_faults self.old) (take_faults self.new) result }

        // Just the listed calls fail.
        ensures fails { IsErr result ↔ Contains (failing_takes self.old) (next_take self.old) }
        ensures numbered { next_take self.new ≡ next_count (next_take self.old) }
        ensures listed { failing_takes self.new ≡ failing_takes self.old }
    {
        let call = self.calls;
        self.calls = call.saturating_add(1);
        if self.fails.contains(&call) {
            self.faults = self.faults.saturating_add(1);
            return Err(Failed);
        }
        if self.at < self.bytes.len() {
            let byte = self.bytes[self.at];
            self.at += 1;
            Ok(Some(byte))
        } else {
            Ok(None)
        }
    }
}
