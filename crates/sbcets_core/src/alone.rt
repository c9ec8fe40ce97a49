//! What a run by itself has outside: no input, and memory for all that it puts.
ghost use Rattle.std.specs.Prelude.{◌≡◌, [], Some};
ghost use Rattle.sb_outside.specs.Rest.{Told};

use sb_outside::{Failed, Sink, Source};
use std::alloc::Global;

/// An input that is at its end.
#[derive(Drop)]
pub struct NoInput;

impl Source for NoInput {
    ghost rest = { λ _. Told [] };

    ghost faults = { λ _. 0 };

    fn take(&mut self) -> Result<Option<u8>, Failed> {
        Ok(None)
    }
}

/// All the bytes that were put. A put fails where there is no memory for it, and keeps nothing.
#[derive(Drop)]
pub struct Kept {
    pub bytes: Vec<u8>,
    faults: u64,
}

impl Kept {
    /// Nothing yet.
    pub fn new(alloc: Global) -> Self
        ensures bytes { result.bytes.items ≡ [] }
    {
        Kept {
            bytes: Vec::new(alloc),
            faults: 0,
        }
    }
}

impl Sink for Kept {
    ghost taken = { λ s. Some s.bytes.items };

    ghost faults = { λ s. s.faults };

    #[tactic(auto, using(crate::proofs::WorkCases::keeps_nothing))]
    fn put(&mut self, bytes: &[u8]) -> Result<(), Failed> {
        if self.bytes.extend_from_slice(bytes).is_ok() {
            return Ok(());
        }
        self.faults = self.faults.saturating_add(1);
        Err(Failed)
    }
}
