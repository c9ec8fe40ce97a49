//! Where bytes go to.
ghost use Rattle.std.specs.Prelude.{◌≡◌, ℕ, List, Option, OnOk, OnErr};
ghost use Rattle.sb_outside.specs.Content.{gained, GainsPart};
ghost use Rattle.sb_outside.specs.Faults.{CountsFaults};

use crate::source::Failed;

/// Bytes are put into it, and stay.
pub trait Sink {
    /// The bytes that it has taken, where it tells them.
    ghost taken: { Self → Option (List ℕ) };

    /// How many calls have failed. It stands still at `u64::MAX`.
    ghost faults: { Self → ℕ };

    /// Takes all the bytes; on `Failed` a prefix of them, perhaps empty.
    fn put(&mut self, bytes: &[u8]) -> Result<(), Failed>
        ensures ok { OnOk result (taken self.new ≡ gained (taken self.old) bytes.now) }
        ensures err { OnErr result (GainsPart (taken self.old) (taken self.new) bytes.now) }
        ensures cause { CountsFaults (faults self.old) (faults self.new) result };
}
