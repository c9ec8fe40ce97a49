//! Where bytes come from.
ghost use Rattle.std.specs.Prelude.{ℕ};
ghost use Rattle.sb_outside.specs.Content.{Takes};
ghost use Rattle.sb_outside.specs.Faults.{CountsFaults};
ghost use Rattle.sb_outside.specs.Rest.{Rest};

/// A call of the outside failed.
#[derive(Clone, Copy, Debug, PartialEq, Eq)]
pub struct Failed;

/// Bytes that are taken one by one.
pub trait Source {
    /// The bytes that are left, where the source tells them, and else whether its end was met.
    ghost rest: { Self → Rest };

    /// How many calls have failed. It stands still at `u64::MAX`.
    ghost faults: { Self → ℕ };

    /// The next byte, or `None` exactly at the end. On `Failed` the bytes that are left stay. Once the end was met no
    /// byte comes any more.
    fn take(&mut self) -> Result<Option<u8>, Failed>
        ensures content { Takes (rest self.old) (rest self.new) result }
        ensures cause { CountsFaults (faults self.old) (faults self.new) result };
}
