//! Where the accesses of a run are told.

ghost use Rattle.std.specs.Prelude.{◌≡◌, ℕ, List, [], ◌∷◌, Option, OnOk};
ghost use Rattle.behaviours.specs.Shown.{Access as OfAccess};
ghost use Rattle.sb_outside.specs.Faults.{CountsFaults};
ghost use Rattle.source_interp.specs.Outside.{access_of, more};

use sb_outside::Failed;

/// An access of some bytes of an object from an address on.
#[derive(Clone, Copy)]
pub struct Access {
    /// Whether the bytes are written, else they are read.
    pub written: bool,
    /// The address of the first byte.
    pub address: u64,
    /// The number of bytes.
    pub size: u64,
}

/// It is told each access of a run, in order.
pub trait Trace {
    /// The accesses that it was told, where it tells them.
    ghost noted: { Self → Option (List OfAccess) };

    /// How many calls have failed. It stands still at `u64::MAX`.
    ghost faults: { Self → ℕ };

    /// One access more.
    fn note(&mut self, access: Access) -> Result<(), Failed>
        ensures ok { OnOk result (noted self.new ≡ more (noted self.old) (access_of access ∷ [])) }
        ensures cause { CountsFaults (faults self.old) (faults self.new) result };
}
