//! Files that are read and written whole, by their names.
ghost use Rattle.std.specs.Prelude.{◌≡◌, ℕ, List, Option};
ghost use Rattle.sb_outside.specs.Content.{Reads, Writes};
ghost use Rattle.sb_outside.specs.Faults.{CountsFaults, CountsReadFaults, next_count};

use crate::source::Failed;
use std::alloc::Global;

/// Why a file was not read.
#[derive(Clone, Copy, Debug, PartialEq, Eq)]
pub enum FileFault {
    /// The name is not there, or the outside failed.
    Failed,
    /// The file has more bytes than were asked for. The number is above that; where the files tell
    /// their content, it is the file's length.
    TooLong(u64),
    /// There was no memory for the bytes.
    Memory,
}

/// Files, by their names.
pub trait Files {
    /// The bytes of each name that is there, where the files tell them.
    ghost held: { Self → Option (List ℕ → Option (List ℕ)) };

    /// How many reads were asked for. It stands still at `u64::MAX`, as each count here.
    ghost reads: { Self → ℕ };

    /// How many writes were asked for.
    ghost writes: { Self → ℕ };

    /// How many reads have failed.
    ghost read_faults: { Self → ℕ };

    /// How many writes have failed.
    ghost write_faults: { Self → ℕ };

    /// All the bytes of a file of at most `max` bytes. Every file stays as it was.
    fn read(&mut self, alloc: Global, name: &str, max: u64) -> Result<Vec<u8>, FileFault>
        ensures files { held self.new ≡ held self.old }
        ensures content { Reads (held self.old) name.now max result }
        ensures asked { reads self.new ≡ next_count (reads self.old) }
        ensures cause { CountsReadFaults (read_faults self.old) (read_faults self.new) result }
        ensures unwritten { writes self.new ≡ writes self.old }
        ensures others { write_faults self.new ≡ write_faults self.old };

    /// Makes a file hold these bytes; on `Failed` a prefix of them, or it is still not there. Other
    /// files stay as they were.
    fn write(&mut self, name: &str, bytes: &[u8]) -> Result<(), Failed>
        ensures content { Writes (held self.old) (held self.new) name.now bytes.now result }
        ensures counted { writes self.new ≡ next_count (writes self.old) }
        ensures cause { CountsFaults (write_faults self.old) (write_faults self.new) result }
        ensures unread { reads self.new ≡ reads self.old }
        ensures others { read_faults self.new ≡ read_faults self.old };
}
