//! Why a text is no listing.

ghost use Rattle.std.specs.Prelude.{◌≡◌};
ghost use Rattle.rv_listing.specs.Fields.{fault_number};
ghost use Rattle.rv_listing.specs.declared.fault.ListRefusal.TheVariants.{Memory};

use std::alloc::{AllocError, AllocFailed};

/// What is wrong with a line, the lowest where several are.
#[derive(Clone, Copy, Debug, PartialEq, Eq)]
pub enum ListFault {
    /// The line has none of the forms of a line; or it is the first and no `.image`; or it is an `.image` and not the
    /// first; or it does not end with a newline. A text without lines has this fault at line 1.
    Form,
    /// A number or register does not fit its field; or the offset of a branch or of `jal` is odd; or the length of
    /// `.image` or the count of `.zero` is not 1 to 67108864.
    Range,
    /// With the bytes of this line there are more than `.image` says; or the text has ended with fewer, and the line is
    /// one behind the last.
    Length,
}

impl ListFault {
    /// The number by which the fault is reported, 1 to 3.
    pub fn number(self) -> u8
        ensures { result ≡ fault_number self }
    {
        match self {
            ListFault::Form => 1,
            ListFault::Range => 2,
            ListFault::Length => 3,
        }
    }
}

/// Why a listing could not be read.
#[derive(Debug, Drop)]
pub enum ListRefusal {
    /// The first line at fault, counted from 1, and what is wrong with it.
    Fault { kind: ListFault, line: u64 },
    /// There was no memory for the bytes.
    Memory,
}

impl From<AllocError> for ListRefusal {
    ghost from_gives = { λ _ e. e ≡ Memory };

    fn from(_error: AllocError) -> ListRefusal {
        ListRefusal::Memory
    }
}

impl<T: Drop> From<AllocFailed<T>> for ListRefusal {
    ghost from_gives = { λ _ e. e ≡ Memory };

    fn from(_error: AllocFailed<T>) -> ListRefusal {
        ListRefusal::Memory
    }
}
