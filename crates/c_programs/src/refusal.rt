//! Why a typed file has no program.

ghost use Rattle.std.specs.Prelude.{◌≡◌};
ghost use Rattle.c_programs.specs.declared.refusal.ProgramRefusal.TheVariants.{Memory};

use std::alloc::AllocError;

/// Why a typed file has no program.
#[derive(Clone, Copy, Debug, PartialEq, Eq)]
pub enum ProgramRefusal {
    /// A call of the function with this number, the first such one, takes 2^64 bytes or more of the budget `calls`.
    RoomTooLarge(usize),
    /// There is no memory.
    Memory,
}

impl From<AllocError> for ProgramRefusal {
    ghost from_gives = { λ _ e. e ≡ Memory };

    fn from(_: AllocError) -> ProgramRefusal {
        ProgramRefusal::Memory
    }
}
