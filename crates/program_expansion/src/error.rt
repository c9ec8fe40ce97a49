//! Why there is no expansion.

ghost use Rattle.std.specs.Prelude.{◌≡◌};
ghost use Rattle.program_expansion.specs.declared.error.ExpandError.TheVariants.{Memory};

use std::alloc::AllocError;

/// Why a program has no expansion.
#[derive(Clone, Copy, Debug)]
pub enum ExpandError {
    /// Numbers do not fit, or an instruction names what is not there: the program is not within limits.
    OutsideLimits,
    /// A function has 2^31 instructions or more.
    TooManyInstructions,
    /// There is no memory.
    Memory,
}

impl From<AllocError> for ExpandError {
    ghost from_gives = { λ _ e. e ≡ Memory };

    fn from(_: AllocError) -> ExpandError {
        ExpandError::Memory
    }
}
