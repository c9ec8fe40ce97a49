//! Why there is no image.

ghost use Rattle.std.specs.Prelude.{◌≡◌};
ghost use Rattle.image_compiler.specs.declared.error.CompileError.TheVariants.{Memory};

use std::alloc::AllocError;

/// Why a program has no image.
#[derive(Clone, Copy, Debug)]
pub enum CompileError {
    /// Numbers do not fit flat code: a function has 2^32 virtual registers or more, or 2^31 instructions or more.
    NumbersTooLarge,
    /// The machine code of the functions takes more than 8388608 bytes, this many: at most 1024 for each node of the
    /// text.
    TooLarge(u128),
    /// There is no memory.
    Memory,
}

impl From<AllocError> for CompileError {
    ghost from_gives = { λ _ e. e ≡ Memory };

    fn from(_: AllocError) -> CompileError {
        CompileError::Memory
    }
}
