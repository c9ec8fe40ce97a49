//! What is generated, and why nothing is.

ghost use Rattle.std.specs.Prelude.{◌≡◌};
ghost use Rattle.rv_codegen.specs.declared.code.GenerateError.TheVariants.{Memory};

use std::alloc::AllocError;

/// The code of a program: instructions as words.
#[derive(Drop)]
pub struct Code {
    /// The address of the first instruction of a run.
    pub start: u64,
    /// From 0x10000 on: the entries of the jump table of the functions of the program, the start, the tails of endings,
    /// the entries of the functions of the runtime, and these functions.
    pub table: Vec<u32>,
    /// From 0x100000 on: the functions of the program.
    pub compiled: Vec<u32>,
}

/// Why there is no code.
#[derive(Clone, Copy, Debug)]
pub enum GenerateError {
    /// The functions of the program take more than 8388608 bytes, this many.
    TooLarge(u128),
    /// The jump table, the start, the tails of endings and the functions of the runtime take more than 983040 bytes,
    /// this many.
    RuntimeTooLarge(u128),
    /// There is no memory.
    Memory,
}

impl From<AllocError> for GenerateError {
    ghost from_gives = { λ _ e. e ≡ Memory };

    fn from(_: AllocError) -> GenerateError {
        GenerateError::Memory
    }
}
