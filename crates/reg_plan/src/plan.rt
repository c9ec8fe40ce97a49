//! Plans.

/// Instructions of a function, by their numbers, from `start` to the one before `end`.
#[derive(Clone, Copy)]
pub struct LiveInterval {
    pub start: u32,
    pub end: u32,
}

/// How many registers are given out: the saved registers s0 to s10, which are x8, x9 and x18 to x26 (RISC-V psABI). The
/// number is that of the definition (`specs/Registers`), by the contracts of `registers` and `accepts`.
pub const REGISTERS: u32 = 11;

/// Where the value of a virtual register is kept.
#[derive(Clone, Copy)]
pub enum Place {
    /// In its home, a word of the activation record.
    Home,
    /// In the saved register with this number, below `REGISTERS`.
    Register(u32),
}

/// The plan of a function.
#[derive(Drop)]
pub struct FunctionPlan {
    /// The place of each virtual register.
    pub places: Vec<Place>,
    /// The live range of each: the instructions before which its value is needed, as intervals.
    pub live: Vec<Vec<LiveInterval>>,
}

/// The plans of a program's functions, in their order.
#[derive(Drop)]
pub struct Plan {
    pub functions: Vec<FunctionPlan>,
}
