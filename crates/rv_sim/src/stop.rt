//! How a run ends.

use crate::trap::TrapKind;

/// How a run ends.
#[derive(Clone, Copy, Debug, PartialEq, Eq)]
pub enum Stop {
    /// The program asked to exit; the status is the low byte of what it gave.
    Exited(u8),
    /// The instruction at `pc` cannot be done.
    Trap { kind: TrapKind, pc: u64 },
    /// As many instructions were done as were allowed, and the program has not ended.
    Limit,
    /// The input failed when the program asked for a byte.
    InputFault,
    /// A sink failed when the program wrote to it.
    OutputFault,
}
