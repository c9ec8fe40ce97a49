//! Why a run goes no further.

use std::alloc::AllocError;

/// Why a run was ended at a line.
#[derive(Clone, Copy)]
pub enum Cause {
    /// An access is out of the bounds of its pointer.
    Spatial,
    /// An access is of an object that is no longer live.
    Temporal,
    /// A call is through a pointer that is none to a function of its type.
    BadCall,
    /// A pointer that is freed is not the start of a block.
    BadFree,
    /// A divisor is zero.
    Divide,
    /// The budget of calls, or of automatic objects, has no room.
    Stack,
    /// No key is left.
    Keys,
    /// `abort` was called.
    Abort,
}

/// What an interpreter lacks.
#[derive(Clone, Copy)]
pub enum Fault {
    /// There is no memory, or the program is none that is valid.
    Memory,
    /// The input failed.
    Input,
    /// The output failed.
    Output,
    /// The trace failed.
    Trace,
}

/// Why a run goes no further.
#[derive(Clone, Copy)]
pub enum Stop {
    /// It ended by its own exit, with this value.
    Exited(i32),
    /// It was ended at the line with this number.
    Ended(Cause, u32),
    /// No turn is left.
    Paused,
    /// It could not go on.
    Failed(Fault),
}

impl From<AllocError> for Stop {
    ghost use Rattle.std.specs.Prelude.{◌≡◌};
    ghost use Rattle.source_interp.specs.declared.stop.Fault.TheVariants.{Memory};
    ghost use Rattle.source_interp.specs.declared.stop.Stop.TheVariants.{Failed};

    ghost from_gives = { λ _ e. e ≡ Failed Memory };

    fn from(_: AllocError) -> Stop {
        Stop::Failed(Fault::Memory)
    }
}
