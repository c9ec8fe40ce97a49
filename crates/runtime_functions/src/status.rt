//! What a function of the runtime returns first: that its routine went on, or how it ended the run.

ghost use Rattle.std.specs.Prelude.{◌≡◌};
ghost use Rattle.runtime_functions.specs.Status.{ending_at, return_status, status_number};

use sb_base::{Ending, Line};

/// How a routine was left.
#[derive(Clone, Copy)]
pub enum ReturnStatus {
    /// It went on, and its results are there.
    Completed,
    /// `Ending::Spatial`.
    Spatial,
    /// `Ending::Temporal`.
    Temporal,
    /// `Ending::BadCall`.
    BadCall,
    /// `Ending::BadFree`.
    BadFree,
    /// `Ending::Divide`.
    Divide,
    /// `Ending::Stack`.
    Stack,
    /// `Ending::Keys`.
    Keys,
    /// `Ending::Abort`.
    Abort,
}

impl ReturnStatus {
    /// The number that is returned: 0 where the routine went on, else 1 to 8 in the order of the variants.
    pub fn number(self) -> u32
        ensures { result ≡ status_number self }
    {
        match self {
            ReturnStatus::Completed => 0,
            ReturnStatus::Spatial => 1,
            ReturnStatus::Temporal => 2,
            ReturnStatus::BadCall => 3,
            ReturnStatus::BadFree => 4,
            ReturnStatus::Divide => 5,
            ReturnStatus::Stack => 6,
            ReturnStatus::Keys => 7,
            ReturnStatus::Abort => 8,
        }
    }

    /// The ending that it tells of a call at a line; none where the routine went on.
    pub fn ending(self, line: Line) -> Option<Ending>
        ensures { result ≡ ending_at self line }
    {
        match self {
            ReturnStatus::Completed => None,
            ReturnStatus::Spatial => Some(Ending::Spatial(line)),
            ReturnStatus::Temporal => Some(Ending::Temporal(line)),
            ReturnStatus::BadCall => Some(Ending::BadCall(line)),
            ReturnStatus::BadFree => Some(Ending::BadFree(line)),
            ReturnStatus::Divide => Some(Ending::Divide(line)),
            ReturnStatus::Stack => Some(Ending::Stack(line)),
            ReturnStatus::Keys => Some(Ending::Keys(line)),
            ReturnStatus::Abort => Some(Ending::Abort(line)),
        }
    }

    /// The status of an ending at whatever line; none of an exit.
    pub fn of(ending: &Ending) -> Option<ReturnStatus>
        ensures { result ≡ return_status ending.now }
    {
        match *ending {
            Ending::Exit(_) => None,
            Ending::Spatial(_) => Some(ReturnStatus::Spatial),
            Ending::Temporal(_) => Some(ReturnStatus::Temporal),
            Ending::BadCall(_) => Some(ReturnStatus::BadCall),
            Ending::BadFree(_) => Some(ReturnStatus::BadFree),
            Ending::Divide(_) => Some(ReturnStatus::Divide),
            Ending::Stack(_) => Some(ReturnStatus::Stack),
            Ending::Keys(_) => Some(ReturnStatus::Keys),
            Ending::Abort(_) => Some(ReturnStatus::Abort),
        }
    }
}
