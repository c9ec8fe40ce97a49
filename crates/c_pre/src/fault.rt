//! Faults of directives and macros.

ghost use Rattle.std.specs.Prelude.{◌≡◌};

use sb_base::Line;
use std::alloc::{AllocError, AllocFailed};

/// What is wrong with a directive or a macro.
#[derive(Clone, Copy, Debug, PartialEq, Eq)]
pub enum PreFaultKind {
    /// `#include` of anything but one of the five headers, written `<NAME.h>` (C99 6.10.2).
    UnknownInclude,
    /// A directive that is malformed or not known, in text that is read (6.10). A function-like macro's definition with
    /// `#` or `...`, or with a parameter twice, is so (6.10.3).
    UnknownDirective,
    /// An if-section that is still open at the end of the text (6.10.1).
    Unclosed,
    /// `#elif`, `#else` or `#endif` with no if-section open, or `#elif` or `#else` behind an `#else` (6.10.1).
    StrayEnd,
    /// A definition of a macro that is defined with other parameters or tokens (6.10.3 paragraph 2).
    MacroRedefined,
    /// More expanded tokens, or more tokens put in by replacement lists, than there may be.
    TooMany,
    /// A call of a function-like macro whose `)` does not stand before the next directive or the end, or with another
    /// number of arguments than the macro has parameters (6.10.3 paragraph 4).
    BadCall,
    /// A condition that is read and is no conditional expression of at most 200 levels over constants, or that divides
    /// by zero in an operand that is evaluated (6.10.1).
    BadCondition,
}

impl PreFaultKind {
    ghost use Rattle.c_pre.specs.Faults.{number_of};

    /// The number by which the fault is told, 1 to 8.
    #[tactic(auto, unfolding(crate::specs::Faults::number_of))]
    pub fn number(self) -> u8
        ensures { result ≡ number_of self }
    {
        match self {
            PreFaultKind::UnknownInclude => 1,
            PreFaultKind::UnknownDirective => 2,
            PreFaultKind::Unclosed => 3,
            PreFaultKind::StrayEnd => 4,
            PreFaultKind::MacroRedefined => 5,
            PreFaultKind::TooMany => 6,
            PreFaultKind::BadCall => 7,
            PreFaultKind::BadCondition => 8,
        }
    }
}

/// A fault, and the line to which it belongs: that of the directive, of the if-section that was opened first, of the
/// token that is one too many, or of the macro's use: inside of a call that of the outermost macro's name.
#[derive(Clone, Copy, Debug, PartialEq, Eq)]
pub struct PreFault {
    /// What is wrong.
    pub kind: PreFaultKind,
    /// The line.
    pub line: Line,
}

impl PreFault {
    /// A fault of this kind on this line.
    pub fn new(kind: PreFaultKind, line: Line) -> Self
        ensures { result ≡ record { kind = kind; line = line } }
    {
        PreFault { kind, line }
    }
}

/// Why a text has no expansion.
#[derive(Debug, Drop)]
pub enum PreError {
    /// The first fault of the text.
    Fault(PreFault),
    /// There was no memory.
    Memory,
}

impl From<AllocError> for PreError {
    ghost use Rattle.c_pre.specs.declared.fault.PreError.TheVariants.{Memory};

    ghost from_gives = { λ _ e. e ≡ Memory };

    fn from(_error: AllocError) -> PreError {
        PreError::Memory
    }
}

impl<T: Drop> From<AllocFailed<T>> for PreError {
    ghost use Rattle.c_pre.specs.declared.fault.PreError.TheVariants.{Memory};

    ghost from_gives = { λ _ e. e ≡ Memory };

    fn from(_error: AllocFailed<T>) -> PreError {
        PreError::Memory
    }
}
