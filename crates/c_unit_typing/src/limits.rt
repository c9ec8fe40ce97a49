//! What of a typed program has a limit.

/// What there may be too much of in a program (C99 5.2.4.1 lets a translator set limits).
#[derive(Clone, Copy, Debug, PartialEq, Eq)]
pub enum Limited {
    /// The functions that are defined, at most 4096.
    Functions,
    /// The parameters of a function declarator, at most 127.
    Parameters,
    /// The members of a structure or union, at most 1024.
    Members,
    /// The bytes of the static objects, at most 4194304.
    Globals,
}
