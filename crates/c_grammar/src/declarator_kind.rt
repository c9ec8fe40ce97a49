//! Which declarators are read, by what stands around them.

/// Which declarators are read.
#[derive(Clone, Copy, Debug, PartialEq, Eq)]
pub enum DeclaratorKind {
    /// Those with a name (C99 6.7.5).
    Named,
    /// Those without one (C99 6.7.6).
    Abstract,
    /// Both, as in a parameter (C99 6.7.5.3).
    Either,
}
