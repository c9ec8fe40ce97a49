//! Laws of typing, each as the contract of a function that does nothing (C99 6.2 to 6.9), a module a subject.
//!
//! `validity`, `declarators`, `declarations`, `initializers`: what these constructs are typed to is valid, and what
//! they leave of a state. `types` and `spelled_types`: the types that they have. `scopes`, `layouts`, `laid_out`: what
//! typing leaves of a file. `places`: where statements stand. `violations`: all rules that a source violates, of which
//! typing answers the first.
#![tactic(auto)]

pub mod laws;
