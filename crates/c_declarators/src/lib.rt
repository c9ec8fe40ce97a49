//! The types that declarators give their names: what they derive from the type that the specifiers name, and the rules
//! that such a type violates by itself (C99 6.7.5).
#![tactic(auto)]

pub mod adjusting;
pub mod derivation;
pub mod faults;

pub use crate::adjusting::adjusted;
pub use crate::derivation::{BuiltType, Derivation, built};
pub use crate::faults::TypeFaults;
