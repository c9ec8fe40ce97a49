//! What an initializer stores where (C99 6.7.8), read from left to right: its parts in order, or the rule that it
//! violates. Nothing here looks at a name's scope or at the syntax; values are typed trees with their C types.
#![tactic(auto)]

pub mod initializing;
pub mod literal;
pub mod order;
pub mod parts;
pub mod placed;

pub use crate::initializing::Initializing;
pub use crate::parts::Parts;
pub use crate::placed::PlacedPart;
