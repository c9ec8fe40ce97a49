//! Typing of specifiers, type names, parameters and members whose parts are typed, with what typing carries from token
//! to token (C99 6.7). The recursion over the syntax stands above.
#![tactic(auto)]

pub mod members;
pub mod shape;
pub mod sizes;
pub mod specification;

pub use crate::members::{Entries, Entry};
pub use crate::shape::Shape;
pub use crate::specification::{Gathered, Specification};
