//! Insertion of checks: each access through a pointer gets a spatial and then a temporal check.
#![tactic(auto)]

pub mod access;
pub mod count;
pub mod insertion;
pub mod laws;

pub use crate::count::checks;
pub use crate::insertion::insert;
