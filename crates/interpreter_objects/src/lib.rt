//! The objects of a run as an interpreter keeps them. No code runs over them yet.
#![tactic(auto)]

pub mod blocks;
pub mod laws;
pub mod object;
pub mod store;

pub use crate::blocks::{Block, Blocks};
pub use crate::object::Object;
pub use crate::store::Store;
