//! Programs to three-address code.

pub mod body;
pub mod function;
pub mod program;
pub mod variables;

pub use crate::programs::program::lower;
