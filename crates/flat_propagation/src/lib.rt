//! Copies, constants and comparisons that are carried to where they are used, within a basic block of flat code (local
//! copy and constant propagation). An operand is taken from where its value comes, so that what made a copy of it may
//! be needed by nothing; a branch on the outcome of a comparison compares by itself.
//!
//! Each instruction stays at its place and counts as much as before, so that the propagated program means the same step
//! by step (`laws`). `specs/Facts` says what is known of a register, `specs/Known` what is known where, and
//! `specs/Propagated` what is made of it.
#![tactic(auto)]

pub mod fact;
pub mod follow;
pub mod laws;
pub mod operands;
pub mod program;
pub mod rewrite;
pub mod table;
pub mod targets;

pub use crate::fact::Fact;
pub use crate::program::propagate;
