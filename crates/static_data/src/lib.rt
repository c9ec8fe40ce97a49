//! Static objects as they are before a run (C99 6.7.8), as three-address code has them.
#![tactic(auto)]

pub mod contents;
pub mod pointers;

pub use crate::contents::static_data;
