//! How many parameters and members the lists of a file have: the first list of each kind that has more than a program
//! may have (C99 5.2.4.1).
#![tactic(auto)]

pub mod declarations;
pub mod excess;
pub mod statements;
pub mod trees;

pub use crate::excess::Excess;
pub use crate::statements::excess_of;
