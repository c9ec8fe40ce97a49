//! From checked three-address code of any program to flat code, under a form of the shadow space: the expansion, in
//! code.
//!
//! `metadata_relation` says what the expansion of a program is, and that it follows the program.
//! `instruction_selection` has the flat code of each instruction and `metadata_expansion` lays blocks; here whole
//! programs are made of them.
#![tactic(auto)]

pub mod entry;
pub mod error;
pub mod function;
pub mod homes;
pub mod limits;
mod list;
pub mod names;
pub mod program;
pub mod sizes;
pub mod source;
pub mod tables;

pub use crate::error::ExpandError;
pub use crate::program::expand;
