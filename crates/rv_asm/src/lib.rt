//! An assembler: from a list of labels, instructions, and branches, jumps and calls to labels, to the words of RV64IM.
//! Each
//! branch, jump and call has the shortest form with which its label is in reach.
#![tactic(auto)]

mod assembler;
mod emission;
pub mod form;
pub mod item;
mod labels;
pub mod laws;
mod layout;

pub use crate::assembler::{assemble, word_count};
pub use crate::form::Form;
pub use crate::item::{Item, Label};
pub use crate::labels::is_assemblable;
