//! Listings of images of RV64IM: text with a line for each piece, from which the bytes are put together again.
#![tactic(auto)]

pub mod fault;
mod field;
pub mod laws;
mod line;
mod listing;
pub mod mnemonic;
pub mod operands;
mod piece;
mod reading;
mod text;

pub use crate::fault::{ListFault, ListRefusal};
pub use crate::listing::list_text;
pub use crate::reading::read_list;
