//! The shadow space: where the metadata of the words of object space stands, and the routines that read and write it.
//!
//! A form of the shadow space (`form`) says what the entry of a word is in a memory, and gives the routines; what is
//! proved of them speaks of entries alone, so code above is the same for every form. In the direct form (`direct`)
//! the entry of a word has a place of its own.
//!
//! `two_levels` has a form in two levels: a word for each page, and tables from a reserve.
#![tactic(auto)]

pub mod direct;
mod entry_words;
pub mod form;
pub mod start;
pub mod two_levels;

pub use crate::direct::Direct;
pub use crate::form::ShadowForm;
pub use crate::start::StartEntry;
