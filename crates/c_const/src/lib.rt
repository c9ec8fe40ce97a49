//! Constant expressions (C99 6.6), over typed trees: the values of integer constant expressions and address constants,
//! and what static objects hold before a program runs.
#![tactic(auto)]

pub mod address;
pub mod contents;
pub mod integer;

pub use crate::address::{Pointers, address_constant};
pub use crate::contents::{InitialFault, InitialObject, initial_bytes, is_laid_out};
pub use crate::integer::{constant, constant_word};
