//! Generation of machine code: the labelled list of each function of a program of flat code under its plan, assembled,
//! the functions one behind the other in the two segments of code, and the jump table.
//!
//! `specs/Generated` says which words these are.
//!
//! `emission` puts the instructions of each instruction of flat code behind a list, exactly those of `block` in
//! `machine_laws`; `images` makes an executable file of code and data.
#![tactic(auto)]

pub mod code;
pub mod emission;
pub mod generator;
pub mod images;
mod listing;

pub use crate::code::{Code, GenerateError};
pub use crate::generator::generate;
