//! The typing of whole files (C99 6.7 to 6.9) in code: initializers, declarations, statements, function definitions,
//! and of a file to its typed program, or why there is none; exact against the definitions of `c_unit_typing`.
#![tactic(auto)]

pub mod declarations;
pub mod ending;
pub mod entering;
pub mod externals;
pub mod file;
pub mod initializers;
pub mod naming;
pub mod statements;
pub mod unit;

pub use crate::file::{file_in, file_with};
pub use crate::unit::{UnitRefusal, type_unit};
