//! From typed programs of integers to images: lowering, insertion of checks, dropping of the available ones, expansion
//! to flat code, propagation of its values, plans of registers and code generation, one behind the other.
//!
//! `specs/Built` says what is built and why nothing is; that an image does what its program means is a law of
//! `image_laws`.
#![tactic(auto)]

pub mod compiler;
pub mod error;
pub mod expanded_compiler;
pub mod expansion;
pub mod image;

pub use crate::compiler::{Built, compile};
pub use crate::error::CompileError;
pub use crate::expanded_compiler::compile_expanded;
pub use crate::expansion::ExpansionError;
