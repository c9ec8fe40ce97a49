//! Routines as functions of the runtime, which programs call.
//!
//! A routine is a list of flat instructions with its line in it. As a function it stands once, for calls at every line:
//! each of its endings is a jump to an exit stub that returns a number for it (`status`), and the caller ends the run
//! with its own line. `laws` says what the call does in the run of the program.
#![tactic(auto)]

pub mod function;
pub mod laws;
pub mod library;
mod list;
pub mod runtime;
pub mod status;

pub use crate::function::{RuntimeFrame, runtime_function};
pub use crate::library::LibraryFunction;
pub use crate::runtime::{RuntimeFunction, all_functions, runtime_function_of, runtime_functions};
pub use crate::status::ReturnStatus;
