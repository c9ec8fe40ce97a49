//! The typed program of a typed file (C99 6.9): what the typing of a file carries, the program that is made of it, and
//! what it has too much of, exact against `c_unit_typing/specs/{Programs, Typed}.antt`.
#![tactic(auto)]

pub mod constants;
pub mod functions;
pub mod kinds;
pub mod limits;
pub mod linkage;
pub mod lists;
pub mod outline;
pub mod place;
pub mod refusal;
pub mod slots;
pub mod state;
pub mod statics;

pub use crate::outline::{Outline, complete, outlined};
pub use crate::refusal::ProgramRefusal;
pub use crate::state::FileTyper;
