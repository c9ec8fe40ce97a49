//! The machine follows flat code: laws, a module a subject.
//!
//! `view`: the machine of a compiled program seen as functions. `blocks` and `calls`: blocks of machine instructions
//! for
//! the instructions of flat code, under a plan of registers and homes. `following`: when a machine is where a run is,
//! and
//! that it does what the program does. `layout`: the labelled list of each function, and where its words stand.
//! `segments`: which words the two segments of code have.
#![tactic(auto)]

pub mod laws;
pub mod location;

pub use crate::location::Location;
