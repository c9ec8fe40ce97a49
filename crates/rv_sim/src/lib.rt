//! A simulator of RV64IM: an image is loaded into memory, and its instructions are run, with the
//! environment calls read, write and exit.
//!
//! What a run does is defined in `specs/`: one instruction in `Step`, whole runs in `Run`, and the
//! behaviour that a run shows in `Behaviour`.
#![tactic(auto)]

pub mod arithmetic;
pub mod call;
pub mod laws;
pub mod machine;
pub mod memory;
pub mod state;
pub mod stop;
pub mod trap;
pub mod width;

pub use crate::machine::Machine;
pub use crate::stop::Stop;
pub use crate::trap::TrapKind;
