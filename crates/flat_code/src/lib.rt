//! Flat code: lists of instructions of RV64's operators over virtual registers and one byte memory, and what they mean.
//!
//! It is the language between three-address code, whose meaning knows objects, and the machine, whose meaning knows
//! registers and segments. `specs/Meaning` says what each instruction does, `specs/Memory` what the memory is, and
//! `specs/Spaces` which of its bytes flat code may use: an access of any other byte is stuck, and so are a call that
//! has no room and a jump out of its function.
//!
//! Routines are lists of flat instructions. `specs/Routines/Routine` says what it is for one to do something: from
//! every state of words in which its condition holds it comes to its end, or ends the run, within a number of steps,
//! and touches no byte on the way that may not be used. A routine is proved alone, from place 0 and over the registers
//! 0, 1, 2 and so on; `laws::routines` carries it to any place of any function and to any registers, and from there to
//! runs of whole programs.
//!
//! `specs/Routines/Objects/StandsFor` says what a memory stands for: the objects of a source, by their bytes, the
//! entries of their words, keys and lock words, over the ways in which the runtime's spaces are read (`Views`);
//! `specs/Routines/Objects/Changes` what actions do to a memory. `specs/Routines/Spaces/Quiet` says when code uses the
//! spaces of the runtime alone.
#![tactic(auto)]

pub mod function;
pub mod instruction;
pub mod laws;
pub mod registers;

pub use crate::function::{FlatFunction, FlatProgram};
pub use crate::instruction::{FlatInstruction, RightOperand};
pub use crate::registers::{Entry, Held};
