//! The meaning of a typed program: what its run shows, how much work it does and how it ends, for each number of turns.
//!
//! The definitions stand in `specs/`: the state of a run and the actions on it, which three-address code shares, then
//! expressions, initializers, statements, the library, calls, and the meaning of a program as a behaviour.
//!
//! `laws::constants`: constant expressions mean what `c_const` says of them. `laws::lines`: what is run does the same
//! at each line.
#![tactic(auto)]

pub mod laws;
