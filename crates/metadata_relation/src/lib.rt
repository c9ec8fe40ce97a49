//! The relation between checked three-address code and its flat code, for programs with objects and pointers: laws
//! alone.
//!
//! `specs/Registers` numbers the virtual registers of a function, `specs/Blocks` has the flat code of each instruction,
//! `specs/Holding` says what the registers hold, `specs/Waiting` what waits behind a run, and `specs/Stages` when a run
//! of flat code is where a run of three-address code is. The lists that stand inline are given by `specs/InlineCode`.
//!
//! `laws::steps`: the expansion of a program whose instructions are all covered (`specs/Steps`) follows it.
#![tactic(auto)]

pub mod laws;
