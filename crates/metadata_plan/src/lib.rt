//! From checked three-address code to flat code, as far as integers go: what stands for each instruction, and that flat
//! code so made follows.
//!
//! `specs/Registers` numbers the virtual registers of a function, `specs/Blocks` has the flat code of each instruction,
//! `specs/Expanded` says when a flat program is the expansion of a program, `specs/Laid` lays the blocks one behind the
//! other, and `specs/Matching` says when a run of flat code is where a run of three-address code is. The operators on
//! integers are given by their code, of which `specs/Operators` says what is asked. `specs/Part` says which programs
//! have integers alone.
//!
//! `laws::operator_lists`: the lists of `flat_operators` compute what is asked of such operators.
#![tactic(auto)]

pub mod laws;
