//! One program of three functions, carried through all that the theorems of the back end ask: that their premises can
//! be met together.
#![tactic(auto)]

pub mod laws;
