//! The typing of initializers, declarations, statements and whole files over the syntax (C99 6.7 to 6.9), as a
//! definition (`specs/Typed.antt`): the typed program, or the first rule that is violated in the order of the tokens,
//! or what there is too much of.
#![tactic(auto)]

pub mod laws;
pub mod limits;
pub mod lines;
