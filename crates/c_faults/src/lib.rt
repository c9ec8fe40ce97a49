//! What typing answers of a construct that has no typed form: the rules of C99 6.2 to 6.9, faults and refusals; and, in
//! `specs/Answer`, what a construct gives: its typed form, or the first rule that it violates.
#![tactic(auto)]

pub mod fault;

pub use crate::fault::{Fault, Refusal, Rule};
