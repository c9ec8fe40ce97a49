//! Typing of expressions whose operands are typed: names, constants, operators and calls, with what typing carries from
//! token to token (C99 6.5). The recursion over the syntax stands above.
#![tactic(auto)]

pub mod callee;
pub mod forms;
pub mod operators;
pub mod primaries;

pub use crate::callee::Called;
