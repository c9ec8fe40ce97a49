//! Lowering in code: typed programs to three-address code.
//!
//! `keys` finds the key of an lvalue from its tree, `expressions` lowers expressions and lvalues, `parts` what
//! statements
//! are made of, `statements` statements, and `programs` functions and whole programs.
#![tactic(auto)]

pub mod expressions;
pub mod keys;
pub mod parts;
pub mod programs;
pub mod statements;

pub use crate::programs::lower;
