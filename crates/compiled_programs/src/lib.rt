//! The programs that have integers alone: which typed programs these are (C99 6.2.5).
#![tactic(auto)]

pub mod expression;
pub mod program;
pub mod statement;
