//! Statements to three-address code. The code of a function is made from its end to its start: what comes next stands
//! already when a statement is lowered.

pub mod labels;
pub mod simple;
pub mod statement;
