//! The conditional operator, the controlling conditions of statements and the value of a switch on typed operands (C99
//! 6.5.15, 6.8.4, 6.8.5): the typed expression, or the rule that it violates. As in `c_rules`, nothing here looks at a
//! name, a scope or the syntax.
#![tactic(auto)]

pub mod choice;
pub mod controlling;
pub mod laws;

pub use crate::choice::conditional;
pub use crate::controlling::{condition, switch_value};
