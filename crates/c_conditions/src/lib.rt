//! Conditions of `#if` and `#elif` (C99 6.10.1): which tokens are one, and its value.
#![tactic(auto)]

mod condition;
pub mod laws;
mod operator;
mod value;

pub use crate::condition::{ConditionFault, evaluate};
pub use crate::operator::Operator;
pub use crate::value::Value;
