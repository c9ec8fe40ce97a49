//! Expressions to three-address code. The code of a function is made from its end to its start: what comes next stands
//! already when an expression is lowered.

mod conversions;
pub mod emitter;
pub mod expression;
pub mod last;

pub use crate::expressions::emitter::Emitter;
