//! What code generation needs of a flat program and its meaning does not ask, tested: whether it can be encoded and
//! planned. The first is exact; the second says yes only where all homes of a function differ.
#![tactic(auto)]

pub mod encodable;
pub mod plannable;

pub use crate::encodable::is_encodable;
pub use crate::plannable::is_plannable;
