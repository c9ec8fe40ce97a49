//! What each operator of C makes of typed operands (C99 6.3, 6.5): the typed expression, or the rule that it violates.
//! Nothing here looks at a name, a scope or the syntax; operands are typed trees with their C types.
#![tactic(auto)]

pub mod between;
pub mod class;
pub mod conversion;
pub mod holding;
pub mod laws;
pub mod row;
pub mod unary;
pub mod value;

pub use crate::between::binary;
pub use crate::class::{Class, Target};
pub use crate::conversion::{Passing, assigned, cast};
pub use crate::row::Row;
pub use crate::unary::{LogicalOperator, comma, logical};
pub use crate::value::TypedValue;
