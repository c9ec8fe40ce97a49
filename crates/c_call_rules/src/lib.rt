//! Calls on typed operands (C99 6.5.2.2): the typed expression, or the rule that it violates. As in `c_rules`, nothing
//! here looks at a name, a scope or the syntax.
#![tactic(auto)]

pub mod callee;
pub mod calling;
pub mod format;
pub mod function_type;
pub mod laws;
pub mod printing;

pub use crate::callee::Callee;
pub use crate::calling::{called, called_through};
pub use crate::function_type::callee_type;
pub use crate::printing::{Format, formatted};
