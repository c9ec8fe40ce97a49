//! `=`, the compound assignments, `++` and `--` on typed operands (C99 6.5.2.4, 6.5.3.1, 6.5.16): the typed expression,
//! or the rule that it violates. As in `c_rules`, nothing here looks at a name, a scope or the syntax.
#![tactic(auto)]

pub mod laws;
pub mod modifiable;
pub mod operators;
pub mod writing;

pub use crate::modifiable::{assignable, has_const};
pub use crate::operators::{StepOperator, assignment, compound, stepped};
