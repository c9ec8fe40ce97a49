//! What `*`, `&`, `[]`, `.`, `->` and `sizeof` make of lvalues, functions and values, and what value each of these
//! stands for (C99 6.3.2.1, 6.5.2, 6.5.3): the typed expression, or the rule that it violates. As in `c_rules`, nothing
//! here looks at a name, a scope or the syntax.
#![tactic(auto)]

pub mod operand;
pub mod place;
pub mod refusal;
pub mod target;

pub use crate::operand::{Operand, TypedPlace, TypedVariable, enclosed, value_in};
pub use crate::place::{
    address, arrow, dereferenced, indexed, selected, size_of, structure_number, type_in,
};
