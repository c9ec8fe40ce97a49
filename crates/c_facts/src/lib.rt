//! What a file says as a whole, before it is typed (C99 6.9): the functions and objects that it defines, and the tags
//! whose structures and unions get their members at file scope.
#![tactic(auto)]

pub mod found;
pub mod specifiers;

pub use crate::found::facts_in;
