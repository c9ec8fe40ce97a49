//! What the keywords among the specifiers of a declaration say: a storage class, qualifiers, and a basic type (C99
//! 6.7.1 to 6.7.4).
#![tactic(auto)]

pub mod specified;

pub use crate::specified::{Sign, Size, Specified};
