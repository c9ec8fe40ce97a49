//! The typing of expressions, type names, declarators and specifiers (C99 6.5, 6.7) in code: each rule of
//! `c_expression_typing/specs/Typed.antt` is a method of `Nested`, which takes the functions that type the parts of a
//! construct as values; `typing` ties them.
#![tactic(auto)]

pub mod calls;
pub mod declarators;
pub mod dropped;
pub mod enumerators;
pub mod expressions;
pub mod lists;
pub mod members;
pub mod nested;
pub mod specifier;
pub mod type_names;
pub mod typing;

pub use crate::typing::{declarator, expression, specifiers, type_name};
