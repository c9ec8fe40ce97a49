//! Reading expressions, specifiers and declarators, each of which may stand inside each (C99 6.5, 6.7.1 to 6.7.6).
#![tactic(auto)]

mod declarator;
mod declarator_tree;
pub mod deeper;
mod enumeration;
mod expression;
mod expression_tree;
pub mod grammar;
pub mod leveled;
pub mod nested;
mod operand;
pub mod specifier;
mod specifier_tree;
mod structure;
pub mod typed;
