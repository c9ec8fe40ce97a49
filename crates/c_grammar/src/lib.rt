//! The grammar as readers of words: definitions that read the one well-formed tree of some words, or refuse at the
//! first word where they can tell (C99 6.5 to 6.9), with the laws that make them exact; and the functions that read one
//! word.
#![tactic(auto)]

pub mod cursor;
pub mod declarator_kind;
pub mod laws;
pub mod least_precedence;
pub mod operation;
pub mod typedef_names;
