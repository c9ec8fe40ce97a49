//! Laws of typed programs, each as the contract of a function that does nothing (C99 5.1.2.2, 6.9), a module a subject.
//!
//! `bodies`, `functions`, `files`, `names`, `tags`, `sizes`, `literals`, `statics`, `programs`: what functions and
//! files are typed to is valid. `scopes`: validity in two scopes of one program. `tree_sizes` and `program_sizes`: how
//! many nodes a typed tree and a typed program have. `limits`: how many parameters functions have.
#![tactic(auto)]

pub mod laws;
