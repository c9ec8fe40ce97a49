//! Laws of the relation, each as the contract of a function that does nothing.

pub mod inline;
pub mod laid;
pub mod runtime;
pub mod start_data;
pub mod steps;
pub mod waiting;
