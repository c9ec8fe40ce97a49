//! What stands for the names of a source where a construct is typed (C99 6.2.1 to 6.2.3).
#![tactic(auto)]

pub mod composite;
pub mod declaring;
pub mod enumerators;
pub mod environment;
pub mod library;
pub mod meaning;
pub mod names;
pub mod parameters;
pub mod start;
pub mod structures;
pub mod tags;
