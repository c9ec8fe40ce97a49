//! Laws, a module a subject.

pub mod bodies;
pub mod files;
pub mod functions;
pub mod limits;
pub mod literals;
pub mod names;
pub mod program_sizes;
pub mod programs;
pub mod scopes;
pub mod sizes;
pub mod statics;
pub mod tags;
pub mod tree_sizes;
