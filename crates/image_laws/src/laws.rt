//! Laws, a module a subject.

pub mod assignment;
pub mod code_sizes;
pub mod definite;
pub mod encoding;
pub mod expansions;
pub mod images;
pub mod lowering;
pub mod plans;
pub mod propagation;
pub mod sizes;
