//! The meaning of a source as a stack of tasks: what is left to do of a run, one task after another. There is no
//! recursion in a step, so code that does steps needs the same stack whatever the source. No code does so yet.
#![tactic(auto)]

pub mod laws;
