//! Data-flow problems over a graph of nodes, and their least solutions.
//!
//! A problem is generic: a fact is generated at some nodes, flows along edges and is killed at some nodes. Its least
//! solution is the set of nodes that the fact reaches (`specs/Reached`). Live ranges are the solution with the edges
//! turned round; a fact is available on all paths where its opposite does not come.
#![tactic(auto)]

mod bounds;
mod cover;
pub mod node_set;
pub mod relation;
pub mod runs;
pub mod solver;
pub mod stretches;

pub use crate::node_set::NodeSet;
pub use crate::relation::Relation;
pub use crate::runs::Run;
pub use crate::solver::least_runs;
pub use crate::stretches::Stretches;
