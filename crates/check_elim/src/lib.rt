//! Available checks: those whose fact is known already, and how they are dropped.
//!
//! A check makes a fact known: that what its key gives may be accessed for so many bytes. Another check of the same
//! kind and key is superfluous where the fact is known on every path to it. The solver goes back from each check, up to
//! where the fact is made known or ends, and so looks at those nodes alone that matter to it.
#![tactic(auto)]

mod dropping;
mod facts;
mod graph;
pub mod laws;
mod search;
mod worklist;

pub use crate::dropping::drop_available;
