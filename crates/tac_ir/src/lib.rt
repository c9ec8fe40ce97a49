//! Three-address code: a graph of instructions for each function, and its meaning.
//!
//! What code means stands in `specs/`: steps from stage to stage over the state of the source's meaning, by the
//! source's own runs. Before checks are inserted a wrong access ends the run with its kind and line; after it, a wrong
//! access that was judged is stuck, and it is proved that this never comes.
#![tactic(auto)]

pub mod function;
pub mod instruction;
pub mod key;
pub mod laws;
pub mod ways;

pub use crate::function::{CodeFunction, CountedLoop, Span, StaticData, Tac};
pub use crate::instruction::{Instruction, Mode, RightOperand, Test};
pub use crate::key::{Base, Key, Member, Scaled};
pub use crate::ways::{Ways, ways_of};
