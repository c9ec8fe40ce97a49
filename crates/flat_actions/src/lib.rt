//! What it says of flat code that it does what a run of the source does: memory, registers and output stand for the
//! source's objects, values and output before and after.
//!
//! `testing` has the two tests of an access, the spatial check of SoftBound and the temporal check of CETS, and
//! `judging` the judgement, which is both: they end the run just where the judgement of the objects is a violation.
#![tactic(auto)]

pub mod judging;
pub mod laws;
pub mod lists;
pub mod narrowing;
pub mod testing;

pub use crate::judging::{judge, judge_instructions};
pub use crate::lists::{give_instructions, guarded, joined, unless, until};
pub use crate::narrowing::narrow;
pub use crate::testing::{
    spatial_check, spatial_instructions, temporal_check, temporal_instructions,
};
