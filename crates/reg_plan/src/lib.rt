//! Where the values of flat code are kept: in registers of the machine, or in the words of the activation record.
//!
//! A value is needed at an instruction where a path leads from there to an instruction that reads it, with none
//! between that makes it (`specs/Needs`): its live range. A plan says of each virtual register where it is live and
//! where its value is kept; it is accepted where no two that are live at one instruction are kept in one place
//! (`specs/Accepted`).
//!
//! `call_saves` has what the calls of a function save under its plan.
#![tactic(auto)]

pub mod accepts;
pub mod apart;
pub mod call_saves;
pub mod closed;
pub mod colouring;
mod copies;
pub mod effects;
pub mod flow;
pub mod intervals;
pub mod live;
pub mod lookup;
mod occupied;
pub mod plan;
pub mod planned;
pub mod record;

pub use crate::lookup::LiveLookup;
pub use crate::plan::{FunctionPlan, LiveInterval, Place, Plan};
pub use crate::record::record_bytes;
