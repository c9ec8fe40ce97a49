//! An interpreter of three-address code over objects, for tests: what an instruction, a call and a routine of the
//! library do stands here once more, after the definitions of `tac_ir` and `source_meaning`, and what is wrong there is
//! stuck here. So no clause says what a run comes to: programs compare it with what is proved of their texts' meaning.
#![tactic(auto)]

mod access;
mod act;
mod call;
mod heap;
mod key;
mod kind;
mod library;
mod object;
mod runs;
mod state;
mod string;
mod value;

pub use crate::kind::{Finder, KIND_NAMES};
pub use crate::runs::{Outcome, run};
pub use crate::state::{Access, Budgets, Cause, Stop};
