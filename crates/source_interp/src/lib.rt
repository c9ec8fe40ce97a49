//! What a source means, run directly. So far this is the state of a run, and some of what is done with it: the actions
//! of expressions, structures by value, blocks that are entered and left, what initializers store, what calls set up and
//! take back, routines of the library. No source is run.
#![tactic(auto)]

pub mod access;
pub mod automatic;
pub mod block;
pub mod call;
pub mod caller;
pub mod evaluation;
pub mod found;
pub mod heap;
pub mod homes;
pub mod initializing;
pub mod items;
pub mod limits;
pub mod machine;
pub mod memory;
pub mod output;
pub mod printing;
pub mod ranges;
pub mod stop;
pub mod strings;
pub mod structure;
pub mod taking;
pub mod trace;
pub mod update;
pub mod value;
pub mod variables;
