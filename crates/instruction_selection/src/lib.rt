//! The flat code of each instruction of checked three-address code, for programs with objects and pointers, by a form
//! of the shadow space. `metadata_relation` says what the list of each instruction is; here it is put behind a list.
#![tactic(auto)]

pub mod accesses;
pub mod areas;
pub mod blocks;
pub mod bodies;
pub mod call_tests;
pub mod calls;
pub mod checks;
pub mod contents;
pub mod context;
pub mod covered;
pub mod entries;
pub mod formats;
pub mod handing;
pub mod initializers;
pub mod instructions;
pub mod laws;
mod list;
pub mod named;
pub mod numbers;
pub mod place_updates;
pub mod pointers;
pub mod printing;
pub mod reads;
pub mod registers;
pub mod runtime_calls;
pub mod selection;
pub mod start_data;
pub mod statics;
pub mod structures;
mod temporaries;
pub mod type_keys;
pub mod updates;
pub mod values;
pub mod variables;

pub use crate::context::FunctionContext;
pub use crate::instructions::put_instruction;
pub use crate::registers::Registers;
