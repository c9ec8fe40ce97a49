//! What the calls of a function save under its plan: the values that are kept in registers of the machine and are live
//! behind the call.

mod rows;
pub mod saves;

pub use crate::call_saves::saves::{CallSaves, call_saves};
