//! From checked three-address code of integer programs to flat code: the expansion, in code.
//!
//! `metadata_plan` says what the expansion of a program is, and that it follows the program; here it is made, with the
//! operators of `metadata_plan` and homes for the virtual registers (`specs/Homes`).
#![tactic(auto)]

pub mod areas;
pub mod blocks;
pub mod body;
pub mod calls;
pub mod closing;
pub mod context;
pub mod entries;
pub mod homes;
pub mod joins;
pub mod jumps;
pub mod laying;
pub mod layout;
mod list;
pub mod numbers;
pub mod program;
mod prologue;
pub mod registers;
pub mod temporary_set;
pub mod updates;

pub use crate::closing::{TemporaryTable, TemporaryUse, closed_table};
pub use crate::entries::entry_table;
pub use crate::numbers::fits;
pub use crate::program::expand;
