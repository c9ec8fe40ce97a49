//! The table of live blocks of the heap, and the routines that place a block, remove one and find one.
//!
//! The table is sorted by address. `specs/Table` says where the runtime keeps it and what always holds of it;
//! `routines` has the routines. What they do is said of the rows, and `laws` says that the place of a block by the rows
//! is the place by the objects (C99 7.20.3).
#![tactic(auto)]

pub mod laws;
pub mod routines;

pub use crate::routines::{find, place, release};
