//! Lock words and keys: which lock words are free, and the routines that hand them out with keys and take them back.
//!
//! A key is made once and never again (CETS: a unique identifier for each allocation); while its objects live, a lock
//! word holds it. `specs/Locks` says where the runtime keeps the counter of keys and the free list, and what always
//! holds of them; `routines` has the routines.
#![tactic(auto)]

pub mod laws;
pub mod routines;

pub use crate::routines::{fresh, next, release};
