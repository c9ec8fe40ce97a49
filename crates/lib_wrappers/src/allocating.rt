//! How objects are born and die in flat code, as functions of the runtime: `malloc`, `calloc`, `free`, `realloc`, and
//! the objects of a block that is entered and left.

pub mod allocating;
pub mod entering;
pub mod freeing;
pub mod laws;
pub mod reallocating;
pub mod zeroing;

pub use crate::allocating::allocating::{calloc, key_test, keys_list, malloc};
pub use crate::allocating::entering::{EntryRegisters, enter, leave};
pub use crate::allocating::freeing::free;
pub use crate::allocating::reallocating::realloc;
pub use crate::allocating::zeroing::zero;
