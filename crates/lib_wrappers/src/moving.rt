//! Ranges of object space that functions of the runtime move and fill, and the library's `memcpy`, `memmove`, `memset`
//! and the assignment of structures, as whole actions, for any form of the shadow space.

pub mod filling;
pub mod library;
pub mod moving;
pub mod structures;

pub use crate::moving::filling::fill;
pub use crate::moving::library::{CopyRegisters, FillRegisters, memmove, memset};
pub use crate::moving::moving::{
    cell_instructions, count_instructions, move_bytes, move_tagged, move_usable,
};
pub use crate::moving::structures::copy_structure;
