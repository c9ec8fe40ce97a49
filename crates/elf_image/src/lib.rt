//! Executable files of the ELF-64 Object File Format for RISC-V: written from four segments, and read back, borrowed,
//! by tests in a fixed order.
#![tactic(auto)]

pub mod code;
pub mod fault;
pub mod header;
pub mod image;
pub mod laws;
pub mod new_image;
mod writing;

pub use code::code_ranges;
pub use fault::{ImageFault, ReadError};
pub use image::{Image, Segment};
pub use new_image::{NewImage, NewSegment};
