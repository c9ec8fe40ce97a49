//! Areas of structure values, and the routines that move the contents of structures between objects and areas.
//!
//! A structure that is the result of a call, or was taken as an argument, stands for no object: it has contents. In
//! compiled code these lie in an area of the space of structure values, their bytes in whole words and behind them an
//! entry of 32 bytes for each whole word. Sizes are held in registers, so that one list of instructions serves all.

pub mod laws;
mod loops;
pub mod moving;
pub mod putting;
pub mod reading;
pub mod taking;
pub mod zeroing;

pub use crate::areas::moving::{move_area, take_part};
pub use crate::areas::putting::{put_range, put_structure};
pub use crate::areas::reading::read_part;
pub use crate::areas::taking::{take_range, take_structure};
pub use crate::areas::zeroing::{make_zero, zero_area};
