//! Functions of the runtime that look at bytes and compare them: `strchr`, `strcmp` and `memcmp`.

pub mod comparing;
pub mod seeking;

pub use crate::comparing::comparing::{RangeRegisters, memcmp, strcmp};
pub use crate::comparing::seeking::strchr;
