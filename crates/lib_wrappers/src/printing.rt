//! `printf` in flat code: the strings among its arguments are scanned, in order, and then the pieces of the format are
//! put out with the arguments of their directives, by a function of the runtime.
//!
//! Digits are put out from the highest on: the highest power of the base is sought first, so no memory is needed.

pub mod digits;
pub mod formats;
pub mod numbers;

pub use crate::printing::formats::{Printed, printf};
