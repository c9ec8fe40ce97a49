//! The containers of trees: a `Box` and a `Vec` that contracts see as what they hold, without where it lies in memory,
//! so that equal trees are equal values.
#![tactic(auto)]

pub mod boxed;
pub mod items;

pub use crate::boxed::Boxed;
pub use crate::items::Items;
