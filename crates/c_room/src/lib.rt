//! The bytes of the budget `calls` that a call of a function takes: the height of its expressions, and the bytes of the
//! structures that calls pass. And the labels of a switch, among which one is found fast.
#![tactic(auto)]

pub mod demand;
pub mod expression;
pub mod function;
pub mod labels;
pub mod number;
pub mod statement;
pub mod statics;

pub use crate::expression::{height, passed_bytes, structure_bytes};
pub use crate::function::{room, rooms};
pub use crate::labels::SwitchLabels;
pub use crate::statics::static_heights;
