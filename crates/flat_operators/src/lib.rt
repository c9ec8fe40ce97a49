//! The operators of C on integers, and conversions, as lists of flat instructions (C99 6.3.1.3, 6.5.3.3,
//! 6.5.5 to 6.5.12), and pointers that move by elements (6.5.6). What each list leaves is what the operator of
//! `obj_memory` gives, or the address that the definition says (`laws`).
#![tactic(auto)]

pub mod binary;
pub mod constant;
pub mod conversion;
pub mod laws;
mod list;
pub mod pointers;
pub mod unary;
