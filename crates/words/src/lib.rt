//! Words of k bits in two's complement: sign extension, signed order, shifts, quotients and remainders.
//!
//! The definitions in `specs/` have the width as an argument, and serve integer types, the machine and every language
//! between. The functions here work on words of 64 bits, which hold shorter words extended; `laws` says what an
//! operation on extended words is on the shorter ones.
#![tactic(auto)]

pub mod arithmetic;
pub mod laws;

pub use crate::arithmetic::{
    is_less_signed, shift_right_signed, sign_extend, signed_quotient, signed_remainder,
};
